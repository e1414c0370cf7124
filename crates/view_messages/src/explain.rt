//! The way of one message through a run.
use crate::chain::Chain;
use crate::dated::{Dated, dated_posts};
use crate::injected::moves_time;
use crate::posted::{entries_of, first_together, place_of_post, posted_at, turn_before};
use crate::replayed::{Replayed, tell_attributes};
use crate::takers::tell_takers;
use crate::transitions::Incoming;
use crate::tried::{Moment, tell_taken, tell_tried};
use journal::{Did, Entry, Journals, naming};
use room_ast::{Class, Model, StateMachine};
use room_kinds::{ControllerId, Incarnation, Msg, SlotId, Stamp};
use room_wiring::Wiring;
use std::alloc::{AllocError, Global};
use view_journals::{
    Actors, Fetched, Name, Redone, Turn, actor_at, arming_before, is_timeout, put_actor,
    put_arming, put_controller, put_end, put_left, put_name, put_received, tell_difference,
    tell_turn, turns_of,
};
use view_pages::{Named, Page};

/// What a message is explained by.
#[derive(Clone, Copy)]
pub struct Explained<'a> {
    pub wiring: &'a Wiring,
    /// The tree of the model, in which each actor class has all that it has from its bases.
    pub model: &'a Model,
    pub injections: Named<'a>,
    pub journals: &'a Journals,
    /// The run, done again by the charts of the model.
    pub redone: &'a Redone,
    /// The turns of the message at its actor, replayed; none where they are not known.
    pub replays: &'a [Replayed],
}

/// The chart of an actor class.
fn machine_of<'a>(model: &'a Model, name: &[u8]) -> Option<&'a StateMachine> {
    for class in model.classes.as_slice() {
        if let Class::Actor(class) = class {
            if class.name.is(name) {
                return match &class.behavior {
                    Some(behavior) => behavior.machine.as_ref(),
                    None => None,
                };
            }
        }
    }
    None
}

impl<'a> Explained<'a> {
    /// The name of the class of a slot.
    fn class_name(&self, slot: SlotId) -> &'a [u8] {
        match self.wiring.class_of(slot) {
            Some(class) => class.name.as_bytes(),
            None => b"",
        }
    }

    /// The message, and whom it is for.
    fn tell_message(&self, page: &mut Page, msg: &Msg) {
        put_received(page, self.wiring, msg);
        page.end_line();
        page.put(b"to ");
        put_actor(page, self.wiring, actor_at(msg.target));
        page.put(b", an actor of ");
        page.put_line(self.class_name(msg.target.slot));
    }

    /// The line of the injections for which the environment posted a message at a place of its journal, and the time then.
    fn dated(
        &self,
        alloc: Global,
        msg: &Msg,
        place: usize,
    ) -> Result<Option<Dated<'a>>, AllocError> {
        let dated = dated_posts(alloc, self.wiring, self.journals, self.injections.text)?;
        let expires = is_timeout(self.wiring, msg);
        Ok(match dated.as_slice().get(place) {
            Some(dated) if dated.is_timeout == expires => Some(*dated),
            _ => None,
        })
    }

    /// The virtual time at which the environment posted a message, and of a timeout what armed its timer.
    fn tell_time(
        &self,
        alloc: Global,
        page: &mut Page,
        msg: &Msg,
        place: usize,
        dated: Dated<'_>,
    ) -> Result<(), AllocError> {
        page.put(b"    at the time ");
        page.put_number(dated.time);
        if dated.is_timeout {
            let first = first_together(self.journals.environment.as_slice(), place);
            let target = msg.target;
            let arming = arming_before(alloc, self.wiring, self.journals, target, first)?;
            if let Some(arming) = arming {
                page.put(b", ");
                put_arming(page, self.wiring, arming);
                page.put(b", which armed the timer");
            }
        }
        page.end_line();
        Ok(())
    }

    /// The line of the injections from which the environment posted a message, at a place of its journal.
    fn tell_line(
        &self,
        alloc: Global,
        page: &mut Page,
        msg: &Msg,
        place: usize,
    ) -> Result<(), AllocError> {
        let Some(dated) = self.dated(alloc, msg, place)? else {
            page.put_line(b"    the injections have no line for it");
            return Ok(());
        };
        page.put(b"    line ");
        page.put_number(dated.line.number as u64);
        page.put(b" of ");
        page.put(self.injections.name.as_bytes());
        page.put(b": ");
        page.put_line(dated.line.text);
        if moves_time(self.injections.text) {
            self.tell_time(alloc, page, msg, place, dated)?;
        }
        Ok(())
    }

    /// In which turn a message was posted, or at which start.
    fn put_turn_of_post(&self, page: &mut Page, entries: &[Entry], place: usize) {
        let Some(turn) = turn_before(entries, place) else {
            page.put(b", at its start");
            return;
        };
        if let Some(
            Entry::Turn {
                stamp,
                from,
                sent,
                ..
            },
        ) = entries.get(turn)
        {
            page.put(b", in the turn at ");
            page.put_number(stamp.0);
            page.put(b" with ");
            put_name(page, self.wiring, *from, *sent);
        }
    }

    /// Where a message was posted, at a place among the entries of its sender.
    fn tell_posted(
        &self,
        alloc: Global,
        page: &mut Page,
        msg: &Msg,
        place: usize,
    ) -> Result<(), AllocError> {
        page.put(b"posted at ");
        page.put_number(msg.stamp.0);
        page.put(b" by ");
        let Some(source) = msg.source else {
            page.put_line(b"environment");
            return self.tell_line(alloc, page, msg, place);
        };
        put_end(page, self.wiring, source);
        page.put(b" on ");
        put_controller(page, self.wiring, usize::from(msg.from.0));
        let entries = entries_of(self.wiring, self.journals, msg.from);
        self.put_turn_of_post(page, entries, place);
        page.end_line();
        Ok(())
    }

    /// Where a message was fetched.
    fn tell_fetched(&self, page: &mut Page, name: Name) {
        for (controller, journal) in self.journals.controllers.as_slice().iter().enumerate() {
            for entry in journal.as_slice() {
                if let Entry::Fetch { stamp, msg } = entry {
                    if Name::new(msg.from, msg.stamp) == name {
                        page.put(b"fetched at ");
                        page.put_number(stamp.0);
                        page.put(b" by ");
                        put_controller(page, self.wiring, controller);
                        page.end_line();
                    }
                }
            }
        }
    }

    /// What the chart of an actor made of a message in a state.
    fn tell_chart(
        &self,
        alloc: Global,
        page: &mut Page,
        msg: &Msg,
        state: u16,
        did: Did,
        replayed: Option<&Replayed>,
    ) -> Result<(), AllocError> {
        let slot = msg.target.slot;
        let Some(machine) = machine_of(self.model, self.class_name(slot)) else {
            page.put_line(b"    its class has no chart, and takes nothing");
            return Ok(());
        };
        let incoming = Incoming {
            signal: naming::signal_name(self.wiring, msg),
            port: self.wiring.port_name(slot, msg.target.port),
        };
        let at = Moment {
            label: naming::state_label(self.wiring, slot, state),
            incoming,
            holds: match replayed {
                Some(replayed) => replayed.holds.as_slice(),
                None => &[],
            },
            chain: Chain {
                wiring: self.wiring,
                slot,
                passed: match replayed {
                    Some(replayed) => replayed.passed.as_slice(),
                    None => &[],
                },
            },
        };
        if let Did::Unhandled { .. } = did {
            tell_tried(alloc, page, machine, at)?;
            return tell_takers(alloc, page, machine, incoming);
        }
        tell_taken(alloc, page, machine, at)
    }

    /// What the chart of the actor of a turn made of its message, and what became of the actor's attributes.
    fn tell_actor(
        &self,
        alloc: Global,
        page: &mut Page,
        msg: &Msg,
        turn: &Turn<'_>,
        before: u16,
        place: usize,
    ) -> Result<(), AllocError> {
        let replayed = self.replays.get(place);
        if let (Some(replayed), Some(class)) = (replayed, self.wiring.class_of(msg.target.slot)) {
            tell_attributes(page, class, replayed);
        }
        self.tell_chart(alloc, page, msg, before, turn.did, replayed)
    }

    /// Those of all turns that a message has.
    fn tell_own_turns(
        &self,
        alloc: Global,
        page: &mut Page,
        msg: &Msg,
        fetched: &Fetched<'_>,
        turns: &[Turn<'_>],
    ) -> Result<(), AllocError> {
        let name = Name::new(msg.from, msg.stamp);
        let mut actors = Actors::started(alloc, self.wiring, self.journals)?;
        let mut place = 0usize;
        for turn in turns {
            if turn.name() == name {
                tell_turn(page, self.wiring, fetched, &actors, turn);
                if let Some(before) = state_before(&actors, turn.did) {
                    self.tell_actor(alloc, page, msg, turn, before, place)?;
                    place = place.saturating_add(1);
                }
            }
            actors.turn(turn.did, turn.notes);
        }
        Ok(())
    }

    /// The turns of a message.
    fn tell_turns(&self, alloc: Global, page: &mut Page, msg: &Msg) -> Result<(), AllocError> {
        let fetched = Fetched::of(alloc, self.journals)?;
        let turns = turns_of(alloc, self.journals, self.redone)?;
        self.tell_own_turns(alloc, page, msg, &fetched, turns.as_slice())
    }

    /// Where a message is that no turn took.
    fn tell_left(&self, page: &mut Page, name: Name) {
        for left in self.journals.left.as_slice() {
            if Name::new(left.msg.from, left.msg.stamp) == name {
                page.put(b"! ");
                put_left(page, self.wiring, left);
                page.end_line();
            }
        }
    }
}

/// The state of the actor of a turn before it, where it is known.
fn state_before(actors: &Actors, did: Did) -> Option<u16> {
    let who: Incarnation = match did {
        Did::Handled { who, .. } | Did::Deferred { who, .. } | Did::Unhandled { who, .. } => who,
        Did::Duty | Did::Stale { .. } | Did::Empty { .. } => return None,
    };
    actors.state_of(who)
}

/// Tells the way of a message, by its sender and the stamp of its post: where it was posted, and from which line of
/// the injections; where it was fetched; each of its turns, with the transition that took it, or those that were
/// tried and the states in which it is taken; and where it was left. That the journals are those of another model is
/// told before all. It says whether the journals have the message.
pub fn tell_message(
    alloc: Global,
    page: &mut Page,
    told: Explained<'_>,
    from: ControllerId,
    sent: Stamp,
) -> Result<bool, AllocError> {
    let entries = entries_of(told.wiring, told.journals, from);
    let Some(place) = place_of_post(entries, sent.0) else {
        return Ok(false);
    };
    let Some(msg) = posted_at(entries, place) else {
        return Ok(false);
    };
    let name = Name::new(from, sent);
    tell_difference(page, told.wiring, told.redone);
    told.tell_message(page, msg);
    told.tell_posted(alloc, page, msg, place)?;
    told.tell_fetched(page, name);
    told.tell_turns(alloc, page, msg)?;
    told.tell_left(page, name);
    Ok(true)
}
