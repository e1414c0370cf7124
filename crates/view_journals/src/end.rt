//! What was still open where a run ended.
use crate::attributes::put_attributes;
use crate::differs::tell_difference;
use crate::fetched::{Fetched, Name};
use crate::lines::{end_word, is_untaken, put_head, put_left};
use crate::names::{put_actor, put_state};
use crate::redone::Redone;
use crate::standing::Actors;
use crate::turns::{Turn, turns_of};
use indexmap::{IndexMap, IndexSet};
use journal::{Did, Journals};
use room_kinds::{Generation, Incarnation, SlotId};
use room_wiring::Wiring;
use std::alloc::{AllocError, Global};
use view_pages::Page;

/// What became of the message of a turn in the end.
#[derive(Clone, Copy, PartialEq, Eq)]
enum Fate {
    /// It had another turn, was handled, was a duty, or was left untaken.
    Settled,
    /// It is deferred.
    Deferred,
    /// It was never handled.
    NeverHandled,
    /// It was deferred, and its actor has ended.
    Lost,
}

/// What the end of a run is told of.
#[derive(Drop)]
struct Ended<'a> {
    wiring: &'a Wiring,
    redone: &'a Redone,
    fetched: Fetched<'a>,
    turns: Vec<Turn<'a>>,
    /// For each message the place of its last turn among all.
    last: IndexMap<Name, usize>,
    /// The messages that no turn took.
    left: IndexSet<Name>,
    actors: Actors,
}

fn last_turns(alloc: Global, turns: &[Turn<'_>]) -> Result<IndexMap<Name, usize>, AllocError> {
    let mut last = IndexMap::new(alloc);
    for (place, turn) in turns.iter().enumerate() {
        last.insert(turn.name(), place)?;
    }
    Ok(last)
}

fn left_names(alloc: Global, journals: &Journals) -> Result<IndexSet<Name>, AllocError> {
    let mut names = IndexSet::new(alloc);
    for left in journals.left.as_slice() {
        names.insert(Name::new(left.msg.from, left.msg.stamp))?;
    }
    Ok(names)
}

/// Who stands where behind all turns.
fn actors_of(
    alloc: Global,
    wiring: &Wiring,
    journals: &Journals,
    turns: &[Turn<'_>],
) -> Result<Actors, AllocError> {
    let mut actors = Actors::started(alloc, wiring, journals)?;
    for turn in turns {
        actors.turn(turn.did, turn.notes);
    }
    Ok(actors)
}

impl<'a> Ended<'a> {
    fn of(
        alloc: Global,
        wiring: &'a Wiring,
        journals: &'a Journals,
        redone: &'a Redone,
    ) -> Result<Ended<'a>, AllocError> {
        let turns = turns_of(alloc, journals, redone)?;
        let last = last_turns(alloc, turns.as_slice())?;
        let actors = actors_of(alloc, wiring, journals, turns.as_slice())?;
        Ok(Ended {
            wiring,
            redone,
            fetched: Fetched::of(alloc, journals)?,
            turns,
            last,
            left: left_names(alloc, journals)?,
            actors,
        })
    }

    /// How the run ended, what was still open, and who stands where.
    fn tell(&self, page: &mut Page, journals: &Journals) {
        page.put_line(end_word(journals.done));
        self.tell_fate(page, b"deferred, and since when:", Fate::Deferred);
        self.tell_fate(page, b"deferred, and lost with their actors:", Fate::Lost);
        self.tell_fate(page, b"never handled:", Fate::NeverHandled);
        tell_left(page, self.wiring, journals);
        tell_unposted(page, journals);
        self.tell_actors(page);
    }

    /// What became in the end of a message that an actor deferred in its last turn.
    fn fate_of_deferred(&self, name: Name, who: Incarnation) -> Fate {
        if self.left.contains(&name) {
            return Fate::Settled;
        }
        match self.actors.state_of(who) {
            Some(_) => Fate::Deferred,
            None => Fate::Lost,
        }
    }

    /// What became in the end of the message of the turn at a place.
    fn fate(&self, place: usize, turn: &Turn<'_>) -> Fate {
        if self.last.get(&turn.name()).copied() != Some(place) {
            return Fate::Settled;
        }
        match turn.did {
            Did::Deferred { who, .. } => self.fate_of_deferred(turn.name(), who),
            did if is_untaken(did) => Fate::NeverHandled,
            _ => Fate::Settled,
        }
    }

    /// The line of a turn: when it was, at which actor in which state, and what it did with which message.
    fn tell_turn(&self, page: &mut Page, turn: &Turn<'_>) {
        page.put(b"    ");
        put_head(page, self.wiring, &self.fetched, turn);
        if let Did::Deferred { who, state } | Did::Unhandled { who, state } = turn.did {
            page.put(b", ");
            put_state(page, self.wiring, who.slot, state);
        }
        page.end_line();
    }

    /// The turns whose messages came to one fate, under a title.
    fn tell_fate(&self, page: &mut Page, title: &[u8], fate: Fate) {
        page.put_line(title);
        let mut has_some = false;
        for (place, turn) in self.turns.as_slice().iter().enumerate() {
            if self.fate(place, turn) == fate {
                has_some = true;
                self.tell_turn(page, turn);
            }
        }
        tell_none(page, has_some);
    }

    /// The attributes of the actor that stands in a slot, where they are known.
    fn put_attributes(&self, page: &mut Page, slot: SlotId) {
        let (Some(class), Some(numbers)) = (
            self.wiring.class_of(slot),
            self.redone.attributes_of(slot),
        ) else {
            return;
        };
        if !class.attributes.is_empty() {
            page.put(b"; ");
            put_attributes(page, class, numbers, numbers);
        }
    }

    /// Who stands where in the end, in which state, and with which attributes.
    fn tell_actors(&self, page: &mut Page) {
        page.put_line(b"who stands where:");
        let mut has_some = false;
        for number in 0..self.wiring.slot_count() {
            let slot = SlotId(number as u16);
            if let Some(standing) = self.actors.at(slot) {
                has_some = true;
                page.put(b"    ");
                put_actor(page, self.wiring, incarnation(slot, standing.generation));
                page.put(b": ");
                put_state(page, self.wiring, slot, standing.state);
                self.put_attributes(page, slot);
                page.end_line();
            }
        }
        tell_none(page, has_some);
    }
}

fn incarnation(slot: SlotId, generation: Generation) -> Incarnation {
    Incarnation { slot, generation }
}

/// A line under a title that has no other.
fn tell_none(page: &mut Page, has_some: bool) {
    if !has_some {
        page.put_line(b"    none");
    }
}

/// What no turn took.
fn tell_left(page: &mut Page, wiring: &Wiring, journals: &Journals) {
    page.put_line(b"left untaken:");
    for left in journals.left.as_slice() {
        page.put(b"    ");
        put_left(page, wiring, left);
        page.end_line();
    }
    tell_none(page, !journals.left.is_empty());
}

/// The lines of the injections that were not posted.
fn tell_unposted(page: &mut Page, journals: &Journals) {
    page.put_line(b"not posted:");
    for line in journals.unposted.as_slice() {
        page.put(b"    line ");
        page.put_number(u64::from(*line));
        page.end_line();
    }
    tell_none(page, !journals.unposted.is_empty());
}

/// Tells what was still open where a run ended: what is deferred and since when, what was lost with its actor, what
/// was never handled, what no turn took and which lines were not posted; then who stands where, with which attributes.
/// That the journals are those of another model is told before all.
pub fn tell_end(
    alloc: Global,
    page: &mut Page,
    wiring: &Wiring,
    journals: &Journals,
    redone: &Redone,
) -> Result<(), AllocError> {
    tell_difference(page, wiring, redone);
    let ended = Ended::of(alloc, wiring, journals, redone)?;
    ended.tell(page, journals);
    Ok(())
}
