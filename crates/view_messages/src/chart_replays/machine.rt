//! An actor's chart, whose attributes can be looked at.
ghost use Rattle.std.specs.Prelude.{◌≡◌, length, IfOk, IsTrue, OnOk};
ghost use Rattle.chart_run.specs.chart_tables.Tables.{IsSound};

use crate::chart_replays::trace::{Passed, steps_of};
use action_program::{Effects, Moment, Vars, test};
use chart_run::chart_tables::Mind;
use chart_run::{Arrow, Event, Handling, Row, Tables, Trigger};
use room_kinds::{Command, Commands, Incarnation, Msg, Payload};
use std::alloc::{AllocError, Global};
use std::mem;

/// An actor in its chart: the state at which its active path ends, and what chains change. What its actions asked for
/// is kept until it is taken (`take_commands`).
#[derive(Drop)]
pub(crate) struct Replay {
    me: Incarnation,
    leaf: u16,
    mind: Mind,
}

/// No history for each of some states.
fn no_past(alloc: Global, states: &[Row]) -> Result<Vec<Option<u16>>, AllocError>
    ensures { IfOk result (λ past. length past.items ≡ length states.now) }
{
    let mut past = Vec::new(alloc);
    for _i in 0..states.len() {
        past.push(None)?;
    }
    Ok(past)
}

fn event_of(msg: &Msg) -> Event {
    Event {
        port: msg.target.port,
        signal: msg.signal,
    }
}

/// Whether a trigger has an event.
fn has(trigger: &Trigger, event: Event) -> bool {
    trigger.events.iter().any(|other| event.is(*other))
}

/// What a chain comes to that asked for this in the turn of a message.
fn handling_of(commands: &[Command]) -> Handling {
    if commands
        .iter()
        .any(|command| matches!(command, Command::Defer))
    {
        Handling::Deferred
    } else {
        Handling::Handled
    }
}

impl Replay {
    /// The number of the state at which the active path ends.
    pub(crate) fn state(&self) -> u16 {
        self.leaf
    }

    /// Whether this is the actor.
    pub(crate) fn is(&self, who: Incarnation) -> bool {
        self.me == who
    }

    /// Whether this is an actor in the chart of these tables.
    pub(crate) fn fits(&self, tables: &Tables) -> bool
        ensures { IsTrue result → length self.now.mind.past.items ≡ length tables.now.states.items }
    {
        self.mind.past.len() == tables.states.len()
    }

    /// What actions asked for since this was taken last.
    pub(crate) fn take_commands(&mut self, alloc: Global) -> Commands
        ensures { length self.new.mind.past.items ≡ length self.old.mind.past.items }
    {
        let effects = mem::replace(&mut self.mind.effects, Effects::new(alloc));
        let Effects { commands, .. } = effects;
        commands
    }

    /// What is known where a message comes in.
    fn moment_of(&self, alloc: Global, msg: &Msg) -> Result<Moment, AllocError> {
        Ok(Moment {
            payload: msg.payload.copy(alloc)?,
            place: msg.target.place,
            me: self.me,
            has_message: true,
        })
    }

    /// An actor that has taken its initial transition.
    pub(crate) fn start(
        alloc: Global,
        tables: &Tables,
        me: Incarnation,
    ) -> Result<Replay, AllocError>
        requires { IsSound tables.now }
        ensures { IfOk result (λ r. length r.mind.past.items ≡ length tables.now.states.items) }
    {
        let at = Moment {
            payload: Payload::empty(alloc),
            place: 0,
            me,
            has_message: false,
        };
        let mut mind = Mind {
            past: no_past(alloc, tables.states.as_slice())?,
            vars: Vars::new(alloc, tables.values.as_slice())?,
            effects: Effects::new(alloc),
        };
        let leaf = mind.chain(alloc, tables, None, &tables.initial, &at)?;
        Ok(Replay { me, leaf, mind })
    }

    /// The numbers of the attributes, in order of declaration.
    pub(crate) fn numbers(&self, alloc: Global) -> Result<Vec<i64>, AllocError> {
        self.mind.vars.numbers().to_vec(alloc)
    }

    /// Handles a message, and says what it comes to. What actions asked for was taken before.
    pub(crate) fn handle(
        &mut self,
        alloc: Global,
        tables: &Tables,
        msg: &Msg,
    ) -> Result<Handling, AllocError>
        requires sound { IsSound tables.now }
        requires size { length self.old.mind.past.items ≡ length tables.now.states.items }
        ensures { OnOk result (length self.new.mind.past.items ≡ length tables.now.states.items) }
    {
        let at = self.moment_of(alloc, msg)?;
        let leaf = self.leaf;
        let Some(taken) = self.mind.enabled(tables, leaf, event_of(msg), &at)? else {
            return Ok(Handling::Unhandled);
        };
        self.mind.leave_all(alloc, tables, leaf, taken.leaves, &at)?;
        self.leaf = self
            .mind
            .chain(alloc, tables, Some(leaf), taken.arrow, &at)?;
        Ok(handling_of(self.mind.effects.commands.as_slice()))
    }

    /// The steps of the chain of a message, which isn't handled by this; none where no transition takes it.
    pub(crate) fn steps(
        &mut self,
        alloc: Global,
        tables: &Tables,
        msg: &Msg,
    ) -> Result<Vec<Passed>, AllocError>
        requires sound { IsSound tables.now }
        requires size { length self.old.mind.past.items ≡ length tables.now.states.items }
        ensures { OnOk result (length self.new.mind.past.items ≡ length tables.now.states.items) }
    {
        let at = self.moment_of(alloc, msg)?;
        let leaf = self.leaf;
        let enabled = self.mind.enabled(tables, leaf, event_of(msg), &at)?;
        self.mind.effects = Effects::new(alloc);
        match enabled {
            Some(taken) => steps_of(alloc, tables, &self.mind, leaf, taken, &at),
            None => Ok(Vec::new(alloc)),
        }
    }

    /// Whether the guard of a trigger holds.
    fn holds(&self, alloc: Global, trigger: &Trigger, at: &Moment) -> Result<bool, AllocError> {
        let mut told = Effects::new(alloc);
        match &trigger.guard {
            Some(guard) => test(guard, &self.mind.vars, at, &mut told),
            None => Ok(true),
        }
    }

    /// Adds for each transition that has the event of a message whether it would be taken.
    fn add_tries(
        &self,
        alloc: Global,
        arrows: &[Arrow],
        msg: &Msg,
        tries: &mut Vec<bool>,
    ) -> Result<(), AllocError> {
        let at = self.moment_of(alloc, msg)?;
        for arrow in arrows {
            let mut is_tried = false;
            let mut is_taken = false;
            for trigger in arrow.triggers.as_slice() {
                if has(trigger, event_of(msg)) {
                    is_tried = true;
                    is_taken = is_taken || self.holds(alloc, trigger, &at)?;
                }
            }
            if is_tried {
                tries.push(is_taken)?;
            }
        }
        Ok(())
    }

    /// For each transition that is tried for a message whether it would be taken, in the order in which they are.
    pub(crate) fn tries(
        &self,
        alloc: Global,
        tables: &Tables,
        msg: &Msg,
    ) -> Result<Vec<bool>, AllocError> {
        let mut tries = Vec::new(alloc);
        for state in tables.up(self.leaf) {
            self.add_tries(alloc, tables.own(*state), msg, &mut tries)?;
            self.add_tries(alloc, tables.shared(*state), msg, &mut tries)?;
        }
        Ok(tries)
    }
}
