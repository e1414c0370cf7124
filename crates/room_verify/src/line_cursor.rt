//! The environment of a replay.
ghost use Rattle.std.specs.Prelude.{◌≡◌, ◌+◌, ◌<◌, ◌≤◌, ◌^◌, length, position, IfOk, IfSome, OnOk, OnErr};
ghost use Rattle.journal.specs.declared.entry.Entry.TheVariants as entry;
ghost use Rattle.actor_merge.specs.Parties.{stamped};
ghost use Rattle.actor_merge.specs.World.{latest};
ghost use Rattle.controller_actors.specs.declared.plant.Plant.{Plant as AnyPlant};
ghost use Rattle.model_run.specs.fixed_lines.Fixed.{message_line};
ghost use Rattle.room_verify.specs.States.{controllers_in};

use controller::ControllerState;
use controller_mail::Posted;
use inject_reader::inject_lines::{Line, What};
use journal::Entry;
use room_kinds::{ControllerId, Msg, Stamp};
use std::alloc::{AllocError, Global};

/// The environment of a replay: its clock, how many messages it has posted, and how many lines stand before the one
/// at which it stands. It keeps no message.
#[derive(Drop)]
pub struct LineCursor {
    pub(crate) clock: u64,
    pub(crate) posted: u64,
    pub(crate) at: usize,
}

/// One more. A number that passes 64 bits is want of memory.
fn one_more(number: u64) -> Result<u64, AllocError>
    ensures ok { IfOk result (λ next. next ≡ number + 1) }
    ensures err { OnErr result (2 ^ 64 ≤ number + 1) }
{
    match number.checked_add(1) {
        Some(next) => Ok(next),
        None => Err(AllocError),
    }
}

/// A message as party `me` posts it at this time.
fn stamped(m: Msg, me: ControllerId, time: u64) -> Msg
    ensures { result ≡ stamped me.0 time m }
{
    Msg {
        from: me,
        stamp: Stamp(time),
        to: m.to,
        prio: m.prio,
        source: m.source,
        target: m.target,
        signal: m.signal,
        payload: m.payload,
    }
}

/// Whether a line asks for a message.
pub(crate) fn is_message(line: &Line) -> bool
    ensures { result ≡ message_line line.now }
{
    match &line.what {
        What::Settle | What::Advance(_) => false,
        What::Message { .. } => true,
    }
}

/// How many lines stand before the first that asks for a message, if one does.
pub(crate) fn first_message(lines: &[Line]) -> Option<usize>
    ensures place { result ≡ position message_line lines.now }
    ensures bound { IfSome result (λ i. i < length lines.now) }
{
    lines.iter().position(|line| is_message(line))
}

impl LineCursor {
    /// Nothing is posted, and the clock is 0.
    pub(crate) fn new() -> LineCursor
        ensures { result ≡ record { clock = 0; posted = 0; at = 0 } }
    {
        LineCursor {
            clock: 0,
            posted: 0,
            at: 0,
        }
    }

    /// The clock becomes the greatest of these controllers' clocks and its own.
    pub(crate) fn catch_up(&mut self, all: &[ControllerState])
        ensures { (plant : AnyPlant)
            → self.new ≡ record self.old
            { clock = latest (controllers_in plant all.now) (length all.now) self.old.clock } }
    {
        for c in 0..all.len() {
            self.clock = all[c].mail().clock().max(self.clock);
        }
    }

    /// Posts a message as party `me`, the environment's number, and then stands behind so many lines. After want of
    /// memory nothing has changed.
    pub(crate) fn post(
        &mut self,
        alloc: Global,
        me: ControllerId,
        m: Msg,
        behind: usize,
    ) -> Result<Posted, AllocError>
        ensures message { IfOk result (λ p.
            p.message ≡ stamped me.0 (self.old.clock + 1) m) }
        ensures entry { IfOk result (λ p. p.entry ≡ entry.Post p.message.stamp p.message) }
        ensures ok { OnOk result (self.new
            ≡ record { clock = self.old.clock + 1; posted = self.old.posted + 1; at = behind }) }
        ensures err { OnErr result (self.new ≡ self.old) }
    {
        let stamp = one_more(self.clock)?;
        let posted = one_more(self.posted)?;
        let message = stamped(m, me, stamp);
        let msg = message.copy(alloc)?;
        *self = LineCursor {
            clock: stamp,
            posted,
            at: behind,
        };
        Ok(Posted {
            message,
            entry: Entry::Post {
                stamp: Stamp(stamp),
                msg,
            },
        })
    }
}
