//! The virtual time, and the timers that are armed.
ghost use Rattle.std.specs.Prelude.{◌≡◌, ◌≤◌, map, filter, not, slice_get, Some, None, IfOk, OnOk, OnErr, MatchOption};
ghost use Rattle.room_timer.specs.Timers.{no_timers, delay_of, disarmed, armed_at, asked, sent_at, outlives, saw, due_by, is_due, moment};

use crate::armed::ArmedTimers;
use crate::services::{hears_timeout, is_timing};
use crate::timer::Timer;
use inject_reader::Line;
use journal::Entry;
use room_kinds::{ControllerId, Endpoint, Msg, Note};
use room_wiring::Wiring;
use std::alloc::{AllocError, Global};
use std::marker::Model;

/// The numbers of the signals that a timing service is sent.
const START_TIMER: u16 = 0;

const KILL_TIMER: u16 = 1;

/// The virtual time, and the timers that are armed, in order of arming. They are kept by their turns
/// of arming, by their places, and by the times at which they are due; so to arm one, to disarm one,
/// and each timeout take a few look-ups among the armed timers. A turn in which an actor went down
/// looks at all of them, and most entries that are seen at none.
#[derive(Drop)]
pub struct TimerTable {
    time: u64,
    armed: ArmedTimers,
}

impl Model for TimerTable {
    ghost use Rattle.std.specs.Prelude.{◌≤◌};
    ghost use Rattle.std.specs.Map.{values_of};
    ghost use Rattle.room_timer.specs.Timers.{Timers};

    ghost Value = { Timers };

    ghost view = { λ t. record { time = t.time; armed = values_of t.armed } };

    ghost invariant = { λ t. t.time ≤ 4611686018427387904 };
}

/// The time that a delay takes, 1 at least.
fn delay_of(delay: i64) -> u64
    ensures time { result ≡ delay_of delay }
    ensures bound { result ≤ 9223372036854775808 }
{
    if delay < 1 { 1 } else { delay.unsigned_abs() }
}

impl TimerTable {
    /// Time 0, with no timers. It takes no memory.
    pub fn new(alloc: Global) -> TimerTable
        ensures { result ≡ no_timers }
    {
        TimerTable {
            time: 0,
            armed: ArmedTimers::new(alloc),
        }
    }

    /// The virtual time.
    pub fn time(&self) -> u64
        ensures time { result ≡ self.now.time }
        ensures bound { result ≤ 4611686018427387904 }
    {
        self.time
    }

    /// The timer that was armed first of those that are armed, if any is.
    pub fn first_armed(&self) -> Option<Timer>
        ensures { result ≡ slice_get self.now.armed 0 }
    {
        self.armed.first()
    }

    /// Disarms the timer of a place, if it is armed.
    fn disarm(&mut self, at: Endpoint)
        ensures { self.new ≡ record self.old { armed = disarmed at self.old.armed } }
    {
        self.armed.disarm(at);
    }

    /// Arms the timer of a place, in place of the one that was armed there. After a refusal nothing
    /// has changed.
    fn arm(&mut self, at: Endpoint, delay: i64) -> Result<(), AllocError>
        ensures ok { OnOk result (self.new ≡ armed_at self.old at delay) }
        ensures err { OnErr result (self.new ≡ self.old) }
    {
        let due = self.time + delay_of(delay);
        self.armed.arm(Timer { at, due })
    }

    /// What a timing service is asked for by a place.
    fn ask(&mut self, at: Endpoint, signal: u16, numbers: &[i64]) -> Result<(), AllocError>
        ensures ok { OnOk result (self.new ≡ asked self.old at signal numbers.now) }
        ensures err { OnErr result (self.new ≡ self.old) }
    {
        if signal == START_TIMER {
            let delay = match numbers {
                [delay, ..] => *delay,
                [] => 0,
            };
            self.arm(at, delay)
        } else if signal == KILL_TIMER {
            self.disarm(at);
            Ok(())
        } else {
            Ok(())
        }
    }

    /// A controller sent a message.
    #[inline]
    fn see_sent(&mut self, wiring: &Wiring, msg: &Msg) -> Result<(), AllocError>
        ensures ok { OnOk result (self.new ≡ sent_at wiring.now self.old msg.now msg.now.source) }
        ensures err { OnErr result (self.new ≡ self.old) }
    {
        match msg.source {
            Some(at) => {
                if 0 < msg.prio.0 && is_timing(wiring, msg.target) && hears_timeout(wiring, at) {
                    self.ask(at, msg.signal, msg.payload.numbers())
                } else {
                    Ok(())
                }
            }
            None => Ok(()),
        }
    }

    /// Timers end with the actors that went down by these notes. Most turns have no notes.
    #[tactic(auto, using(crate::proofs::Lists::none_ends))]
    fn end_timers(&mut self, notes: &[Note])
        ensures { self.new ≡ record self.old {
          armed = filter (outlives notes.now) self.old.armed;
        } }
    {
        if !notes.is_empty() {
            self.armed.keep_outliving(notes);
        }
    }

    /// Sees an entry of a party. After a refusal nothing has changed.
    #[tactic(auto, unfolding(crate::specs::Timers::saw))]
    pub fn see(
        &mut self,
        wiring: &Wiring,
        party: ControllerId,
        entry: &Entry,
    ) -> Result<(), AllocError>
        ensures ok { OnOk result (self.new ≡ saw wiring.now self.old party.0 entry.now) }
        ensures err { OnErr result (self.new ≡ self.old) }
    {
        match entry {
            Entry::Start { .. } | Entry::Fetch { .. } => Ok(()),
            Entry::Turn { notes, .. } => {
                self.end_timers(notes.as_slice());
                Ok(())
            }
            Entry::Post { msg, .. } => {
                if party.0 < wiring.controller_count() {
                    self.see_sent(wiring, msg)
                } else {
                    Ok(())
                }
            }
        }
    }

    /// The time has come at which the next timers are due; they go.
    fn expire(&mut self, until: u64, time: u64)
        requires due { due_by until self.old.armed ≡ Some time }
        requires by { time ≤ until }
        requires bound { until ≤ 4611686018427387904 }
        ensures { self.new ≡ record {
          time = time;
          armed = filter (λ x. not (is_due time x)) self.old.armed;
        } }
    {
        self.armed.expire(time);
        self.time = time;
    }

    /// The timeouts of the next moment at which a timer is due, until this time, as lines under a
    /// number. These timers go, and their due time becomes the time. None, where no timer is due by
    /// then; the time has come. After a refusal nothing has changed.
    pub fn next(
        &mut self,
        alloc: Global,
        number: u32,
        until: u64,
    ) -> Result<Option<Vec<Line>>, AllocError>
        requires later { self.old.time ≤ until }
        requires bound { until ≤ 4611686018427387904 }
        ensures ok { IfOk result (λ o. MatchOption o
            ((moment number self.old until ≡ None) × (self.new ≡ record self.old { time = until }))
            (λ ls. moment number self.old until ≡ Some (ls.items, self.new))) }
        ensures err { OnErr result (self.new ≡ self.old) }
    {
        let Some(time) = self.armed.next_due(until) else {
            self.time = until;
            return Ok(None);
        };
        let lines = self.armed.lines_at(alloc, number, time)?;
        self.expire(until, time);
        Ok(Some(lines))
    }
}
