//! The timers that are armed, with the turn of each place.
ghost use Rattle.std.specs.Prelude.{◌≡◌, ◌≤◌, ◌++◌, ◌∷◌, [], Some, None, OnOk, OnErr, IfOk, MatchOption, map, filter, not, slice_get};
ghost use Rattle.std.specs.Map.{values_of};
ghost use Rattle.room_timer.specs.Timers.{disarmed, outlives, earliest, due_by, is_due, timeout_line};
ghost use Rattle.room_timer.specs.Turns.{taken};

use crate::due_queue::DueQueue;
use crate::place::{Place, keep_turns, key_of};
use crate::timer::Timer;
use inject_reader::Line;
use room_kinds::{Endpoint, Note};
use std::alloc::{AllocError, Global};
use std::collections::BTreeMap;
use std::marker::Model;

/// Timers by their turns, and the turn of each place. No turn comes twice.
#[derive(Drop)]
pub(crate) struct ArmedTimers {
    queue: DueQueue,
    turns: BTreeMap<Place, u64>,
    next: u64,
}

impl Model for ArmedTimers {
    ghost use Rattle.std.specs.Prelude.{ℕ, List};
    ghost use Rattle.std.specs.BTreeMap.{get};
    ghost use Rattle.room_timer.specs.declared.timer.Timer.{Timer};
    ghost use Rattle.room_timer.specs.Turns.{IsPlaced, key_of, place_cmp};

    ghost Value = { List (ℕ × Timer) };

    ghost view = { λ t. t.queue };

    ghost invariant = { λ t. IsPlaced t.next t.queue (λ at. get place_cmp t.turns (key_of at)) };
}

impl ArmedTimers {
    /// No timers. It takes no memory.
    pub(crate) fn new(alloc: Global) -> ArmedTimers
        ensures { result ≡ [] }
    {
        ArmedTimers {
            queue: DueQueue::new(alloc),
            turns: BTreeMap::new(alloc),
            next: 0,
        }
    }

    /// The timer of a turn goes, if there is one.
    fn take(&mut self, turn: u64)
        ensures { self.new ≡ taken turn self.old }
    {
        if let Some(timer) = self.queue.take(turn) {
            self.turns.remove(&key_of(timer.at));
        }
    }

    /// The timer of a place goes, if it is armed.
    pub(crate) fn disarm(&mut self, at: Endpoint)
        ensures { values_of self.new ≡ disarmed at (values_of self.old) }
    {
        if let Some(turn) = self.turns.get(&key_of(at)).copied() {
            self.take(turn);
        }
    }

    /// A timer is armed, in place of the one that was armed at its place. After a refusal, which
    /// comes too where the turns are used up, nothing has changed.
    pub(crate) fn arm(&mut self, timer: Timer) -> Result<(), AllocError>
        ensures ok { OnOk result (values_of self.new
            ≡ disarmed timer.at (values_of self.old) ++ timer ∷ []) }
        ensures err { OnErr result (self.new ≡ self.old) }
    {
        let turn = self.next;
        if turn == u64::MAX {
            return Err(AllocError);
        }
        self.queue.push(turn, timer)?;
        match self.turns.insert(key_of(timer.at), turn) {
            Ok(Some(old)) => {
                self.queue.take(old);
                self.next = turn + 1;
                Ok(())
            }
            Ok(None) => {
                self.next = turn + 1;
                Ok(())
            }
            Err(_) => {
                self.queue.take(turn);
                Err(AllocError)
            }
        }
    }

    /// Timers end with their actors.
    pub(crate) fn keep_outliving(&mut self, notes: &[Note])
        ensures { values_of self.new ≡ filter (outlives notes.now) (values_of self.old) }
    {
        self.queue.keep_outliving(notes);
        keep_turns(&mut self.turns, notes);
    }

    /// The least time at which a timer is due, if it is this one or earlier.
    pub(crate) fn next_due(&self, until: u64) -> Option<u64>
        ensures { MatchOption result (due_by until (values_of self.now) ≡ None)
            (λ time. (due_by until (values_of self.now) ≡ Some time) × (time ≤ until)) }
    {
        match self.queue.first(until) {
            Some(key) => Some(key.due),
            None => None,
        }
    }

    /// The timer that was armed first.
    pub(crate) fn first(&self) -> Option<Timer>
        ensures { result ≡ slice_get (values_of self.now) 0 }
    {
        self.queue.first_armed()
    }

    /// The timeouts of those that are due at a time, in order of arming, as lines under a number.
    pub(crate) fn lines_at(
        &self,
        alloc: Global,
        number: u32,
        time: u64,
    ) -> Result<Vec<Line>, AllocError>
        ensures { IfOk result (λ ls. ls.items
            ≡ map (timeout_line number) (filter (is_due time) (values_of self.now))) }
    {
        self.queue.lines_at(alloc, number, time)
    }

    /// The timers that are due at a time, the least at which one is due, go.
    pub(crate) fn expire(&mut self, time: u64)
        requires { earliest (values_of self.old) ≡ Some time }
        ensures { values_of self.new ≡ filter (λ x. not (is_due time x)) (values_of self.old) }
    {
        while let Some(key) = self.queue.first(time) {
            self.take(key.turn);
        }
    }
}
