//! The timers by their turns of arming, and in the order in which they expire.
ghost use Rattle.std.specs.Prelude.{◌≡◌, ℕ, ◌≤◌, ◌<◌, ◌==◌, cond, ◌++◌, ◌∷◌, [], None, Some, OnOk, OnErr, IfOk, MatchOption, map, filter, not, slice_get};
ghost use Rattle.std.specs.List.{AllByRecursion, list_any};
ghost use Rattle.std.specs.Map.{values_of, keys_of};
ghost use Rattle.std.specs.List.Sorted.{IsStrictlySortedBy};
ghost use Rattle.std.specs.Ordering.{nat_cmp};
ghost use Rattle.room_timer.specs.Timers.{is_down, outlives, due_by, is_due, timeout_line};
ghost use Rattle.room_timer.specs.Turns.{IsInOrder, IsDueTurn, timer_of, taken, run_at};

use crate::due_turn::DueTurn;
use crate::ends::{outlives, went_down};
use crate::timeouts::timeout_line;
use crate::timer::Timer;
use inject_reader::Line;
use room_kinds::{Endpoint, Note};
use std::alloc::{AllocError, Global};
use std::collections::BTreeMap;
use std::marker::Model;

/// When each turn's timer is due, with its place, in the order in which they expire.
type Dues = BTreeMap<DueTurn, Endpoint>;

/// Timers by their turns of arming.
#[derive(Drop)]
pub(crate) struct DueQueue {
    timers: BTreeMap<u64, Timer>,
    dues: Dues,
}

impl Model for DueQueue {
    ghost use Rattle.std.specs.Prelude.{ℕ, List};
    ghost use Rattle.std.specs.List.Sorted.{IsStrictlySortedBy};
    ghost use Rattle.std.specs.Map.{keys_of};
    ghost use Rattle.std.specs.Ordering.{nat_cmp};
    ghost use Rattle.room_timer.specs.declared.timer.Timer.{Timer};
    ghost use Rattle.room_timer.specs.Turns.{IsInOrder};

    ghost Value = { List (ℕ × Timer) };

    ghost view = { λ q. q.timers.entries };

    ghost invariant = { λ q. IsInOrder q.dues.entries q.timers.entries
        × IsStrictlySortedBy nat_cmp (keys_of q.timers.entries) };
}

/// A timer comes behind those that are due when it is.
fn add_due(dues: &mut Dues, turn: u64, timer: Timer) -> Result<(), AllocError>
    requires { AllByRecursion (λ p. p.0 < turn) (run_at timer.due dues.old.entries) }
    ensures ok { OnOk result ((time : ℕ) → run_at time dues.new.entries
        ≡ cond (timer.due == time)
        (run_at time dues.old.entries ++ (turn, timer.at) ∷ [])
        (run_at time dues.old.entries)) }
    ensures err { OnErr result (dues.new.entries ≡ dues.old.entries) }
{
    let due = timer.due;
    dues.insert(DueTurn { due, turn }, timer.at)?;
    Ok(())
}

/// The timer of a turn goes.
fn drop_due(dues: &mut Dues, due: u64, turn: u64)
    ensures { (time : ℕ) → run_at time dues.new.entries
        ≡ cond (due == time)
        (taken turn (run_at time dues.old.entries))
        (run_at time dues.old.entries) }
{
    dues.remove(&DueTurn { due, turn });
}

/// Timers end with their actors.
fn keep_timers(timers: &mut BTreeMap<u64, Timer>, notes: &[Note])
    ensures kept { timers.new.entries
        ≡ filter (λ e. outlives notes.now e.1) timers.old.entries }
    ensures ordered { IsStrictlySortedBy nat_cmp (keys_of timers.new.entries) }
{
    timers.retain(|_turn, timer| outlives(notes, timer));
}

/// They don't expire any more.
fn keep_dues(dues: &mut Dues, notes: &[Note])
    ensures { dues.new.entries
        ≡ filter (λ e. not (list_any (is_down e.1) notes.now)) dues.old.entries }
{
    dues.retain(|_key, at| !went_down(notes, *at));
}

impl DueQueue {
    /// No timers. It takes no memory.
    pub(crate) fn new(alloc: Global) -> DueQueue
        ensures { result ≡ [] }
    {
        DueQueue {
            timers: BTreeMap::new(alloc),
            dues: BTreeMap::new(alloc),
        }
    }

    /// A timer comes behind all others. After a refusal nothing has changed.
    pub(crate) fn push(&mut self, turn: u64, timer: Timer) -> Result<(), AllocError>
        requires { AllByRecursion (λ e. e.0 < turn) self.old }
        ensures ok { OnOk result (self.new ≡ self.old ++ (turn, timer) ∷ []) }
        ensures err { OnErr result (self.new ≡ self.old) }
        ensures ordered { IsStrictlySortedBy nat_cmp (keys_of self.old) }
    {
        add_due(&mut self.dues, turn, timer)?;
        match self.timers.insert(turn, timer) {
            Ok(_) => Ok(()),
            Err(_) => {
                drop_due(&mut self.dues, timer.due, turn);
                Err(AllocError)
            }
        }
    }

    /// The timer of a turn goes, if there is one.
    pub(crate) fn take(&mut self, turn: u64) -> Option<Timer>
        ensures timer { result ≡ timer_of turn self.old }
        ensures taken { self.new ≡ taken turn self.old }
        ensures ordered { IsStrictlySortedBy nat_cmp (keys_of self.old) }
    {
        let timer = self.timers.remove(&turn)?;
        drop_due(&mut self.dues, timer.due, turn);
        Some(timer)
    }

    /// Timers end with their actors.
    pub(crate) fn keep_outliving(&mut self, notes: &[Note])
        ensures kept { self.new ≡ filter (λ e. outlives notes.now e.1) self.old }
        ensures ordered { IsStrictlySortedBy nat_cmp (keys_of self.old) }
    {
        keep_timers(&mut self.timers, notes);
        keep_dues(&mut self.dues, notes);
    }

    /// Which timer expires first, if it is due by this time.
    pub(crate) fn first(&self, until: u64) -> Option<DueTurn>
        ensures { MatchOption result (due_by until (values_of self.now) ≡ None)
            (λ k. (due_by until (values_of self.now) ≡ Some k.due)
            × (k.due ≤ until)
            × IsDueTurn self.now k.due k.turn) }
    {
        let Some((key, _)) = self.dues.first_key_value() else {
            return None;
        };
        if until < key.due { None } else { Some(*key) }
    }

    /// The timeouts of those that are due at a time, in order of arming, as lines under a number.
    pub(crate) fn lines_at(
        &self,
        alloc: Global,
        number: u32,
        time: u64,
    ) -> Result<Vec<Line>, AllocError>
        ensures { IfOk result (λ ls. ls.items
            ≡ map (timeout_line number) (filter (is_due time) (values_of self.now))) }
    {
        let mut lines = Vec::new(alloc);
        for (key, at) in &self.dues {
            if time < key.due {
                return Ok(lines);
            }
            if key.due == time {
                lines.push(timeout_line(alloc, number, Timer { at: *at, due: time }))?;
            }
        }
        Ok(lines)
    }

    /// The timer that was armed first.
    pub(crate) fn first_armed(&self) -> Option<Timer>
        ensures { result ≡ slice_get (values_of self.now) 0 }
    {
        match self.timers.first_key_value() {
            Some((_, timer)) => Some(*timer),
            None => None,
        }
    }
}
