//! A walk over lines that move virtual time on, part by part.
ghost use Rattle.std.specs.Prelude.{◌≡◌, ◌+◌, ◌≤◌, ◌<◌, [], replicate, length, slice_get, Some, None, IfOk, OnOk};
ghost use Rattle.model_run.specs.part_source.Calls.{seen};
ghost use Rattle.timed_runs.specs.Walks.{Walks, Begins};
ghost use Rattle.timed_runs.specs.Steps.{Steps, GoesOn, Passes, Advances, Takes};
ghost use Rattle.timed_runs.specs.Shown.{shown};

use crate::lines::{copies_of, lines_behind, messages_in_front, settle};
use crate::unseen::see_all;
use controller::{Controller, Environment};
use inject_reader::inject_lines::{Line, What};
use room_timer::TimerTable;
use room_wiring::Wiring;
use std::alloc::{AllocError, Global};

/// The latest time that there is.
const LATEST: u64 = 4611686018427387904;

/// The time by so much after another one. Times that are used up are want of memory: so many lines no
/// text has.
fn later_by(time: u64, by: u64) -> Result<u64, AllocError>
    requires { time ≤ 4611686018427387904 }
    ensures sum { IfOk result (λ until. until ≡ time + by) }
    ensures bound { IfOk result (λ until. until ≤ 4611686018427387904) }
{
    if by <= LATEST - time {
        Ok(time + by)
    } else {
        Err(AllocError)
    }
}

/// Of no party an entry was seen.
fn none_seen(alloc: Global, wiring: &Wiring) -> Result<Vec<usize>, AllocError>
    ensures { IfOk result (λ counts. counts.items ≡ replicate (length wiring.now.controllers + 1) 0) }
{
    vec![in alloc; 0usize; usize::from(wiring.controller_count()) + 1]
}

/// Where a walk over lines stands.
#[derive(Drop)]
pub(crate) struct Walk<'l> {
    pub(crate) wiring: &'l Wiring,
    pub(crate) lines: &'l [Line],
    /// How many of the lines were passed.
    pub(crate) to: usize,
    /// How much is left of the `advance` in which it stands.
    pub(crate) left: Option<u64>,
    pub(crate) timers: TimerTable,
    /// How many entries of each party the timers have seen.
    pub(crate) seen: Vec<usize>,
    /// The lines that were given before the part.
    pub(crate) gone: Vec<Line>,
    pub(crate) part: Vec<Line>,
}

impl<'l> Walk<'l> {
    /// At the first part: the messages in front.
    pub(crate) fn new(
        alloc: Global,
        wiring: &'l Wiring,
        lines: &'l [Line],
    ) -> Result<Walk<'l>, AllocError>
        ensures { IfOk result (λ w. Begins wiring.now lines.now (shown w)) }
    {
        let to = messages_in_front(lines);
        let (messages, _) = lines.split_at(to);
        let part = copies_of(alloc, messages)?;
        let seen = none_seen(alloc, wiring)?;
        Ok(Walk {
            wiring,
            lines,
            to,
            left: None,
            timers: TimerTable::new(alloc),
            seen,
            gone: Vec::new(alloc),
            part,
        })
    }

    /// Passes a line, for which a `settle` of this number stands.
    fn pass(&mut self, number: u32) -> Result<(), AllocError>
        requires { self.old.to < length self.old.lines.now }
        ensures { OnOk result (Passes number self.old.timers (shown self.old) (shown self.new)) }
    {
        self.gone.push(settle(number))?;
        self.left = None;
        self.to += 1;
        Ok(())
    }

    /// An `advance` of this number goes on by so much: to its next moment, or it is passed. It answers
    /// whether it comes to a moment.
    #[tactic(auto, using(crate::proofs::Moments::moment_by))]
    fn advance(&mut self, alloc: Global, number: u32, time: u64) -> Result<bool, AllocError>
        requires { self.old.to < length self.old.lines.now }
        ensures { IfOk result (λ begun. Advances number time (shown self.old) (shown self.new) begun) }
    {
        let until = later_by(self.timers.time(), time)?;
        match self.timers.next(alloc, number, until)? {
            Some(moment) => {
                self.gone.push(settle(number))?;
                self.part = moment;
                self.left = Some(until - self.timers.time());
                Ok(true)
            }
            None => {
                self.pass(number)?;
                Ok(false)
            }
        }
    }

    /// The messages in front become its part.
    fn take_messages(&mut self, alloc: Global) -> Result<(), AllocError>
        ensures { OnOk result (Takes (shown self.old) (shown self.new)) }
    {
        let behind = lines_behind(self.lines, self.to);
        let (messages, _) = behind.split_at(messages_in_front(behind));
        self.part = copies_of(alloc, messages)?;
        self.to += messages.len();
        Ok(())
    }

    /// Passes this line, at which it stands, or comes to the part that begins at it.
    fn pass_line(&mut self, alloc: Global, line: &Line) -> Result<bool, AllocError>
        requires here { slice_get self.old.lines.now self.old.to ≡ Some line.now }
        requires empty { self.old.part.items ≡ [] }
        requires fresh { self.old.left ≡ None }
        ensures { IfOk result (λ begun. Steps (shown self.old) (shown self.new) begun) }
    {
        match &line.what {
            What::Settle => {
                self.pass(line.number)?;
                Ok(false)
            }
            What::Advance(time) => self.advance(alloc, line.number, u64::from(*time)),
            What::Message { .. } => {
                self.take_messages(alloc)?;
                Ok(true)
            }
        }
    }

    /// Passes the line at which it stands, or comes to a part. It answers whether it came to a part.
    fn step(&mut self, alloc: Global) -> Result<bool, AllocError>
        requires within { self.old.to < length self.old.lines.now }
        requires empty { self.old.part.items ≡ [] }
        ensures { IfOk result (λ begun. Steps (shown self.old) (shown self.new) begun) }
    {
        let lines = self.lines;
        let line = &lines[self.to];
        match self.left {
            Some(time) => self.advance(alloc, line.number, time),
            None => self.pass_line(alloc, line),
        }
    }

    /// Passes lines until it comes to a part. False where none is left.
    fn go_on(&mut self, alloc: Global) -> Result<bool, AllocError>
        requires { self.old.part.items ≡ [] }
        ensures { IfOk result (λ more. GoesOn (shown self.old) (shown self.new) more) }
    {
        while self.to < self.lines.len() {
            if self.step(alloc)? {
                return Ok(true);
            }
        }
        self.left = None;
        Ok(false)
    }

    /// Goes to the next part, once the timers have seen what the controllers and the environment did. False
    /// where no part is left.
    pub(crate) fn next(
        &mut self,
        alloc: Global,
        controllers: &[Controller],
        environment: &Environment,
    ) -> Result<bool, AllocError>
        ensures { IfOk result (λ more.
            Walks self.old.wiring.now (shown self.old)
            (seen controllers.now environment.now) (shown self.new) more) }
    {
        see_all(
            self.wiring,
            controllers,
            environment,
            &mut self.seen,
            &mut self.timers,
        )?;
        self.gone.append(&mut self.part)?;
        self.go_on(alloc)
    }
}
