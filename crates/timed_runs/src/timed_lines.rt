//! Lines that move virtual time on, as a source of parts.
ghost use Rattle.std.specs.Prelude.{◌≡◌, false, drop};
ghost use Rattle.std.specs.List.{prefix_len};
ghost use Rattle.model_run.specs.fixed_lines.Fixed.{message_line};

use crate::lines::lines_behind;
use crate::walk::Walk;
use controller::{Controller, Environment};
use inject_reader::inject_lines::Line;
use model_run::PartSource;
use room_wiring::Wiring;
use std::alloc::{AllocError, Global};

/// The lines of an injection text, with the timeouts of the timers that are armed meanwhile. A part is
/// a moment at which timers are due, or the messages up to a line that is none.
///
/// After a refusal it gives no other answer when it is asked for the next part.
#[derive(Drop)]
pub struct TimedLines<'l> {
    walk: Walk<'l>,
    failed: bool,
    ghost ends: { failed ≡ false → prefix_len message_line (drop walk.to walk.lines.now) ≡ 0 },
}

impl<'l> TimedLines<'l> {
    ghost use Rattle.std.specs.Prelude.{IfOk};
    ghost use Rattle.timed_runs.specs.Walks.{Begins};
    ghost use Rattle.timed_runs.specs.Shown.{shown};

    /// These lines, at their first part, with no timers.
    pub fn new(
        alloc: Global,
        wiring: &'l Wiring,
        lines: &'l [Line],
    ) -> Result<TimedLines<'l>, AllocError>
        ensures { IfOk result (λ source. Begins wiring.now lines.now (shown source.walk)) }
    {
        let walk = Walk::new(alloc, wiring, lines)?;
        Ok(TimedLines {
            walk,
            failed: false,
        })
    }
}

impl<'l> PartSource for TimedLines<'l> {
    ghost use Rattle.std.specs.Prelude.{map};
    ghost use Rattle.inject_reader.specs.declared.inject_lines.accepted.Line.{Line as Accepted};
    ghost use Rattle.timed_runs.specs.Walks.{given_by, Fits, Goes};
    ghost use Rattle.timed_runs.specs.Shown.{shown};

    ghost given = { λ s. given_by (shown s.walk) };

    ghost stands_at = { λ s. s.walk.part.items };

    ghost left = { λ s. map (λ (l : Accepted). l.number) (drop s.walk.to s.walk.lines.now) };

    ghost fits = { λ wiring s. Fits wiring (shown s.walk) };

    ghost part_fits = { λ wiring s fit. fit.part };

    ghost goes_on = { λ old journals new. Goes (shown old.walk) journals (shown new.walk) };

    fn part(&self) -> &[Line] {
        self.walk.part.as_slice()
    }

    fn next_part(
        &mut self,
        alloc: Global,
        controllers: &[Controller],
        environment: &Environment,
    ) -> Result<bool, AllocError> {
        if self.failed {
            return Err(AllocError);
        }
        self.failed = true;
        let more = self.walk.next(alloc, controllers, environment)?;
        self.failed = false;
        Ok(more)
    }

    fn numbers_left(&self, alloc: Global) -> Result<Vec<u32>, AllocError> {
        let behind = lines_behind(self.walk.lines, self.walk.to);
        behind.iter().map(|line| line.number).collect(alloc)
    }
}
