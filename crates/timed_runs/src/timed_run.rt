//! A run over lines that move virtual time on.
ghost use Rattle.std.specs.Prelude.{◌≡◌, ◌≤◌, true, IfOk};
ghost use Rattle.std.specs.List.{AllByRecursion};
ghost use Rattle.inject_reader.specs.Fitting.{LinesFit};
ghost use Rattle.model_run.specs.run_ends.Runs.{IsRun};
ghost use Rattle.room_timer.specs.Laws.{IsPlain};
ghost use Rattle.timed_runs.specs.Timed.{IsTimedRun, NoneIsDue};

use crate::timed_lines::TimedLines;
use controller::Plant;
use inject_reader::inject_lines::Line;
use journal::Journals;
use mail_core::{Mail, MailLocal};
use model_run::{run_parts, run_parts_in_order};
use room_outside::Gate;
use std::alloc::{AllocError, Global};
use std::thread::Threads;

/// The run of a plant over the lines of an injection text, which may move virtual time on, on as many
/// threads as there are controllers, each with so much fuel: the journals of all controllers and of the
/// environment, and what was left. Where the run is done, no armed timer is due. Lines that don't move
/// the time on give what `run_model` gives over them.
pub fn run_timed<M: Mail<Office = ()> + Send + Drop, G: Gate + Sync, R: Threads + Sync>(
    rt: &R,
    alloc: Global,
    plant: &Plant,
    lines: &[Line],
    fuel: u64,
    gate: &G,
) -> Result<Journals, AllocError>
    requires least { 1 ≤ fuel }
    requires most { fuel ≤ 100000 }
    requires fits { LinesFit plant.now.wiring lines.now }
    ensures timed { IfOk result (λ j. IsTimedRun plant.now lines.now fuel j) }
    ensures later { IfOk result (λ j. j.done ≡ true → NoneIsDue plant.now.wiring lines.now j) }
    ensures plain { IfOk result (λ j. AllByRecursion IsPlain lines.now
        → IsRun plant.now lines.now fuel j) }
{
    let mut source = TimedLines::new(alloc, &plant.wiring, lines)?;
    run_parts::<M, G, R, TimedLines>(rt, alloc, plant, &mut source, fuel, gate)
}

/// The same on the calling thread, one controller after another, over the mail of one thread.
pub fn run_timed_local(
    alloc: Global,
    plant: &Plant,
    lines: &[Line],
    fuel: u64,
) -> Result<Journals, AllocError>
    requires least { 1 ≤ fuel }
    requires most { fuel ≤ 100000 }
    requires fits { LinesFit plant.now.wiring lines.now }
    ensures timed { IfOk result (λ j. IsTimedRun plant.now lines.now fuel j) }
    ensures later { IfOk result (λ j. j.done ≡ true → NoneIsDue plant.now.wiring lines.now j) }
    ensures plain { IfOk result (λ j. AllByRecursion IsPlain lines.now
        → IsRun plant.now lines.now fuel j) }
{
    let mut source = TimedLines::new(alloc, &plant.wiring, lines)?;
    run_parts_in_order::<MailLocal, TimedLines>(alloc, plant, &mut source, fuel)
}
