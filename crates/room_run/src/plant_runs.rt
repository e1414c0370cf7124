//! The run of a plant that fits.
ghost use Rattle.std.specs.Prelude.{◌≤◌, IfOk};
ghost use Rattle.inject_reader.specs.Fitting.{LinesFit};
ghost use Rattle.room_run.specs.Finished.{HasRun};
ghost use Rattle.room_run.specs.fitting_plants.Plants.{PlantFits};

use controller::Plant;
use inject_reader::inject_lines::Line;
use journal::Journals;
use journal_reader::look_through;
use mail_lanes::MailLanes;
use room_outside::Gate;
use std::alloc::{AllocError, Global};
use std::thread::Threads;
use timed_runs::run_timed;

/// The run of a plant over lines, which may move virtual time on: all controllers at once, with a deque for
/// each sender and receiver.
pub(crate) fn run_over<G: Gate + Sync, R: Threads + Sync>(
    rt: &R,
    alloc: Global,
    plant: &Plant,
    lines: &[Line],
    fuel: u64,
    gate: &G,
) -> Result<Journals, AllocError>
    requires least { 1 ≤ fuel }
    requires most { fuel ≤ 100000 }
    requires plant_fits { PlantFits plant.now }
    requires lines_fit { LinesFit plant.now.wiring lines.now }
    ensures { IfOk result (λ j. HasRun plant.now lines.now fuel j) }
{
    let journals = run_timed::<MailLanes, G, R>(rt, alloc, plant, lines, fuel, gate)?;
    // So that the text of these journals is known to tell them.
    look_through(&journals);
    Ok(journals)
}
