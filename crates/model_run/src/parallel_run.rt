//! A run of all controllers at once, each on a thread of its own.
//!
//! A run goes in rounds: the workers of the controllers, a joined step in which all mail is fetched and each
//! controller takes a turn, and so on until all is quiet or spent; then the environment posts the lines of
//! the next part. The rounds are this project's own.
ghost use Rattle.std.specs.Prelude.{◌≡◌, ◌≤◌, IfOk};
ghost use Rattle.inject_reader.specs.Fitting.{LinesFit};
ghost use Rattle.model_run.specs.part_source.Calls.{seen_in, StoodQuiet, Asked};
ghost use Rattle.model_run.specs.part_source.Parts.{IsPart};
ghost use Rattle.model_run.specs.run_ends.Runs.{IsRun, RanThrough};

use crate::fixed_lines::FixedLines;
use crate::joined_round::round_at_once;
use crate::part_source::PartSource;
use crate::run_loop::{Run, next_round};
use controller::Plant;
use inject_reader::inject_lines::Line;
use journal::Journals;
use mail_core::Mail;
use room_outside::Gate;
use std::alloc::{AllocError, Global};
use std::thread::Threads;

/// The run of a plant over the lines of an injection text, on as many threads as there are controllers, each
/// with so much fuel: the journals of all controllers and of the environment, and what was left. Before each
/// turn that it takes while the others work a controller enters the gate. A worker that finds no memory makes
/// the run answer it.
pub fn run_model<M: Mail<Office = ()> + Send + Drop, G: Gate + Sync, R: Threads + Sync>(
    rt: &R,
    alloc: Global,
    plant: &Plant,
    lines: &[Line],
    fuel: u64,
    gate: &G,
) -> Result<Journals, AllocError>
    requires least { 1 ≤ fuel }
    requires most { fuel ≤ 100000 }
    requires fits { LinesFit plant.now.wiring lines.now }
    ensures { IfOk result (λ j. IsRun plant.now lines.now fuel j) }
{
    let mut source = FixedLines::new(lines);
    run_parts::<M, G, R, FixedLines>(rt, alloc, plant, &mut source, fuel, gate)
}

/// The same over lines that come part by part: the source, which stands at its first part, is asked for the next
/// one when all is quiet.
pub fn run_parts<
    M: Mail<Office = ()> + Send + Drop,
    G: Gate + Sync,
    R: Threads + Sync,
    S: PartSource,
>(
    rt: &R,
    alloc: Global,
    plant: &Plant,
    source: &mut S,
    fuel: u64,
    gate: &G,
) -> Result<Journals, AllocError>
    requires least { 1 ≤ fuel }
    requires most { fuel ≤ 100000 }
    requires first { S.given source.old ≡ S.stands_at source.old }
    requires part { IsPart (S.stands_at source.old) }
    requires fits { S.fits plant.now.wiring source.old }
    ensures ran { IfOk result (λ j.
        RanThrough plant.now (S.given source.new) (S.left source.new) fuel j) }
    ensures asked { IfOk result (λ j. Asked S.goes_on
        (λ s journals. StoodQuiet plant.now (S.given s) fuel journals) source.old source.new (seen_in j)) }
{
    let mut run = Run::start(alloc, plant, fuel)?;
    while let Some((_office, ends)) = next_round::<M, S>(alloc, plant, &mut run, source, fuel)? {
        round_at_once(rt, alloc, &mut run.controllers, plant, ends, gate)?;
    }
    run.journals(alloc, plant, source, fuel)
}
