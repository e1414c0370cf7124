//! A run of all controllers on the calling thread, one after another.
ghost use Rattle.std.specs.Prelude.{◌≡◌, ◌≤◌, IfOk};
ghost use Rattle.inject_reader.specs.Fitting.{LinesFit};
ghost use Rattle.model_run.specs.part_source.Calls.{seen_in, StoodQuiet, Asked};
ghost use Rattle.model_run.specs.part_source.Parts.{IsPart};
ghost use Rattle.model_run.specs.run_ends.Runs.{IsRun, RanThrough};

use crate::fixed_lines::FixedLines;
use crate::joined_round::round_in_order;
use crate::part_source::PartSource;
use crate::run_loop::{Run, next_round};
use controller::Plant;
use inject_reader::inject_lines::Line;
use journal::Journals;
use mail_core::{Mail, MailLocal};
use std::alloc::{AllocError, Global};

/// The run of a plant over the lines of an injection text and over the mail of one thread, each controller with
/// so much fuel: the journals of all controllers and of the environment, and what was left.
pub fn run_local(
    alloc: Global,
    plant: &Plant,
    lines: &[Line],
    fuel: u64,
) -> Result<Journals, AllocError>
    requires least { 1 ≤ fuel }
    requires most { fuel ≤ 100000 }
    requires fits { LinesFit plant.now.wiring lines.now }
    ensures { IfOk result (λ j. IsRun plant.now lines.now fuel j) }
{
    run_in_order::<MailLocal>(alloc, plant, lines, fuel)
}

/// The same over any mail.
pub fn run_in_order<M: Mail + Drop>(
    alloc: Global,
    plant: &Plant,
    lines: &[Line],
    fuel: u64,
) -> Result<Journals, AllocError>
where
    M::Office: Drop,
    requires least { 1 ≤ fuel }
    requires most { fuel ≤ 100000 }
    requires fits { LinesFit plant.now.wiring lines.now }
    ensures { IfOk result (λ j. IsRun plant.now lines.now fuel j) }
{
    let mut source = FixedLines::new(lines);
    run_parts_in_order::<M, FixedLines>(alloc, plant, &mut source, fuel)
}

/// The same over lines that come part by part. The source stands at its first part.
pub fn run_parts_in_order<M: Mail + Drop, S: PartSource>(
    alloc: Global,
    plant: &Plant,
    source: &mut S,
    fuel: u64,
) -> Result<Journals, AllocError>
where
    M::Office: Drop,
    requires least { 1 ≤ fuel }
    requires most { fuel ≤ 100000 }
    requires first { S.given source.old ≡ S.stands_at source.old }
    requires part { IsPart (S.stands_at source.old) }
    requires fits { S.fits plant.now.wiring source.old }
    ensures ran { IfOk result (λ j.
        RanThrough plant.now (S.given source.new) (S.left source.new) fuel j) }
    ensures asked { IfOk result (λ j. Asked S.goes_on
        (λ s journals. StoodQuiet plant.now (S.given s) fuel journals) source.old source.new (seen_in j)) }
{
    let mut run = Run::start(alloc, plant, fuel)?;
    while let Some((office, ends)) = next_round::<M, S>(alloc, plant, &mut run, source, fuel)? {
        round_in_order(alloc, &mut run.controllers, plant, office, ends)?;
    }
    run.journals(alloc, plant, source, fuel)
}
