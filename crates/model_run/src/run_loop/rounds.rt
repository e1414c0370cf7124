//! The beginning of a round, with a mail of its own.
ghost use Rattle.std.specs.Prelude.{◌≡◌, ◌+◌, map, length, IfOk, OnOk};
ghost use Rattle.inject_reader.specs.Fitting.{LinesFit};
ghost use Rattle.mail_core.specs.SetUp.{AreFresh};
ghost use Rattle.model_run.specs.part_posts.Items.{items_of};
ghost use Rattle.model_run.specs.part_source.Calls.{seen, Grew};
ghost use Rattle.model_run.specs.part_source.Parts.{IsPart};
ghost use Rattle.model_run.specs.run_loop.Plays.{BeforePart, PartPosted};
ghost use Rattle.model_run.specs.run_loop.Runs.{BeginsPart, IsInRound};

use crate::part_posts::post_part;
use crate::part_source::PartSource;
use crate::run_loop::state::Run;
use controller::{Environment, Plant};
use inject_reader::inject_lines::Line;
use mail_core::Mail;
use std::alloc::{AllocError, Global};

/// A mail for the controllers of a plant and the environment.
pub(crate) fn open<M: Mail>(alloc: Global, plant: &Plant) -> Result<(M::Office, Vec<M>), AllocError>
    ensures fresh { IfOk result (λ made.
        AreFresh (length plant.now.wiring.controllers + 1) (map M.log made.1.items)) }
    ensures tied { IfOk result (λ made. M.tied made.0 made.1.items) }
{
    M::set_up(alloc, plant.wiring.controller_count() + 1)
}

/// The environment posts the lines of a part at the last end.
fn post_at_last<M: Mail>(
    alloc: Global,
    plant: &Plant,
    environment: &mut Environment,
    office: &mut M::Office,
    ends: &mut Vec<M>,
    part: &[Line],
) -> Result<(), AllocError>
    requires fresh { AreFresh (length plant.now.wiring.controllers + 1) (map M.log ends.old.items) }
    requires tied { M.tied office.old ends.old.items }
    requires part { IsPart part.now }
    requires fits { LinesFit plant.now.wiring part.now }
    ensures posted { OnOk result (PartPosted plant.now part.now environment.old environment.new
        (map M.log ends.new.items)) }
    ensures tied { M.tied office.new ends.new.items }
{
    let last = &mut ends[usize::from(plant.wiring.controller_count())];
    post_part(alloc, plant, environment, office, last, part)
}

/// Begins the first round of a part: the environment posts the lines of the part at which the source stands.
pub(crate) fn begin_part<M: Mail + Drop, S: PartSource>(
    alloc: Global,
    plant: &Plant,
    run: &mut Run,
    source: &S,
    fuel: u64,
) -> Result<(M::Office, Vec<M>), AllocError>
where
    M::Office: Drop,
    requires before { BeforePart plant.now (items_of plant.now.wiring (S.given source.now))
        (S.stands_at source.now) fuel run.old.controllers.items run.old.environment }
    requires fits { S.fits plant.now.wiring source.now }
    ensures begun { IfOk result (λ made.
        IsInRound plant.now (items_of plant.now.wiring (S.given source.now)) fuel run.new
        (map M.log made.1.items)) }
    ensures count { IfOk result (λ made.
        length made.1.items ≡ length plant.now.wiring.controllers + 1) }
    ensures tied { IfOk result (λ made. M.tied made.0 made.1.items) }
    ensures grew { IfOk result (λ made.
        Grew (seen run.old.controllers.items run.old.environment) (seen run.new.controllers.items
        run.new.environment)) }
    ensures part { IfOk result (λ made. BeginsPart (S.stands_at source.now) run.old run.new) }
{
    let (mut office, mut ends) = open::<M>(alloc, plant)?;
    post_at_last(
        alloc,
        plant,
        &mut run.environment,
        &mut office,
        &mut ends,
        source.part(),
    )?;
    run.in_part = true;
    // No list has more entries than a number counts: so parts that post something come to an end.
    prove!(run.environment.entries().len() <= usize::MAX);
    Ok((office, ends))
}
