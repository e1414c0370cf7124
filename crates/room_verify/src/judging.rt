//! Verdicts on journals.
ghost use Rattle.std.specs.Prelude.{◌≡◌, length, IfOk};
ghost use Rattle.controller_actors.specs.Plants.{model_of};
ghost use Rattle.inject_reader.specs.Fitting.{LinesFit};
ghost use Rattle.model_run.specs.part_posts.Items.{items_of};
ghost use Rattle.room_verify.specs.Merging.{ReachedIn, passed_at_start};
ghost use Rattle.room_verify.specs.Verdicts.{IsVerdict};

use crate::checks::{first_out_of_order, first_wrong_start};
use crate::merging::{Outcome, replay_merge};
use crate::promptness::first_unprompt;
use crate::replay::Replay;
use crate::verdict::Verdict;
use controller::Plant;
use inject_reader::inject_lines::Line;
use journal::{Journal, Journals};
use std::alloc::{AllocError, Global};

/// How many entries stand at the front of each journal for the start of its controller; none in the environment's.
pub(crate) fn starts_passed(alloc: Global, starts: &[Journal]) -> Result<Vec<usize>, AllocError>
    ensures { IfOk result (λ passed. passed.items ≡ passed_at_start starts.now) }
{
    let mut passed = Vec::new(alloc);
    for start in starts {
        passed.push(start.len())?;
    }
    passed.push(0)?;
    Ok(passed)
}

/// The verdict on journals whose merge leads to where a replay stands.
fn verdict_at(replay: &Replay, plant: &Plant, lines: &[Line], fuel: u64, j: &Journals) -> Verdict
    requires reached { ReachedIn plant.now lines.now j.now replay.now }
    requires count { length j.now.controllers ≡ length plant.now.wiring.controllers }
    ensures { IsVerdict (model_of plant.now) plant.now.wiring
        (items_of plant.now.wiring lines.now) fuel j.now result }
{
    let _count = plant.wiring.controller_count();
    if !replay.leaves(plant, j.left.as_slice()) {
        return Verdict::Left;
    }
    if let Some(c) = replay.first_beyond(plant, fuel) {
        return Verdict::Fuel(c);
    }
    if !replay.has_ended(plant, lines, fuel, j) {
        return Verdict::Ended;
    }
    match first_unprompt(j) {
        Some(turn) => Verdict::Prompt(turn.controller, turn.stamp),
        None => Verdict::Lawful,
    }
}

/// The verdict on journals: whether they are those of a run of a plant over lines with so much fuel, or the first of
/// their faults. There is a journal for each controller, and the lines name what the wiring has.
pub fn verify(
    alloc: Global,
    plant: &Plant,
    lines: &[Line],
    fuel: u64,
    j: &Journals,
) -> Result<Verdict, AllocError>
    requires count { length j.now.controllers ≡ length plant.now.wiring.controllers }
    requires fit { LinesFit plant.now.wiring lines.now }
    ensures { IfOk result (IsVerdict (model_of plant.now) plant.now.wiring
        (items_of plant.now.wiring lines.now) fuel j.now) }
{
    let _count = plant.wiring.controller_count();
    if let Some(party) = first_out_of_order(j) {
        return Ok(Verdict::Order(party));
    }
    let begun = Replay::start(alloc, plant)?;
    let starts = begun.entries.as_slice();
    if let Some(c) = first_wrong_start(j, starts) {
        return Ok(Verdict::Start(c));
    }
    let passed = starts_passed(alloc, starts)?;
    let outcome = replay_merge(begun.replay, plant, lines, j, None, passed)?;
    match outcome {
        Outcome::Refused(party, stamp) => Ok(Verdict::Entry(party, stamp)),
        Outcome::Reached(replay) => Ok(verdict_at(&replay, plant, lines, fuel, j)),
    }
}
