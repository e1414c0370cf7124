//! The run of the made model, whose texts nobody has to write into files.
ghost use Rattle.std.specs.Prelude.{IfOk, IfErr};
ghost use Rattle.room_run.specs.MadeShelf.{made_files, made_shelf};
ghost use Rattle.room_run.specs.Models.{IsModel};
ghost use Rattle.room_run.specs.Causes.{InjectedCauses, IsInjections, PlantCauses, RunCauses};
ghost use Rattle.room_run.specs.Finished.{Summarizes};
ghost use Rattle.room_run.specs.fitting_plants.Plants.{PlantFits};
ghost use Rattle.inject_reader.specs.Fitting.{LinesFit};
ghost use Rattle.inject_reader.specs.declared.inject_lines.accepted.Advances.TheVariants.{Taken};

use crate::asked::USUAL_FUEL;
use crate::judge::read_plant;
use crate::plant_runs::run_over;
use crate::prepare::judge_lines;
use crate::refusal::Refusal;
use controller::Plant;
use inject_reader::inject_lines::{Advances, Line};
use made_model::{Summary, counts_of, made_model};
use room_outside::Gate;
use room_wiring::Wiring;
use std::alloc::{AllocError, Global};
use std::thread::Threads;

/// The most bytes of a text.
const MOST_BYTES: usize = 1_048_576;

/// The plant of a text that stands in memory.
fn made_plant(alloc: Global, text: &[u8]) -> Result<Plant, Refusal>
    ensures ok { IfOk result (λ plant. IsModel text.now plant) }
    ensures fits { IfOk result (λ plant. PlantFits plant) }
    ensures err { IfErr result (λ why. PlantCauses text.now why) }
{
    if text.len() > MOST_BYTES {
        return Err(Refusal::ModelTooLong);
    }
    match read_plant(alloc, text) {
        Ok(plant) => Ok(plant),
        Err(fault) => Err(Refusal::Model(fault)),
    }
}

/// The lines of injections that stand in memory.
fn made_lines(alloc: Global, text: &[u8], wiring: &Wiring) -> Result<Vec<Line>, Refusal>
    ensures ok { IfOk result (λ lines. IsInjections Taken wiring.now text.now lines.items) }
    ensures fit { IfOk result (λ lines. LinesFit wiring.now lines.items) }
    ensures err { IfErr result (λ why. InjectedCauses wiring.now text.now why) }
{
    if text.len() > MOST_BYTES {
        return Err(Refusal::InjectionsTooLong);
    }
    judge_lines(alloc, text, Advances::Taken, wiring)
}

/// What is told of the run of the made model of so many actors, each of which is kicked once.
pub(crate) fn run_made<G: Gate + Sync, R: Threads + Sync>(
    rt: &R,
    alloc: Global,
    actors: u64,
    gate: &G,
) -> Result<Summary, Refusal>
    ensures ok { IfOk result (λ summary. Summarizes actors summary) }
    ensures err { IfErr result (λ why.
        RunCauses (made_shelf actors) (made_shelf actors) made_files why) }
{
    let Ok(texts) = made_model(alloc, actors) else {
        return Err(Refusal::Memory);
    };
    let plant = match made_plant(alloc, texts.model.as_slice()) {
        Ok(plant) => plant,
        Err(why) => return Err(why),
    };
    let lines = match made_lines(alloc, texts.injections.as_slice(), &plant.wiring) {
        Ok(lines) => lines,
        Err(why) => return Err(why),
    };
    match run_over(rt, alloc, &plant, lines.as_slice(), USUAL_FUEL, gate) {
        Ok(journals) => Ok(Summary {
            actors,
            counts: counts_of(&journals),
            done: journals.done,
        }),
        Err(AllocError) => Err(Refusal::Memory),
    }
}
