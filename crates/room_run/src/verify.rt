//! From the texts of a model, of injections and of journals to the verdict on the journals.
ghost use Rattle.std.specs.Prelude.{◌≡◌, List, IfOk, IfErr};
ghost use Rattle.room_outside.specs.Shown.{Keeps};
ghost use Rattle.controller_actors.specs.declared.plant.Plant.{Plant as RunPlant};
ghost use Rattle.inject_reader.specs.declared.inject_lines.accepted.Line.{Line as InjectedLine};
ghost use Rattle.journal.specs.declared.entry.Journals.{Journals as RunJournals};
ghost use Rattle.room_verify.specs.declared.verdict.Verdict.TheVariants as verdicts;
ghost use Rattle.room_run.specs.Words.{judged_view};
ghost use Rattle.room_run.specs.Causes.{IsJudged, UnjudgedCauses, VerifyCauses};
ghost use Rattle.room_run.specs.Judging.{AreJudged, is_lawful};

use crate::asked::Judged;
use crate::convert::read_any_record;
use crate::fitting_plants::plants_fit;
use crate::prepare::{read_injections, read_model};
use crate::refusal::Refusal;
use controller::Plant;
use inject_reader::inject_lines::{Advances, Line};
use journal::Journals;
use room_outside::Shelf;
use room_verify::{Verdict, verdicts_are_by_charts, verify};
use std::alloc::{AllocError, Global};

/// What a verdict is about, or what is shown: a plant, the lines over which it runs, and journals.
#[derive(Drop)]
pub(crate) struct Judgement {
    pub(crate) plant: Plant,
    pub(crate) lines: Vec<Line>,
    pub(crate) journals: Journals,
}

/// The model, the injections and the journals of three files.
pub(crate) fn read_judged<S: Shelf>(
    alloc: Global,
    shelf: &mut S,
    files: Judged,
) -> Result<Judgement, Refusal>
    ensures ok { IfOk result (λ it.
        AreJudged (S.shown shelf.old) (judged_view files.entry) it) }
    ensures err { IfErr result (λ why. UnjudgedCauses (S.shown shelf.old) (S.shown shelf.new)
        (judged_view files.entry) why) }
    ensures keeps { Keeps (S.shown shelf.old) (S.shown shelf.new) }
{
    // A law, and no code: what is so of each plant that fits, that its names tell things apart among it.
    plants_fit();
    let plant = match read_model(alloc, shelf, files.run.model) {
        Ok(plant) => plant,
        Err(why) => return Err(why),
    };
    let name = files.run.injections;
    let lines = match read_injections(alloc, shelf, name, Advances::Refused, &plant.wiring) {
        Ok(lines) => lines,
        Err(why) => return Err(why),
    };
    match read_any_record(alloc, shelf, files.journals, &plant.wiring) {
        Ok(journals) => Ok(Judgement {
            plant,
            lines,
            journals,
        }),
        Err(why) => Err(why),
    }
}

/// Whether a verdict is that the journals are lawful.
fn is_lawful(verdict: Verdict) -> bool
    ensures { result ≡ is_lawful verdict }
{
    match verdict {
        Verdict::Lawful => true,
        Verdict::Order(_) | Verdict::Start(_) | Verdict::Entry(_, _) | Verdict::Left => false,
        Verdict::Fuel(_) | Verdict::Ended | Verdict::Prompt(_, _) => false,
    }
}

/// Whether the journals of a file are those of a run of the model and the injections of two others, in which
/// each controller takes so many turns at most; else why not.
pub(crate) fn verify_files<S: Shelf>(
    alloc: Global,
    shelf: &mut S,
    files: Judged,
    fuel: u64,
) -> Result<(), Refusal>
    ensures ok { IfOk result (λ _.
        (plant : RunPlant) × (lines : List InjectedLine) × (journals : RunJournals)
        × IsJudged (S.shown shelf.old) (judged_view files.entry) fuel plant lines journals
        verdicts.Lawful) }
    ensures err { IfErr result (λ why. VerifyCauses (S.shown shelf.old) (S.shown shelf.new)
        (judged_view files.entry) fuel why) }
    ensures keeps { Keeps (S.shown shelf.old) (S.shown shelf.new) }
{
    // A law, and no code: the verdict doesn't depend on the tables that were compiled.
    verdicts_are_by_charts();
    let it = match read_judged(alloc, shelf, files) {
        Ok(it) => it,
        Err(why) => return Err(why),
    };
    let verdict = match verify(alloc, &it.plant, it.lines.as_slice(), fuel, &it.journals) {
        Ok(verdict) => verdict,
        Err(AllocError) => return Err(Refusal::Memory),
    };
    if is_lawful(verdict) {
        return Ok(());
    }
    Err(Refusal::Unlawful {
        verdict,
        controllers: it.plant.wiring.controller_count(),
    })
}
