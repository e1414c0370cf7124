//! A call up to its first written byte.
ghost use Rattle.std.specs.Prelude.{◌≡◌, ◌≤◌, ℕ, List, map, length, IfOk, IfErr, IfSome};
ghost use Rattle.std.specs.String.{string_bytes};
ghost use Rattle.room_outside.specs.Shown.{Keeps};
ghost use Rattle.controller_actors.specs.declared.plant.Plant.{Plant as RunPlant};
ghost use Rattle.inject_reader.specs.Answer.{answer};
ghost use Rattle.inject_reader.specs.Fitting.{FitLines, LinesFit};
ghost use Rattle.inject_reader.specs.Gives.{Gives};
ghost use Rattle.inject_reader.specs.declared.inject_lines.accepted.Line.{Line as InjectedLine};
ghost use Rattle.room_run.specs.Words.{files_view};
ghost use Rattle.room_run.specs.Models.{IsSound, IsModel};
ghost use Rattle.room_run.specs.Causes.{AreOf, Causes, InjectionsCauses, IsInjections, LinesCauses, ModelCauses, RunCauses, TextIs, UnreadCauses, refusal_of_lines};
ghost use Rattle.room_wiring.specs.WellNamed.{IsWellNamed};
ghost use Rattle.room_run.specs.Outcome.{Answers, HasTied, answer_status, answer_text};
ghost use Rattle.room_run.specs.Finished.{Finishes};
ghost use Rattle.room_run.specs.fitting_plants.Plants.{PlantFits};

use crate::asked::{Asked, Files, asked_by};
use crate::convert::convert;
use crate::fitting_journals::fitting_runs_journals;
use crate::judge::{read_plant, sound_model};
use crate::made::run_made;
use crate::plant_runs::run_over;
use crate::refusal::Refusal;
use crate::show::{View, show_files};
use crate::verify::verify_files;
use controller::Plant;
use inject_reader::InjectFault;
use inject_reader::inject_lines::{Advances, Line};
use journal::Journals;
use made_model::Summary;
use room_outside::{Gate, ReadRefused, Shelf, read_whole};
use room_wiring::Wiring;
use std::alloc::{AllocError, Global};
use std::thread::Threads;

/// Journals that are not written yet, and the wiring whose names they tell.
#[derive(Drop)]
pub(crate) struct Recorded {
    pub(crate) wiring: Wiring,
    pub(crate) journals: Journals,
}

/// What the words asked for, and isn't written yet.
#[derive(Drop)]
pub(crate) enum Answer {
    /// The model keeps all rules, and its wiring and charts have no fault.
    Accepted,
    /// The wiring of such a model.
    Wired(Wiring),
    /// The journals of a run that has ended.
    Ran(Recorded),
    /// The journals of a text.
    Converted(Recorded),
    /// Journals are lawful.
    Lawful,
    /// The system at a stamp of journals.
    Shown(View),
    /// What is told of the run of a made model.
    Summed(Summary),
}

/// The text of a model under a name.
fn read_text<S: Shelf>(alloc: Global, shelf: &mut S, name: &str) -> Result<Vec<u8>, Refusal>
    ensures short { IfOk result (λ v. length v.items ≤ 1048576) }
    ensures ok { IfOk result (λ v.
        IfSome ((S.shown shelf.old).text name.now) (λ text. v.items ≡ text)) }
    ensures err { IfErr result (λ why.
        UnreadCauses (S.shown shelf.old) (S.shown shelf.new) name.now why) }
    ensures keeps { Keeps (S.shown shelf.old) (S.shown shelf.new) }
{
    match read_whole(alloc, shelf, name) {
        Ok(text) => Ok(text),
        Err(ReadRefused::ReadFault) => Err(Refusal::ReadFault),
        Err(ReadRefused::TooLong) => Err(Refusal::ModelTooLong),
        Err(ReadRefused::Memory) => Err(Refusal::Memory),
    }
}

/// The wiring of the model whose text stands under a name, where it keeps all rules and its wiring and
/// charts have no fault.
pub(crate) fn read_wiring<S: Shelf>(
    alloc: Global,
    shelf: &mut S,
    name: &str,
) -> Result<Wiring, Refusal>
    ensures ok { IfOk result (λ w. TextIs (S.shown shelf.old) name.now (λ text. IsSound text w)) }
    ensures named { IfOk result (λ w. IsWellNamed w) }
    ensures err { IfErr result (λ why.
        ModelCauses (S.shown shelf.old) (S.shown shelf.new) name.now why) }
    ensures keeps { Keeps (S.shown shelf.old) (S.shown shelf.new) }
{
    let text = match read_text(alloc, shelf, name) {
        Ok(text) => text,
        Err(why) => return Err(why),
    };
    match sound_model(alloc, text.as_slice()) {
        Ok(sound) => Ok(sound.wiring),
        Err(fault) => Err(Refusal::Model(fault)),
    }
}

/// The plant of the model whose text stands under a name.
pub(crate) fn read_model<S: Shelf>(
    alloc: Global,
    shelf: &mut S,
    name: &str,
) -> Result<Plant, Refusal>
    ensures ok { IfOk result (λ plant.
        TextIs (S.shown shelf.old) name.now (λ text. IsModel text plant)) }
    ensures fits { IfOk result (λ plant. PlantFits plant) }
    ensures err { IfErr result (λ why.
        ModelCauses (S.shown shelf.old) (S.shown shelf.new) name.now why) }
    ensures keeps { Keeps (S.shown shelf.old) (S.shown shelf.new) }
{
    let text = match read_text(alloc, shelf, name) {
        Ok(text) => text,
        Err(why) => return Err(why),
    };
    match read_plant(alloc, text.as_slice()) {
        Ok(plant) => Ok(plant),
        Err(fault) => Err(Refusal::Model(fault)),
    }
}

/// Why injections are refused whose lines have this fault.
fn refusal_of_lines(fault: InjectFault) -> Refusal
    ensures { result ≡ refusal_of_lines fault }
{
    match fault {
        InjectFault::Code { line, fault } => Refusal::InjectionsLine { line, fault },
        InjectFault::Memory => Refusal::Memory,
    }
}

/// The lines of a text of injections over the names of a wiring, or the fault of the first faulty one.
fn read_lines(
    alloc: Global,
    text: &[u8],
    advances: Advances,
    wiring: &Wiring,
) -> Result<Vec<Line>, InjectFault>
    ensures exact { Gives (λ v. v.items) result (answer advances wiring.now text.now) }
    ensures fit { IfOk result (λ v. FitLines wiring.now v.items) }
{
    match advances {
        Advances::Taken => inject_reader::read_injections(alloc, text, wiring),
        Advances::Refused => inject_reader::read_untimed(alloc, text, wiring),
    }
}

/// The lines of a text of injections over the names of a wiring, where none is faulty.
pub(crate) fn judge_lines(
    alloc: Global,
    text: &[u8],
    advances: Advances,
    wiring: &Wiring,
) -> Result<Vec<Line>, Refusal>
    requires short { length text.now ≤ 1048576 }
    ensures ok { IfOk result (λ lines. IsInjections advances wiring.now text.now lines.items) }
    ensures fit { IfOk result (λ lines. LinesFit wiring.now lines.items) }
    ensures err { IfErr result (λ why. LinesCauses advances wiring.now text.now why) }
{
    match read_lines(alloc, text, advances, wiring) {
        Ok(lines) => Ok(lines),
        Err(fault) => Err(refusal_of_lines(fault)),
    }
}

/// The injections whose text stands under a name.
pub(crate) fn read_injections<S: Shelf>(
    alloc: Global,
    shelf: &mut S,
    name: &str,
    advances: Advances,
    wiring: &Wiring,
) -> Result<Vec<Line>, Refusal>
    ensures ok { IfOk result (λ lines.
        TextIs (S.shown shelf.old) name.now
        (λ text. IsInjections advances wiring.now text lines.items)) }
    ensures fit { IfOk result (λ lines. LinesFit wiring.now lines.items) }
    ensures err { IfErr result (λ why.
        InjectionsCauses (S.shown shelf.old) (S.shown shelf.new) name.now advances wiring.now
        why) }
    ensures keeps { Keeps (S.shown shelf.old) (S.shown shelf.new) }
{
    let text = match read_whole(alloc, shelf, name) {
        Ok(text) => text,
        Err(ReadRefused::ReadFault) => return Err(Refusal::ReadFault),
        Err(ReadRefused::TooLong) => return Err(Refusal::InjectionsTooLong),
        Err(ReadRefused::Memory) => return Err(Refusal::Memory),
    };
    judge_lines(alloc, text.as_slice(), advances, wiring)
}

/// The run of a plant over lines, which the words named.
fn run<G: Gate + Sync, R: Threads + Sync>(
    rt: &R,
    alloc: Global,
    plant: Plant,
    lines: &[Line],
    fuel: u64,
    gate: &G,
) -> Result<Recorded, AllocError>
    requires least { 1 ≤ fuel }
    requires most { fuel ≤ 100000 }
    requires plant_fits { PlantFits plant }
    requires lines_fit { LinesFit plant.wiring lines.now }
    ensures { IfOk result (λ f. Finishes plant lines.now fuel f) }
{
    let journals = run_over(rt, alloc, &plant, lines, fuel, gate)?;
    Ok(Recorded {
        wiring: plant.wiring,
        journals,
    })
}

/// The run of the model and the injections of two files, each controller with so much fuel.
fn run_files<S: Shelf, G: Gate + Sync, R: Threads + Sync>(
    rt: &R,
    alloc: Global,
    shelf: &mut S,
    files: Files,
    fuel: u64,
    gate: &G,
) -> Result<Recorded, Refusal>
    requires least { 1 ≤ fuel }
    requires most { fuel ≤ 100000 }
    ensures ok { IfOk result (λ f.
        (plant : RunPlant)
        × (lines : List InjectedLine)
        × AreOf (S.shown shelf.old) (files_view files.entry) plant lines
        × Finishes plant lines fuel f) }
    ensures err { IfErr result (λ why.
        RunCauses (S.shown shelf.old) (S.shown shelf.new) (files_view files.entry) why) }
    ensures keeps { Keeps (S.shown shelf.old) (S.shown shelf.new) }
{
    let plant = match read_model(alloc, shelf, files.model) {
        Ok(plant) => plant,
        Err(why) => return Err(why),
    };
    let read = read_injections(
        alloc,
        shelf,
        files.injections,
        Advances::Taken,
        &plant.wiring,
    );
    let lines = match read {
        Ok(lines) => lines,
        Err(why) => return Err(why),
    };
    match run(rt, alloc, plant, lines.as_slice(), fuel, gate) {
        Ok(finished) => Ok(finished),
        Err(AllocError) => Err(Refusal::Memory),
    }
}

/// All that comes before the first written byte.
pub(crate) fn prepare<S: Shelf, G: Gate + Sync, R: Threads + Sync>(
    rt: &R,
    alloc: Global,
    words: &[String],
    shelf: &mut S,
    gate: &G,
) -> Result<Answer, Refusal>
    ensures ok { IfOk result (λ a.
        Answers (S.shown shelf.old) (map string_bytes words.now) (answer_text a)
        (answer_status a)) }
    ensures tied { IfOk result (λ a. HasTied a) }
    ensures err { IfErr result (λ why.
        Causes (S.shown shelf.old) (S.shown shelf.new) (map string_bytes words.now) why) }
    ensures keeps { Keeps (S.shown shelf.old) (S.shown shelf.new) }
{
    // A law, and no code: what is so of the journals of each run.
    fitting_runs_journals();
    match asked_by(words) {
        None => Err(Refusal::Words),
        Some(Asked::Check(name)) => match read_wiring(alloc, shelf, name) {
            Ok(_wiring) => Ok(Answer::Accepted),
            Err(why) => Err(why),
        },
        Some(Asked::Tree(name)) => match read_wiring(alloc, shelf, name) {
            Ok(wiring) => Ok(Answer::Wired(wiring)),
            Err(why) => Err(why),
        },
        Some(Asked::Run(files, fuel)) => match run_files(rt, alloc, shelf, files, fuel, gate) {
            Ok(finished) => Ok(Answer::Ran(finished)),
            Err(why) => Err(why),
        },
        Some(Asked::Convert(files)) => match convert(alloc, shelf, files) {
            Ok(read) => Ok(Answer::Converted(read)),
            Err(why) => Err(why),
        },
        Some(Asked::Verify(files, fuel)) => match verify_files(alloc, shelf, files, fuel) {
            Ok(()) => Ok(Answer::Lawful),
            Err(why) => Err(why),
        },
        Some(Asked::Show(files, at)) => match show_files(alloc, shelf, files, at) {
            Ok(view) => Ok(Answer::Shown(view)),
            Err(why) => Err(why),
        },
        Some(Asked::Made(actors)) => match run_made(rt, alloc, actors, gate) {
            Ok(summary) => Ok(Answer::Summed(summary)),
            Err(why) => Err(why),
        },
    }
}
