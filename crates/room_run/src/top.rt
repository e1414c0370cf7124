//! The whole program.
ghost use Rattle.std.specs.Prelude.{◌≡◌, map};
ghost use Rattle.std.specs.String.{string_bytes};
ghost use Rattle.room_run.specs.Outcome.{HasTied, Prints, Outcome, Tells, answer_status, answer_text, status_of_run};

use crate::note::{write_lawful, write_note, write_ok};
use crate::prepare::{Answer, prepare};
use crate::refusal::Refusal;
use crate::status::Status;
use binding_expand::expand_text;
use made_model::write_summary;
use room_outside::{Gate, Shelf, Sink};
use room_show::show_text;
use std::alloc::Global;
use std::thread::Threads;
use tied_journals::text_to;

/// Tells why the call was refused, and gives its status.
fn tell<K: Sink>(why: Refusal, notes: &mut K) -> Status
    ensures { Tells (K.written notes.old) (K.written notes.new) why result }
{
    match write_note(&why, notes) {
        Ok(()) => why.status(),
        Err(_) => Status::WriteFault,
    }
}

/// How a run ended: done, or by its fuel.
fn status_of_run(done: bool) -> Status
    ensures { result ≡ status_of_run done }
{
    if done { Status::Done } else { Status::Spent }
}

/// The status of an answer that is written whole.
fn status_of(answer: &Answer) -> Status
    ensures { result ≡ answer_status answer.now }
{
    match answer {
        Answer::Accepted => Status::Done,
        Answer::Wired(_) => Status::Done,
        Answer::Ran(run) => status_of_run(run.journals.done),
        Answer::Converted(_) => Status::Done,
        Answer::Lawful => Status::Done,
        Answer::Shown(_) => Status::Done,
        Answer::Summed(summary) => status_of_run(summary.done),
    }
}

/// Writes what the words asked for, and gives the status.
fn print<K: Sink>(answer: &Answer, out: &mut K) -> Status
    requires { HasTied answer.now }
    ensures { Prints (K.written out.old) (K.written out.new) (answer_text answer.now)
        (answer_status answer.now) result }
{
    let written = match answer {
        Answer::Accepted => write_ok(out),
        Answer::Wired(wiring) => expand_text(wiring, out),
        Answer::Ran(run) => text_to(&run.journals, &run.wiring, out),
        Answer::Converted(read) => text_to(&read.journals, &read.wiring, out),
        Answer::Lawful => write_lawful(out),
        Answer::Shown(view) => show_text(&view.snapshot, &view.wiring, out),
        Answer::Summed(summary) => write_summary(summary, out),
    };
    match written {
        Ok(()) => status_of(answer),
        Err(_) => Status::WriteFault,
    }
}

/// The program over a shelf of texts, standard output and standard error.
///
/// The words `check MODEL` ask whether a model keeps all rules and its wiring and charts have no fault, `tree
/// MODEL` for the slots and the joined places of such a model, `run MODEL INJECT` for the run of a model over
/// injections, which may move virtual time on, so that timers expire, and in which each controller takes 10,000
/// turns at most, or N with `--fuel N` behind it, 1 to 100,000, `convert MODEL JOURNALS` for journals of a
/// model, in form 1 or in form 2, to be written in form 2, `verify MODEL INJECT JOURNALS` for the verdict on
/// journals, whether they are those of a run of the model over the injections, with a fuel as for a run, `show
/// MODEL INJECT JOURNALS --at S` for the system after all that happened by journals up to a stamp, 0 to
/// 9,223,372,036,854,775,807, and `made N` for the summary of the run of a made model of N actors, 1 to 4,000;
/// every other list of words is refused. No file is read for a made model. The order is: the words, reading the
/// model, the model (its text, its rules, its wiring, its charts), reading the injections or the journals, the
/// injections or the journals (their text, whether they are tied), the run, writing; for a verdict the
/// injections, then the journals, which needn't be tied, and the verdict; and so for the system at a stamp,
/// which is refused for the journals' stamps, for their starts, and for the first entry up to the stamp that
/// can't happen. After a failed read nothing more is read, and want of memory never comes once something was
/// written.
///
/// The text of journals may have 268,435,456 bytes, each other one 1,048,576.
///
/// The controllers of a run work at once, on as many threads as there are, and each enters the gate before
/// a turn that it takes while others work. One controller runs on the calling thread. Where the system gives
/// no more threads they work one after another.
pub fn room_top<S: Shelf, K: Sink, G: Gate + Sync, R: Threads + Sync>(
    rt: &R,
    alloc: Global,
    words: &[String],
    shelf: &mut S,
    out: &mut K,
    notes: &mut K,
    gate: &G,
) -> Status
    ensures { Outcome (S.shown shelf.old) (S.shown shelf.new) (map string_bytes words.now)
        (record {
          out_before = K.written out.old;
          out_after = K.written out.new;
          notes_before = K.written notes.old;
          notes_after = K.written notes.new;
        })
        result }
{
    match prepare(rt, alloc, words, shelf, gate) {
        Ok(answer) => print(&answer, out),
        Err(why) => tell(why, notes),
    }
}
