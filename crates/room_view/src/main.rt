//! The program `room_view`: tells people why a text is refused, and where; where messages can come in; what the
//! journals of a run tell; and draws pictures of models and of runs.
//!
//! `why MODEL [INJECT]`, `why MODEL INJECT JOURNALS [--fuel N]`, `doors MODEL`, `lint MODEL [INJECT]`,
//! `story MODEL JOURNALS ..`, `outputs MODEL JOURNALS`, `end MODEL JOURNALS`, `explain MODEL INJECT JOURNALS MESSAGE`,
//! `diff MODEL INJECT JOURNALS S1 S2`, `wiring MODEL [FORM]`, `wiring MODEL INJECT JOURNALS --at S [FORM]`,
//! `chart MODEL CLASS [FORM]` and `run MODEL JOURNALS [FORM] ..` write a page to standard output; of a model that is
//! refused all tell why. The status is that of `room` for these files: 0 where nothing is refused, 1 where the words
//! have another form, or name what the model or the journals don't have, 2 where the model is refused, 3 where the
//! injections or the journals are, 5 for want of memory, 6 where a file wasn't read, 7 where the page or a note wasn't
//! written, 8 where journals are unlawful.
#![tactic(auto)]

mod accepted;
mod doors;
mod judge;
mod line_forms;
mod line_meanings;
mod lines;
mod messages;
mod pictures;
mod runs;
mod texts;
mod timing;
mod verdicts;
mod why;
mod words;

use crate::accepted::Accepted;
use crate::doors::tell_doors;
use crate::lines::injections_of;
use crate::messages::tell_message_of;
use crate::pictures::{tell_picture, tell_run_picture};
use crate::runs::{tell_end_of, tell_outputs_of, tell_story_of};
use crate::texts::read_model;
use crate::verdicts::{Asking, tell_journals};
use crate::why::tell_model;
use crate::words::{Asked, FORMS, Question, question_of};
use room_outside::{OutSink, TextFile, read_file, write_whole};
use room_run::{Status, stack_of};
use room_wiring::Wiring;
use std::alloc::AllocError;
use std::process::ExitCode;
use std::rt::Env;
use std::thread::Builder;
use std::{env, io};
use view_lint::tell_findings;
use view_pages::{Named, Page};

/// The words behind the program's name; none at all where one of them is no text.
fn words_of<R: Env + AllocGlobal>(rt: &R) -> io::Result<Vec<String>> {
    let mut words = match env::args(rt) {
        Ok(words) => words,
        Err(e) if e.kind() == io::ErrorKind::InvalidData => return Ok(Vec::new(rt.alloc())),
        Err(e) => return Err(e),
    };
    let _ = words.next();
    Ok(words.collect(rt.alloc())?)
}

/// Tells whether the injections of a file are refused over a wiring, and why.
fn tell_injections(
    rt: HostRuntime,
    page: &mut Page,
    wiring: &Wiring,
    name: &str,
) -> Result<Status, AllocError> {
    match injections_of(rt, page, wiring, name)? {
        Ok(_) => page.put_line(b"ok"),
        Err(status) => return Ok(status),
    }
    Ok(Status::Done)
}

/// Tells what the author of a model, and of injections if there are any, hardly meant.
fn tell_lint(
    rt: HostRuntime,
    page: &mut Page,
    model: Named<'_>,
    wiring: &Wiring,
    injections: Option<&str>,
) -> Result<Status, AllocError> {
    let Some(name) = injections else {
        tell_findings(rt.alloc(), page, model, wiring, None)?;
        return Ok(Status::Done);
    };
    match injections_of(rt, page, wiring, name)? {
        Ok(text) => {
            let lines = Named {
                name,
                text: text.as_slice(),
            };
            tell_findings(rt.alloc(), page, model, wiring, Some(lines))?;
        }
        Err(status) => return Ok(status),
    }
    Ok(Status::Done)
}

/// The page for what these words ask of a model that isn't refused, and the status.
fn tell_asked(
    rt: HostRuntime,
    page: &mut Page,
    words: &[String],
    asked: Asked<'_>,
    model: Named<'_>,
    accepted: &Accepted,
) -> Result<Status, AllocError> {
    let wiring = accepted.wiring();
    match asked {
        Asked::Nothing => page.put_line(b"ok"),
        Asked::Doors => tell_doors(rt.alloc(), page, wiring)?,
        Asked::Lint(injections) => return tell_lint(rt, page, model, wiring, injections),
        Asked::Injections(name) => return tell_injections(rt, page, wiring, name),
        Asked::Journals(judgement) => {
            let asking = Asking {
                alloc: rt.alloc(),
                model: accepted,
                text: model.text,
                words,
            };
            return tell_journals(rt, page, asking, judgement);
        }
        Asked::Story(name, options) => return tell_story_of(rt, page, accepted, name, options),
        Asked::Explain(message) => return tell_message_of(rt, page, accepted, message),
        Asked::End(name) => return tell_end_of(rt, page, accepted, name),
        Asked::Outputs(name) => return tell_outputs_of(rt, page, accepted, name),
        Asked::Picture(picture) => {
            return tell_picture(rt.alloc(), page, model.text, accepted, words, picture);
        }
        Asked::Run(name, form, options) => {
            return tell_run_picture(rt, page, accepted, words, name, form, options);
        }
    }
    Ok(Status::Done)
}

/// The page for a question, which these words ask, and the status. The model may have been read before.
fn tell(
    rt: HostRuntime,
    page: &mut Page,
    words: &[String],
    question: Question<'_>,
    model: Vec<TextFile>,
) -> Result<Status, AllocError> {
    let text = match read_model(rt, page, question.model, model)? {
        Ok(text) => text,
        Err(status) => return Ok(status),
    };
    let model = Named {
        name: question.model,
        text: text.as_slice(),
    };
    match tell_model(rt.alloc(), page, model)? {
        Some(accepted) => tell_asked(rt, page, words, question.asked, model, &accepted),
        None => Ok(Status::ModelRefused),
    }
}

/// Tells on standard error why there is no page, which ends with this status.
fn refuse(rt: HostRuntime, note: &[u8], status: Status) -> Status {
    match write_whole(&mut OutSink::errors(rt.stderr()), note) {
        Ok(()) => status,
        Err(_) => Status::WriteFault,
    }
}

/// Tells that there was no memory for the work.
fn without_memory(rt: HostRuntime) -> Status {
    refuse(rt, b"room_view: memory\n", Status::Memory)
}

/// Writes a page: to standard error where the words are refused, and else to standard output.
fn write_page(rt: HostRuntime, page: &Page, status: Status) -> Status {
    let Ok(text) = page.bytes() else {
        return without_memory(rt);
    };
    if status == Status::WordsRefused {
        return refuse(rt, text, status);
    }
    match write_whole(&mut OutSink::output(rt.stdout()), text) {
        Ok(()) => status,
        Err(_) => Status::WriteFault,
    }
}

/// Writes the page for words, of a model that may have been read before.
fn work(rt: HostRuntime, words: &[String], model: Vec<TextFile>) -> Status {
    let Some(question) = question_of(words) else {
        return refuse(rt, FORMS, Status::WordsRefused);
    };
    let mut page = Page::new(rt.alloc());
    let Ok(status) = tell(rt, &mut page, words, question, model) else {
        return without_memory(rt);
    };
    write_page(rt, &page, status)
}

/// Does the work on a thread of its own, whose stack the model's text can't exhaust.
fn main(rt: HostRuntime) -> ExitCode {
    let Ok(words) = words_of(&rt) else {
        return ExitCode::from(Status::Memory.number());
    };
    let model = question_of(&words).and_then(|asked| read_file(rt, asked.model));
    let stack = model
        .as_ref()
        .map_or(stack_of(&[]), |model| stack_of(&model.1));
    let Ok(model) = model.into_iter().collect(rt.alloc()) else {
        return ExitCode::from(without_memory(rt).number());
    };
    let thread = Builder::new().stack_size(stack);
    let status = match thread.spawn(&rt, move || work(rt, &words, model)) {
        Ok(thread) => thread.join(&rt),
        Err(_) => without_memory(rt),
    };
    ExitCode::from(status.number())
}
