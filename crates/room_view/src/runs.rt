//! Views of the journals of a run.
use crate::accepted::Accepted;
use crate::texts::{Kind, read};
use crate::why::tell_refused;
use crate::words::Options;
use journal::Journals;
use journal_reader::{ReadFaultOf, read_journals};
use room_kinds::SlotId;
use room_run::Status;
use room_wiring::Wiring;
use std::alloc::{AllocError, Global};
use view_journals::{Redone, Wanted, find_signal, tell_end, tell_outputs, tell_story};
use view_messages::chart_replays::{Replays, replays_of};
use view_pages::{Named, Page};
use view_verdicts::tell_no_run;

/// Whether a text has the last line of journals.
fn ends_whole(text: &[u8]) -> bool {
    text.ends_with(b"done\n") || text.ends_with(b"spent\n")
}

/// What is wrong with a text that has no journals of runs of a model, and the byte that shows it, if one does.
fn cause_of(text: &[u8], offset: usize) -> (&'static [u8], Option<usize>) {
    if !ends_whole(text) {
        let end = text.len().saturating_sub(1);
        return (
            b"it doesn't end with a line `done` or `spent`: lines are missing at its end",
            Some(end),
        );
    }
    if offset >= text.len() {
        return (
            b"its lines are as they should be, but speak of what the model doesn't have",
            None,
        );
    }
    (
        b"the first byte that is not as `room run` writes it",
        Some(offset),
    )
}

/// Tells where a text differs from all journals of runs of a model.
fn tell_malformed(page: &mut Page, named: Named<'_>, offset: usize) {
    tell_refused(page, named, b"it isn't the journals of a run of this model");
    let (cause, place) = cause_of(named.text, offset);
    page.put_line(cause);
    page.put_line(b"cure: take what `room run` wrote of this very model, whole and unchanged");
    if let Some(place) = place {
        page.end_line();
        page.put_part(named, place, place.saturating_add(1));
    }
}

/// The journals of a text that fit a wiring, or what is told of it and the status.
pub(crate) fn journals_in(
    alloc: Global,
    page: &mut Page,
    wiring: &Wiring,
    named: Named<'_>,
) -> Result<Result<Journals, Status>, AllocError> {
    match read_journals(alloc, named.text, wiring) {
        Ok(journals) => Ok(Ok(journals)),
        Err(ReadFaultOf::Memory) => Err(AllocError),
        Err(ReadFaultOf::Malformed { offset }) => {
            tell_malformed(page, named, offset);
            Ok(Err(Kind::Journals.refused()))
        }
    }
}

/// The journals of a file that fit a wiring, or what is told of it and the status.
pub(crate) fn journals_of(
    rt: HostRuntime,
    page: &mut Page,
    wiring: &Wiring,
    name: &str,
) -> Result<Result<Journals, Status>, AllocError> {
    let text = match read(rt, page, name, Kind::Journals)? {
        Ok(text) => text,
        Err(status) => return Ok(Err(status)),
    };
    let named = Named {
        name,
        text: text.as_slice(),
    };
    journals_in(rt.alloc(), page, wiring, named)
}

/// Tells that the words name what a model or journals don't have.
pub(crate) fn tell_unknown(page: &mut Page, what: &[u8], name: &str) {
    page.put(b"room_view: words refused; the ");
    page.put(what);
    page.put(b" ");
    page.put_line(name.as_bytes());
}

/// Whether a model has an actor's path; that it hasn't is told.
fn knows_actor(page: &mut Page, wiring: &Wiring, path: &str) -> bool {
    if wiring.find(path).is_some() {
        return true;
    }
    tell_unknown(page, b"model has no actor", path);
    false
}

/// Whether a model has a message; that it hasn't is told.
fn knows_signal(page: &mut Page, wiring: &Wiring, name: &str) -> bool {
    if find_signal(wiring, name.as_bytes()) {
        return true;
    }
    tell_unknown(page, b"model has no message", name);
    false
}

/// Whether a model has what options name; what it hasn't is told.
pub(crate) fn knows(page: &mut Page, wiring: &Wiring, options: Options<'_>) -> bool {
    let is_known = match options.actor {
        Some(path) => knows_actor(page, wiring, path),
        None => true,
    };
    if !is_known {
        return false;
    }
    match options.signal {
        Some(name) => knows_signal(page, wiring, name),
        None => true,
    }
}

fn slot_of(wiring: &Wiring, path: Option<&str>) -> Option<SlotId> {
    match path {
        Some(path) => wiring.find(path),
        None => None,
    }
}

fn bytes_of(name: Option<&str>) -> Option<&[u8]> {
    match name {
        Some(name) => Some(name.as_bytes()),
        None => None,
    }
}

/// Which lines of a story options ask for.
pub(crate) fn wanted_of<'a>(wiring: &Wiring, options: Options<'a>) -> Wanted<'a> {
    Wanted {
        actor: slot_of(wiring, options.actor),
        signal: bytes_of(options.signal),
        from: options.from.unwrap_or(0),
        to: options.to.unwrap_or(u64::MAX),
        only_trouble: options.only_trouble,
        no_system: options.no_system,
    }
}

/// The journals of a run, and what was done of it again by the charts of the model.
#[derive(Drop)]
pub(crate) struct RunOf {
    pub(crate) journals: Journals,
    pub(crate) redone: Redone,
}

/// The run of a model whose journals a file has, or what is told of it and the status.
pub(crate) fn run_of(
    rt: HostRuntime,
    page: &mut Page,
    model: &Accepted,
    name: &str,
) -> Result<Result<RunOf, Status>, AllocError> {
    let journals = match journals_of(rt, page, model.wiring(), name)? {
        Ok(journals) => journals,
        Err(status) => return Ok(Err(status)),
    };
    let Replays { redone, .. } = replays_of(rt.alloc(), &model.plant, &journals, None)?;
    Ok(Ok(RunOf { journals, redone }))
}

/// Tells in one line that journals are those of no run of a model, if they are. Where they don't do as its charts, the
/// views tell so by themselves.
fn tell_if_no_run(
    alloc: Global,
    page: &mut Page,
    model: &Accepted,
    run: &RunOf,
) -> Result<(), AllocError> {
    if run.redone.differs.is_some() {
        return Ok(());
    }
    tell_no_run(alloc, page, &model.plant, &run.journals)
}

/// The story of a run, of which these lines are wanted.
fn tell_story_in(
    alloc: Global,
    page: &mut Page,
    model: &Accepted,
    run: &RunOf,
    wanted: Wanted<'_>,
) -> Result<Status, AllocError> {
    tell_if_no_run(alloc, page, model, run)?;
    tell_story(
        alloc,
        page,
        model.wiring(),
        &run.journals,
        &run.redone,
        wanted,
    )?;
    Ok(Status::Done)
}

/// The story of the journals of a file.
pub(crate) fn tell_story_of(
    rt: HostRuntime,
    page: &mut Page,
    model: &Accepted,
    name: &str,
    options: Options<'_>,
) -> Result<Status, AllocError> {
    let wiring = model.wiring();
    if !knows(page, wiring, options) {
        return Ok(Status::WordsRefused);
    }
    let wanted = wanted_of(wiring, options);
    match run_of(rt, page, model, name)? {
        Ok(run) => tell_story_in(rt.alloc(), page, model, &run, wanted),
        Err(status) => Ok(status),
    }
}

/// What was still open where a run ended.
fn tell_end_in(
    alloc: Global,
    page: &mut Page,
    model: &Accepted,
    run: &RunOf,
) -> Result<Status, AllocError> {
    tell_if_no_run(alloc, page, model, run)?;
    tell_end(alloc, page, model.wiring(), &run.journals, &run.redone)?;
    Ok(Status::Done)
}

/// What was still open where the run of the journals of a file ended.
pub(crate) fn tell_end_of(
    rt: HostRuntime,
    page: &mut Page,
    model: &Accepted,
    name: &str,
) -> Result<Status, AllocError> {
    match run_of(rt, page, model, name)? {
        Ok(run) => tell_end_in(rt.alloc(), page, model, &run),
        Err(status) => Ok(status),
    }
}

/// What nobody hears in the run of the journals of a file.
pub(crate) fn tell_outputs_of(
    rt: HostRuntime,
    page: &mut Page,
    model: &Accepted,
    name: &str,
) -> Result<Status, AllocError> {
    match run_of(rt, page, model, name)? {
        Ok(run) => tell_outputs(rt.alloc(), page, model.wiring(), &run.journals, &run.redone)?,
        Err(status) => return Ok(status),
    }
    Ok(Status::Done)
}
