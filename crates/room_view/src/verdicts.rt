//! What is told of journals over injections: verdicts, and how the system stood at stamps of them.
ghost use Rattle.inject_reader.specs.Fitting.{LinesFit};

use crate::accepted::Accepted;
use crate::lines::tell_lines;
use crate::pictures::tell_scene;
use crate::runs::journals_in;
use crate::texts::{Kind, read};
use crate::words::{Judgement, Look};
use controller_actors::Plant;
use inject_reader::{InjectFault, read_lines_fit, read_untimed};
use journal::Journals;
use room_run::Status;
use std::alloc::{AllocError, Global};
use view_pages::{Named, Page};
use view_pictures::Form;
use view_verdicts::{
    Judged, Texts, fuel_told, moment_at, tell_changes_between, tell_unlawful, tell_verdict,
};

/// The model of which journals are told, its text, and the words of the call.
#[derive(Clone, Copy)]
pub(crate) struct Asking<'a> {
    pub(crate) alloc: Global,
    pub(crate) model: &'a Accepted,
    pub(crate) text: &'a [u8],
    pub(crate) words: &'a [String],
}

/// What is told where something is, or else that journals are unlawful.
fn status_of(is_told: bool) -> Status {
    if is_told {
        Status::Done
    } else {
        Status::Unlawful
    }
}

/// A picture of those who live at a stamp of journals.
fn tell_scene_of(
    page: &mut Page,
    asking: Asking<'_>,
    judged: Judged<'_>,
    texts: Texts<'_>,
    at: u64,
    form: Form,
) -> Result<bool, AllocError>
    requires fit { LinesFit judged.plant.now.wiring judged.lines.now }
{
    let Some(moment) = moment_at(asking.alloc, page, judged, texts, at)? else {
        return Ok(false);
    };
    tell_scene(page, asking, &moment, form)?;
    Ok(true)
}

/// What a look at journals tells; whether it tells it, and not that they are unlawful.
fn tell_look(
    page: &mut Page,
    asking: Asking<'_>,
    judged: Judged<'_>,
    texts: Texts<'_>,
    look: Look,
) -> Result<bool, AllocError>
    requires fit { LinesFit judged.plant.now.wiring judged.lines.now }
{
    match look {
        Look::Verdict { .. } => tell_verdict(asking.alloc, page, judged, texts),
        Look::Changes { first, second } => {
            tell_changes_between(asking.alloc, page, judged, texts, first, second)
        }
        Look::Wiring { at, form } => tell_scene_of(page, asking, judged, texts, at, form),
    }
}

/// The fuel by which journals are judged. Of the system at a stamp none is asked.
fn fuel_of(look: Look, journals: &Journals) -> u64 {
    match look {
        Look::Verdict { fuel } => fuel,
        Look::Changes { .. } | Look::Wiring { .. } => fuel_told(journals),
    }
}

/// What a look at journals over the text of injections tells.
fn tell(
    page: &mut Page,
    asking: Asking<'_>,
    texts: Texts<'_>,
    look: Look,
) -> Result<Status, AllocError> {
    // A law, and no code: lines that were read name what the wiring has.
    read_lines_fit();
    let alloc = asking.alloc;
    let plant = &asking.model.plant;
    let lines = match read_untimed(alloc, texts.injections.text, &plant.wiring) {
        Ok(lines) => lines,
        Err(fault) => {
            tell_lines(alloc, page, texts.injections, &plant.wiring, fault)?;
            return Ok(Status::InjectionsRefused);
        }
    };
    let journals = match journals_in(alloc, page, &plant.wiring, texts.journals)? {
        Ok(journals) => journals,
        Err(status) => return Ok(status),
    };
    let judged = Judged {
        plant,
        lines: lines.as_slice(),
        fuel: fuel_of(look, &journals),
        journals: &journals,
    };
    let is_told = tell_look(page, asking, judged, texts, look)?;
    Ok(status_of(is_told))
}

/// What is asked of the journals of a file over the injections of another one.
pub(crate) fn tell_journals(
    rt: HostRuntime,
    page: &mut Page,
    asking: Asking<'_>,
    judgement: Judgement<'_>,
) -> Result<Status, AllocError> {
    let lines = match read(rt, page, judgement.injections, Kind::Injections)? {
        Ok(lines) => lines,
        Err(status) => return Ok(status),
    };
    let journals = match read(rt, page, judgement.journals, Kind::Journals)? {
        Ok(journals) => journals,
        Err(status) => return Ok(status),
    };
    let texts = Texts {
        injections: Named {
            name: judgement.injections,
            text: lines.as_slice(),
        },
        journals: Named {
            name: judgement.journals,
            text: journals.as_slice(),
        },
    };
    tell(page, asking, texts, judgement.look)
}

/// Tells in one line that journals aren't those of a run over injections, if they aren't, with whatever
/// fuel. Over lines that move the time on nothing is judged.
pub(crate) fn tell_if_unlawful(
    alloc: Global,
    page: &mut Page,
    plant: &Plant,
    injections: &[u8],
    journals: &Journals,
) -> Result<(), AllocError> {
    // A law, and no code: lines that were read name what the wiring has.
    read_lines_fit();
    let lines = match read_untimed(alloc, injections, &plant.wiring) {
        Ok(lines) => lines,
        Err(InjectFault::Memory) => return Err(AllocError),
        Err(InjectFault::Code { .. }) => return Ok(()),
    };
    let judged = Judged {
        plant,
        lines: lines.as_slice(),
        fuel: fuel_told(journals),
        journals,
    };
    tell_unlawful(alloc, page, judged)
}
