//! The system at stamps of journals.
ghost use Rattle.inject_reader.specs.Fitting.{LinesFit};
ghost use Rattle.room_verify.specs.Worlds.{Replays};

use crate::judged::{Judged, Texts};
use crate::left_faults::lefts_of;
use crate::reached::{Reached, Stop, begin, lead_on};
use crate::telling::tell_whole;
use controller_actors::Plant;
use inject_reader::Line;
use journal::Left;
use room_show::Snapshot;
use room_verify::{Seen, Verdict, show};
use std::alloc::{AllocError, Global};
use view_pages::Page;

/// The system after all that happened up to a stamp.
#[derive(Drop)]
pub struct Moment {
    pub snapshot: Snapshot,
    /// The messages that wait there, by receiver: those that were fetched and had no turn yet, and those on their
    /// way.
    pub waiting: Vec<Left>,
}

/// The verdict that is told of journals in place of the system at a stamp, if one is. Those that fit a wiring have one
/// for each controller.
fn verdict_up_to(alloc: Global, judged: Judged<'_>, at: u64) -> Result<Option<Verdict>, AllocError>
    requires fit { LinesFit judged.plant.now.wiring judged.lines.now }
{
    let plant = judged.plant;
    if judged.journals.controllers.len() != usize::from(plant.wiring.controller_count()) {
        return Ok(Some(Verdict::Left));
    }
    match show(alloc, plant, judged.lines, judged.journals, at)? {
        Seen::Shown(_) => Ok(None),
        Seen::Unlawful(verdict) => Ok(Some(verdict)),
    }
}

/// Whether the system can be seen at a stamp of journals; that it can't be is told, and why.
fn is_seen(
    alloc: Global,
    page: &mut Page,
    judged: Judged<'_>,
    texts: Texts<'_>,
    at: u64,
) -> Result<bool, AllocError>
    requires fit { LinesFit judged.plant.now.wiring judged.lines.now }
{
    match verdict_up_to(alloc, judged, at)? {
        None => Ok(true),
        Some(verdict) => {
            tell_whole(alloc, page, judged, texts, verdict)?;
            Ok(false)
        }
    }
}

/// What is seen where a replay stands.
fn moment_of(
    alloc: Global,
    plant: &Plant,
    lines: &[Line],
    reached: &Reached,
    at: u64,
) -> Result<Moment, AllocError>
    requires replays { Replays plant.now lines.now reached.now.replay }
{
    let _lines = lines;
    Ok(Moment {
        snapshot: reached.replay.view(alloc, plant, at)?,
        waiting: lefts_of(alloc, &reached.replay, plant.wiring.controller_count())?,
    })
}

/// The system at a stamp of journals; none where it can't be seen: then it is told why, as the verdict is.
pub fn moment_at(
    alloc: Global,
    page: &mut Page,
    judged: Judged<'_>,
    texts: Texts<'_>,
    at: u64,
) -> Result<Option<Moment>, AllocError>
    requires fit { LinesFit judged.plant.now.wiring judged.lines.now }
{
    if !is_seen(alloc, page, judged, texts, at)? {
        return Ok(None);
    }
    let (plant, lines) = (judged.plant, judged.lines);
    let begun = begin(alloc, plant, lines)?;
    match lead_on(begun, plant, lines, judged.journals, Stop::Behind(at))? {
        Some(reached) => Ok(Some(moment_of(alloc, plant, lines, &reached, at)?)),
        None => Ok(None),
    }
}

/// The system at two stamps of journals, of which the second one isn't below the first one; none where it can't be
/// seen at the second one: then it is told why, as the verdict is.
pub(crate) fn moments_at(
    alloc: Global,
    page: &mut Page,
    judged: Judged<'_>,
    texts: Texts<'_>,
    first: u64,
    second: u64,
) -> Result<Option<(Moment, Moment)>, AllocError>
    requires fit { LinesFit judged.plant.now.wiring judged.lines.now }
{
    if !is_seen(alloc, page, judged, texts, second)? {
        return Ok(None);
    }
    let (plant, lines) = (judged.plant, judged.lines);
    let begun = begin(alloc, plant, lines)?;
    let Some(reached) = lead_on(begun, plant, lines, judged.journals, Stop::Behind(first))? else {
        return Ok(None);
    };
    let before = moment_of(alloc, plant, lines, &reached, first)?;
    match lead_on(reached, plant, lines, judged.journals, Stop::Behind(second))? {
        Some(reached) => {
            let after = moment_of(alloc, plant, lines, &reached, second)?;
            Ok(Some((before, after)))
        }
        None => Ok(None),
    }
}
