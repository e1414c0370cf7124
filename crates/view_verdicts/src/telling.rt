//! Verdicts on journals, told.
ghost use Rattle.inject_reader.specs.Fitting.{LinesFit};

use crate::end_faults::end_fault;
use crate::judged::{Judged, Texts, entries_of};
use crate::left_faults::lefts_in;
use crate::places::{Part, Spot};
use crate::reached::stamp_of;
use crate::refused::first_refused;
use crate::sheet::Sheet;
use crate::words::{meaning_of, put_verdict};
use controller_actors::Plant;
use inject_reader::Line;
use journal::{Entry, Journals};
use room_kinds::{ControllerId, Stamp};
use room_verify::{Replay, Verdict, verify};
use std::alloc::{AllocError, Global};
use view_pages::Page;

/// The verdict on journals. Those that fit a wiring have one for each controller.
fn verdict_of(
    alloc: Global,
    plant: &Plant,
    lines: &[Line],
    fuel: u64,
    journals: &Journals,
) -> Result<Verdict, AllocError>
    requires fit { LinesFit plant.now.wiring lines.now }
{
    if journals.controllers.len() != usize::from(plant.wiring.controller_count()) {
        return Ok(Verdict::Left);
    }
    verify(alloc, plant, lines, fuel, journals)
}

/// Whether an entry is one that happened, with a stamp.
fn happened_at(entry: &Entry, stamp: Stamp) -> bool {
    !matches!(entry, Entry::Start { .. }) && stamp_of(entry) == stamp.0
}

/// The entry of a party with a stamp.
fn spot_of(journals: &Journals, party: ControllerId, stamp: Stamp) -> Option<Spot> {
    let party = usize::from(party.0);
    let at = entries_of(journals, party)
        .iter()
        .position(|entry| happened_at(entry, stamp))?;
    Some(Spot { party, at })
}

/// Tells why the entry of a party with a stamp is refused.
fn tell_entry(
    page: &mut Page,
    sheet: Sheet<'_>,
    plant: &Plant,
    lines: &[Line],
    party: ControllerId,
    stamp: Stamp,
) -> Result<(), AllocError>
    requires fit { LinesFit plant.now.wiring lines.now }
{
    let Some(spot) = spot_of(sheet.journals, party, stamp) else {
        sheet.show(page, Part::Head(usize::from(party.0)));
        return Ok(());
    };
    match first_refused(sheet.alloc, plant, lines, sheet.journals, spot)? {
        Some(refused) => return sheet.tell_refused(page, spot, &refused),
        None => sheet.show(page, Part::Entry(spot)),
    }
    Ok(())
}

/// Tells what is left.
fn tell_left(
    page: &mut Page,
    sheet: Sheet<'_>,
    plant: &Plant,
    lines: &[Line],
) -> Result<(), AllocError>
    requires fit { LinesFit plant.now.wiring lines.now }
{
    match lefts_in(sheet.alloc, plant, lines, sheet.journals)? {
        Some(lefts) => return sheet.tell_left(page, &lefts),
        None => sheet.show(page, Part::End),
    }
    Ok(())
}

/// Tells why the run hasn't ended.
fn tell_ended(
    page: &mut Page,
    sheet: Sheet<'_>,
    plant: &Plant,
    lines: &[Line],
) -> Result<(), AllocError>
    requires fit { LinesFit plant.now.wiring lines.now }
{
    match end_fault(sheet.alloc, plant, lines, sheet.journals, sheet.fuel)? {
        Some(unended) => return sheet.tell_unended(page, &unended),
        None => sheet.show(page, Part::End),
    }
    Ok(())
}

/// Tells which starts the journal of a controller begins with.
fn tell_start(
    page: &mut Page,
    sheet: Sheet<'_>,
    plant: &Plant,
    c: ControllerId,
) -> Result<(), AllocError> {
    let begun = Replay::start(sheet.alloc, plant)?;
    sheet.tell_start(page, usize::from(c.0), begun.entries.as_slice());
    Ok(())
}

/// Tells what is wrong with journals of which this is the verdict.
fn tell_fault(
    page: &mut Page,
    sheet: Sheet<'_>,
    plant: &Plant,
    lines: &[Line],
    verdict: Verdict,
) -> Result<(), AllocError>
    requires fit { LinesFit plant.now.wiring lines.now }
{
    match verdict {
        Verdict::Order(party) => return sheet.tell_order(page, usize::from(party.0)),
        Verdict::Start(c) => return tell_start(page, sheet, plant, c),
        Verdict::Entry(party, stamp) => return tell_entry(page, sheet, plant, lines, party, stamp),
        Verdict::Left => return tell_left(page, sheet, plant, lines),
        Verdict::Fuel(c) => sheet.tell_fuel(page, usize::from(c.0)),
        Verdict::Ended => return tell_ended(page, sheet, plant, lines),
        Verdict::Prompt(c, stamp) => return sheet.tell_prompt(page, c, stamp.0),
        Verdict::Lawful => {}
    }
    Ok(())
}

/// Tells whether journals are those of a run, and else why not: the verdict, the place in their text, what
/// would have stood there or why nothing could, and from which earlier entries that follows. It says
/// whether they are.
pub fn tell_verdict(
    alloc: Global,
    page: &mut Page,
    judged: Judged<'_>,
    texts: Texts<'_>,
) -> Result<bool, AllocError>
    requires fit { LinesFit judged.plant.now.wiring judged.lines.now }
{
    let plant = judged.plant;
    let lines = judged.lines;
    let verdict = verdict_of(alloc, plant, lines, judged.fuel, judged.journals)?;
    if verdict == Verdict::Lawful {
        page.put_line(b"lawful");
        return Ok(true);
    }
    tell_whole(alloc, page, judged, texts, verdict)?;
    Ok(false)
}

/// Tells a verdict on journals: what it means, the place in their text, what would have stood there or why nothing
/// could, and from which earlier entries that follows.
pub(crate) fn tell_whole(
    alloc: Global,
    page: &mut Page,
    judged: Judged<'_>,
    texts: Texts<'_>,
    verdict: Verdict,
) -> Result<(), AllocError>
    requires fit { LinesFit judged.plant.now.wiring judged.lines.now }
{
    let sheet = Sheet {
        alloc,
        wiring: &judged.plant.wiring,
        journals: judged.journals,
        texts,
        fuel: judged.fuel,
    };
    page.put(texts.journals.name.as_bytes());
    page.put(b" is unlawful: ");
    put_verdict(page, sheet.wiring, verdict);
    page.end_line();
    page.put_meaning(meaning_of(verdict));
    page.end_line();
    tell_fault(page, sheet, judged.plant, judged.lines, verdict)
}

/// The verdict on journals, where it isn't that they are lawful.
pub(crate) fn verdict_if_unlawful(
    alloc: Global,
    judged: Judged<'_>,
) -> Result<Option<Verdict>, AllocError>
    requires fit { LinesFit judged.plant.now.wiring judged.lines.now }
{
    let verdict = verdict_of(
        alloc,
        judged.plant,
        judged.lines,
        judged.fuel,
        judged.journals,
    )?;
    if verdict == Verdict::Lawful {
        return Ok(None);
    }
    Ok(Some(verdict))
}

/// Tells in one line that journals aren't those of a run, if they aren't.
pub fn tell_unlawful(alloc: Global, page: &mut Page, judged: Judged<'_>) -> Result<(), AllocError>
    requires fit { LinesFit judged.plant.now.wiring judged.lines.now }
{
    let Some(verdict) = verdict_if_unlawful(alloc, judged)? else {
        return Ok(());
    };
    page.put(b"! not a run of this model over these injections: ");
    put_verdict(page, &judged.plant.wiring, verdict);
    page.put_line(b"; `why MODEL INJECT JOURNALS` tells more");
    Ok(())
}
