//! What the actors of a run say that nobody hears: the outputs of a model, whose outermost ports lead outside.
use crate::differs::tell_difference;
use crate::names::{put_actor, put_controller, put_port};
use crate::redone::{Redone, Said, Sayings};
use crate::told::{Start, starts_of};
use crate::turns::{Turn, turns_of};
use crate::unheard::{put_said, why_unheard};
use journal::{Did, Journals};
use room_kinds::{Incarnation, Note, SlotId};
use room_wiring::Wiring;
use std::alloc::{AllocError, Global};
use view_pages::Page;

/// When something is said: the stamp of the turn, none at a start, and the controller.
#[derive(Clone, Copy)]
struct Moment {
    stamp: Option<u64>,
    controller: usize,
}

/// Who speaks as a turn begins: its actor; in a duty nobody.
fn speaker_of(did: Did) -> Option<Incarnation> {
    match did {
        Did::Handled { who, .. } | Did::Deferred { who, .. } | Did::Unhandled { who, .. } => {
            Some(who)
        }
        Did::Duty | Did::Stale { .. } | Did::Empty { .. } => None,
    }
}

/// When something is said, and who says it.
fn put_head(page: &mut Page, wiring: &Wiring, at: Moment, who: Incarnation) {
    match at.stamp {
        Some(stamp) => page.put_number(stamp),
        None => page.put(b"start"),
    }
    page.put(b" ");
    put_controller(page, wiring, at.controller);
    page.put(b" ");
    put_actor(page, wiring, who);
    page.put(b": ");
}

/// What an actor of a slot says, and why nobody hears it, where it doesn't go out of the model.
fn put_output(page: &mut Page, wiring: &Wiring, slot: SlotId, said: &Said) {
    put_said(page, wiring, slot, said);
    if !said.goes_out {
        page.put(b", ");
        page.put(why_unheard(wiring, slot, said));
    }
}

/// The line of a note, if it is of a send that leads to nobody.
fn tell_note(
    page: &mut Page,
    wiring: &Wiring,
    at: Moment,
    who: Incarnation,
    note: &Note,
    said: Option<&Said>,
) {
    let Note::Unbound { port, place } = note else {
        return;
    };
    put_head(page, wiring, at, who);
    match said {
        Some(said) => put_output(page, wiring, who.slot, said),
        None => {
            page.put(b"unbound ");
            put_port(page, wiring, who.slot, *port, *place);
        }
    }
    page.end_line();
}

/// The lines of a start.
fn tell_start(page: &mut Page, wiring: &Wiring, start: &Start<'_>) {
    let at = Moment {
        stamp: None,
        controller: start.controller,
    };
    let mut sayings = Sayings::of(start.said);
    for note in start.notes {
        tell_note(page, wiring, at, start.who, note, sayings.with(note));
    }
}

/// The lines of a turn. In a duty those speak who come up.
fn tell_turn(page: &mut Page, wiring: &Wiring, turn: &Turn<'_>) {
    let at = Moment {
        stamp: Some(turn.stamp.0),
        controller: turn.controller,
    };
    let mut sayings = Sayings::of(turn.said);
    let mut speaker = speaker_of(turn.did);
    for note in turn.notes {
        if let Note::Up { who, .. } = note {
            speaker = Some(*who);
        }
        let said = sayings.with(note);
        if let Some(who) = speaker {
            tell_note(page, wiring, at, who, note, said);
        }
    }
}

/// Tells what the actors of a run say that nobody hears: what goes out of the model, and what is joined to nothing
/// within it. A line says when, who and what; the starts come first, then the turns in their order.
pub fn tell_outputs(
    alloc: Global,
    page: &mut Page,
    wiring: &Wiring,
    journals: &Journals,
    redone: &Redone,
) -> Result<(), AllocError> {
    tell_difference(page, wiring, redone);
    let before = page.len();
    let starts = starts_of(alloc, journals, redone)?;
    for start in starts.as_slice() {
        tell_start(page, wiring, start);
    }
    let turns = turns_of(alloc, journals, redone)?;
    for turn in turns.as_slice() {
        tell_turn(page, wiring, turn);
    }
    if page.len() == before {
        page.put_line(b"none");
    }
    Ok(())
}
