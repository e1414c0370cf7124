//! The notes of starts and turns in words.
use crate::names::{put_actor, put_port, put_state};
use crate::redone::{Said, Sayings};
use crate::unheard::{put_said, why_unheard};
use journal::speaker_after;
use room_kinds::{Note, SlotId};
use room_wiring::Wiring;
use view_pages::Page;

/// Whether a note, with what was said where nobody hears it, tells of something that its author hardly meant.
pub fn is_trouble_note(note: &Note, said: Option<&Said>) -> bool {
    match note {
        Note::Zero | Note::NoMessage => true,
        Note::Unbound { .. } => match said {
            Some(said) => !said.goes_out,
            None => true,
        },
        Note::Down { lost, .. } => *lost > 0,
        Note::Recall { .. } | Note::Up { .. } => false,
    }
}

/// Whether one of the notes tells of something that its author hardly meant.
pub fn have_trouble(notes: &[Note], said: &[Said]) -> bool {
    let mut sayings = Sayings::of(said);
    for note in notes {
        if is_trouble_note(note, sayings.with(note)) {
            return true;
        }
    }
    false
}

/// What an actor of a slot says that nobody hears, and why.
fn put_unheard(page: &mut Page, wiring: &Wiring, slot: SlotId, said: &Said) {
    page.put(b"says ");
    put_said(page, wiring, slot, said);
    page.put(b", ");
    page.put(why_unheard(wiring, slot, said));
}

/// A send at a place of a port of who speaks, which leads to nobody; what is said there where it is known.
fn put_unbound(
    page: &mut Page,
    wiring: &Wiring,
    speaker: Option<SlotId>,
    note: &Note,
    said: Option<&Said>,
) {
    match (speaker, note, said) {
        (Some(slot), _, Some(said)) => put_unheard(page, wiring, slot, said),
        (Some(slot), Note::Unbound { port, place }, None) => {
            page.put(b"unbound ");
            put_port(page, wiring, slot, *port, *place);
        }
        _ => page.put(b"unbound "),
    }
}

/// How many deferred messages were lost with an actor, if any were.
fn put_lost(page: &mut Page, lost: u64) {
    if lost > 0 {
        page.put(b", deferred and lost: ");
        page.put_number(lost);
    }
}

/// A note of a start or a turn, at which actors of this slot speak, and what was said where nobody hears it.
pub fn put_note(
    page: &mut Page,
    wiring: &Wiring,
    speaker: Option<SlotId>,
    note: &Note,
    said: Option<&Said>,
) {
    match note {
        Note::Zero => page.put(b"division by 0"),
        Note::NoMessage => page.put(b"defer without a message"),
        Note::Unbound { .. } => put_unbound(page, wiring, speaker, note, said),
        Note::Recall { count } => {
            page.put(b"recalls ");
            page.put_number(*count);
        }
        Note::Up { who, state } => {
            page.put(b"up ");
            put_actor(page, wiring, *who);
            page.put(b" ");
            put_state(page, wiring, who.slot, *state);
        }
        Note::Down { who, lost } => {
            page.put(b"down ");
            put_actor(page, wiring, *who);
            put_lost(page, *lost);
        }
    }
}

/// The notes of a start or a turn, each behind a semicolon, with what was said where nobody hears it.
pub fn put_notes(
    page: &mut Page,
    wiring: &Wiring,
    is_duty: bool,
    speaker: Option<SlotId>,
    notes: &[Note],
    said: &[Said],
) {
    let mut speaking = speaker;
    let mut sayings = Sayings::of(said);
    for note in notes {
        page.put(b"; ");
        put_note(page, wiring, speaking, note, sayings.with(note));
        speaking = speaker_after(is_duty, speaking, *note);
    }
}
