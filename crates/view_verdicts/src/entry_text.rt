//! Entries as the text of journals has them in form 1, which repeats what is fetched (docs/JOURNAL.md).
use journal::{Did, Entry, Left, naming, speaker_after};
use room_kinds::{ControllerId, Endpoint, Incarnation, Msg, Note, SlotId, Stamp};
use room_wiring::Wiring;
use view_journals::{put_name, put_path};
use view_pages::Page;

/// An actor, with its generation.
fn put_who(page: &mut Page, wiring: &Wiring, who: Incarnation) {
    if let Some(slot) = wiring.get_slot(who.slot) {
        put_path(page, &slot.path);
    }
    page.put(b"#");
    page.put_number(u64::from(who.generation.0));
}

/// An actor, and its state behind it.
fn put_standing(page: &mut Page, wiring: &Wiring, who: Incarnation, state: u16) {
    put_who(page, wiring, who);
    page.put(b" ");
    page.put(naming::state_label(wiring, who.slot, state));
}

/// A place of a port of an actor.
fn put_end(page: &mut Page, wiring: &Wiring, end: Endpoint) {
    let who = Incarnation {
        slot: end.slot,
        generation: end.generation,
    };
    put_who(page, wiring, who);
    page.put(b".");
    page.put(wiring.port_name(end.slot, end.port));
    page.put(b"[");
    page.put_number(u64::from(end.place));
    page.put(b"]");
}

/// A message behind its name: its priority, from where and where to, its signal and its numbers.
fn put_message(page: &mut Page, wiring: &Wiring, msg: &Msg) {
    page.put_number(u64::from(msg.prio.0));
    page.put(b" ");
    match msg.source {
        Some(source) => put_end(page, wiring, source),
        None => page.put(b"-"),
    }
    page.put(b" ");
    put_end(page, wiring, msg.target);
    page.put(b" ");
    page.put(naming::signal_name(wiring, msg));
    for number in msg.payload.numbers() {
        page.put(b" ");
        page.put_signed(*number);
    }
}

/// What a turn came to.
fn put_did(page: &mut Page, wiring: &Wiring, did: Did) {
    match did {
        Did::Duty => page.put(b"duty"),
        Did::Handled { who, state } => {
            page.put(b"handled ");
            put_standing(page, wiring, who, state);
        }
        Did::Deferred { who, state } => {
            page.put(b"deferred ");
            put_standing(page, wiring, who, state);
        }
        Did::Unhandled { who, state } => {
            page.put(b"unhandled ");
            put_standing(page, wiring, who, state);
        }
        Did::Stale { target } => {
            page.put(b"stale ");
            put_who(page, wiring, target);
        }
        Did::Empty { target } => {
            page.put(b"empty ");
            put_who(page, wiring, target);
        }
    }
}

/// A note of who speaks at this slot.
fn put_note(page: &mut Page, wiring: &Wiring, speaker: Option<SlotId>, note: &Note) {
    match note {
        Note::Zero => page.put(b"note zero"),
        Note::NoMessage => page.put(b"note nomessage"),
        Note::Unbound { port, place } => {
            page.put(b"note unbound ");
            page.put(naming::speaking_port_name(wiring, speaker, *port));
            page.put(b"[");
            page.put_signed(*place);
            page.put(b"]");
        }
        Note::Recall { count } => {
            page.put(b"note recall ");
            page.put_number(*count);
        }
        Note::Up { who, state } => {
            page.put(b"note up ");
            put_standing(page, wiring, *who, *state);
        }
        Note::Down { who, lost } => {
            page.put(b"note down ");
            put_who(page, wiring, *who);
            page.put(b" ");
            page.put_number(*lost);
        }
    }
}

/// Notes, each on a line of its own behind what stands there.
fn put_notes(
    page: &mut Page,
    wiring: &Wiring,
    is_duty: bool,
    speaker: Option<SlotId>,
    notes: &[Note],
) {
    let mut speaking = speaker;
    for note in notes {
        page.put(b"\n        ");
        put_note(page, wiring, speaking, note);
        speaking = speaker_after(is_duty, speaking, *note);
    }
}

/// A fetch, with the message that it repeats.
fn put_fetch(page: &mut Page, wiring: &Wiring, stamp: Stamp, msg: &Msg) {
    page.put_number(stamp.0);
    page.put(b" fetch ");
    put_name(page, wiring, msg.from, msg.stamp);
    page.put(b" ");
    put_message(page, wiring, msg);
}

fn put_post(page: &mut Page, wiring: &Wiring, stamp: Stamp, msg: &Msg) {
    page.put_number(stamp.0);
    page.put(b" post ");
    page.put_number(u64::from(msg.to.0));
    page.put(b" ");
    put_message(page, wiring, msg);
}

/// A turn without its notes.
fn put_turn(
    page: &mut Page,
    wiring: &Wiring,
    stamp: Stamp,
    from: ControllerId,
    sent: Stamp,
    did: Did,
) {
    page.put_number(stamp.0);
    page.put(b" turn ");
    put_name(page, wiring, from, sent);
    page.put(b" ");
    put_did(page, wiring, did);
}

/// An entry as the text has it, and below it its notes. The line isn't ended.
pub(crate) fn put_entry(page: &mut Page, wiring: &Wiring, entry: &Entry) {
    match entry {
        Entry::Start { who, state, notes } => {
            page.put(b"start ");
            put_standing(page, wiring, *who, *state);
            put_notes(page, wiring, false, Some(who.slot), notes.as_slice());
        }
        Entry::Fetch { stamp, msg } => put_fetch(page, wiring, *stamp, msg),
        Entry::Turn {
            stamp,
            from,
            sent,
            did,
            notes,
        } => {
            put_turn(page, wiring, *stamp, *from, *sent, *did);
            put_notes(page, wiring, did.is_duty(), did.speaker(), notes.as_slice());
        }
        Entry::Post { stamp, msg } => put_post(page, wiring, *stamp, msg),
    }
}

/// What is left, as the text has it. The line isn't ended.
pub(crate) fn put_left(page: &mut Page, wiring: &Wiring, left: &Left) {
    page.put(b"left ");
    page.put_number(u64::from(left.to.0));
    page.put(if left.pending {
        b" pending "
    } else {
        b" lane "
    });
    put_name(page, wiring, left.msg.from, left.msg.stamp);
    page.put(b" ");
    put_message(page, wiring, &left.msg);
}
