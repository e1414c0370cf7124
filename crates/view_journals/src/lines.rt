//! The lines of turns, and of messages that no turn took.
use crate::fetched::Fetched;
use crate::messages::{actor_at, put_received, put_sent};
use crate::names::{put_actor, put_controller, put_name, put_states};
use crate::notes::{have_trouble, put_notes};
use crate::standing::Actors;
use crate::turns::Turn;
use journal::{Did, Entry, Left};
use room_kinds::{Msg, SlotId};
use room_wiring::Wiring;
use view_pages::Page;

/// The word for what a turn did, and a blank.
pub fn word_of(did: Did) -> &'static [u8] {
    match did {
        Did::Duty => b"duty ",
        Did::Handled { .. } => b"handled ",
        Did::Deferred { .. } => b"deferred ",
        Did::Unhandled { .. } => b"unhandled ",
        Did::Stale { .. } => b"stale ",
        Did::Empty { .. } => b"empty ",
    }
}

/// Whether a turn took its message away with nothing done.
pub fn is_untaken(did: Did) -> bool {
    match did {
        Did::Unhandled { .. } | Did::Stale { .. } | Did::Empty { .. } => true,
        Did::Duty | Did::Handled { .. } | Did::Deferred { .. } => false,
    }
}

/// Whether a turn tells of something that its author hardly meant.
pub fn is_trouble(turn: &Turn<'_>) -> bool {
    is_untaken(turn.did) || have_trouble(turn.notes, turn.said)
}

/// What stands before a line: whether it tells of something that its author hardly meant.
pub fn put_mark(page: &mut Page, is_trouble: bool) {
    page.put(if is_trouble { b"! " } else { b"  " });
}

/// What entries post, as the actors of a slot see it, behind a semicolon.
pub fn put_sends(page: &mut Page, wiring: &Wiring, slot: Option<SlotId>, entries: &[Entry]) {
    let mut lead: &[u8] = b"; sends ";
    for entry in entries {
        if let Entry::Post { msg, .. } = entry {
            page.put(lead);
            put_sent(page, wiring, slot, msg);
            lead = b", ";
        }
    }
}

/// The message of a turn, and who sent it.
fn put_taken(page: &mut Page, wiring: &Wiring, turn: &Turn<'_>, msg: Option<&Msg>) {
    match msg {
        Some(msg) => put_received(page, wiring, msg),
        None => put_name(page, wiring, turn.from, turn.sent),
    }
}

/// What became of the message of a turn, where who stands where before it is known.
fn put_outcome(page: &mut Page, wiring: &Wiring, actors: &Actors, did: Did) {
    match did {
        Did::Duty => {}
        Did::Handled { who, state }
        | Did::Deferred { who, state }
        | Did::Unhandled { who, state } => {
            page.put(b", ");
            put_states(page, wiring, who.slot, actors.state_of(who), state);
        }
        Did::Stale { .. } => page.put(b", whose actor is gone"),
        Did::Empty { .. } => page.put(b", where nobody is"),
    }
}

/// The actor of a turn, or who is meant by its message.
fn put_who(page: &mut Page, wiring: &Wiring, did: Did, msg: Option<&Msg>) {
    match did {
        Did::Handled { who, .. } | Did::Deferred { who, .. } | Did::Unhandled { who, .. } => {
            put_actor(page, wiring, who);
        }
        Did::Stale { target } | Did::Empty { target } => put_actor(page, wiring, target),
        Did::Duty => {
            if let Some(msg) = msg {
                put_actor(page, wiring, actor_at(msg.target));
            }
        }
    }
}

/// A turn's stamp, its controller, its actor, and what it did with which message.
pub fn put_head(page: &mut Page, wiring: &Wiring, fetched: &Fetched<'_>, turn: &Turn<'_>) {
    let msg = fetched.get(turn.name());
    page.put_number(turn.stamp.0);
    page.put(b" ");
    put_controller(page, wiring, turn.controller);
    page.put(b" ");
    put_who(page, wiring, turn.did, msg);
    page.put(b": ");
    page.put(word_of(turn.did));
    put_taken(page, wiring, turn, msg);
}

/// The line of a turn: its head, its actor's states, its notes, and what it sent.
pub fn tell_turn(
    page: &mut Page,
    wiring: &Wiring,
    fetched: &Fetched<'_>,
    actors: &Actors,
    turn: &Turn<'_>,
) {
    put_mark(page, is_trouble(turn));
    put_head(page, wiring, fetched, turn);
    put_outcome(page, wiring, actors, turn.did);
    put_notes(
        page,
        wiring,
        turn.did.is_duty(),
        turn.did.speaker(),
        turn.notes,
        turn.said,
    );
    put_sends(page, wiring, turn.slot(fetched), turn.behind);
    page.end_line();
}

/// A message that no turn took, and where it is.
pub fn put_left(page: &mut Page, wiring: &Wiring, left: &Left) {
    page.put(b"left ");
    put_controller(page, wiring, usize::from(left.to.0));
    page.put(b" ");
    put_actor(page, wiring, actor_at(left.msg.target));
    page.put(if left.pending {
        b": pending "
    } else {
        b": not fetched "
    });
    put_received(page, wiring, &left.msg);
}

/// The word for how a run ended.
pub fn end_word(is_done: bool) -> &'static [u8] {
    if is_done { b"done" } else { b"spent" }
}
