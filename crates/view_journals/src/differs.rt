//! Where journals first tell something else than the charts of the model do.
use crate::lines::word_of;
use crate::names::{put_actor, put_controller, put_port, put_state};
use crate::redone::{Deed, Difference, Redone};
use crate::unheard::put_said;
use journal::Did;
use room_kinds::SlotId;
use room_wiring::Wiring;
use view_pages::Page;

/// What a turn of an actor of a slot came to, and in which state.
fn put_did(page: &mut Page, wiring: &Wiring, slot: SlotId, did: Did) {
    let word = word_of(did);
    page.put(word.strip_suffix(b" ").unwrap_or(word));
    match did {
        Did::Handled { state, .. } | Did::Deferred { state, .. } | Did::Unhandled { state, .. } => {
            page.put(b", ");
            put_state(page, wiring, slot, state);
        }
        Did::Duty | Did::Stale { .. } | Did::Empty { .. } => {}
    }
}

/// What an actor of a slot did.
fn put_deed(page: &mut Page, wiring: &Wiring, slot: SlotId, deed: &Deed) {
    match deed {
        Deed::Stands(state) => put_state(page, wiring, slot, *state),
        Deed::Turns(did) => put_did(page, wiring, slot, *did),
        Deed::Says(said) => {
            page.put(b"says ");
            put_said(page, wiring, slot, said);
        }
        Deed::Unbound { port, place } => {
            page.put(b"unbound ");
            put_port(page, wiring, slot, *port, *place);
        }
        Deed::Silence => page.put(b"says nothing more"),
        Deed::Nobody => page.put(b"nobody is there"),
    }
}

/// Where journals differ from what the charts of a model do, and what each of both says.
pub fn put_difference(page: &mut Page, wiring: &Wiring, difference: &Difference) {
    page.put(b"not a run of this model, first at ");
    match difference.stamp {
        Some(stamp) => page.put_number(stamp.0),
        None => page.put(b"start"),
    }
    page.put(b" ");
    put_controller(page, wiring, difference.controller);
    page.put(b" ");
    put_actor(page, wiring, difference.who);
    page.put(b": ");
    put_deed(page, wiring, difference.who.slot, &difference.told);
    page.put(b"; by its chart ");
    put_deed(page, wiring, difference.who.slot, &difference.done);
}

/// Tells that journals are those of another model, if they are.
pub fn tell_difference(page: &mut Page, wiring: &Wiring, redone: &Redone) {
    if let Some(difference) = &redone.differs {
        page.put(b"! ");
        put_difference(page, wiring, difference);
        page.end_line();
    }
}
