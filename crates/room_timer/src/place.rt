//! The places of timers, as keys of a map.
ghost use Rattle.std.specs.Prelude.{◌≡◌, filter, not};
ghost use Rattle.std.specs.List.{list_any};
ghost use Rattle.room_timer.specs.Timers.{is_down};
ghost use Rattle.room_timer.specs.Turns.{key_of, end_of};

use crate::ends::went_down;
use room_kinds::{Endpoint, Generation, Note, SlotId};
use std::collections::BTreeMap;

/// The numbers of an endpoint, which have an order.
#[derive(Clone, Copy, Drop, PartialEq, Eq, PartialOrd, Ord)]
pub(crate) struct Place {
    pub(crate) slot: SlotId,
    pub(crate) generation: Generation,
    pub(crate) port: u16,
    pub(crate) place: u32,
}

/// The numbers of an endpoint.
pub(crate) fn key_of(at: Endpoint) -> Place
    ensures { result ≡ key_of at }
{
    Place {
        slot: at.slot,
        generation: at.generation,
        port: at.port,
        place: at.place,
    }
}

/// The endpoint with these numbers.
fn end_of(place: &Place) -> Endpoint
    ensures { result ≡ end_of place.now }
{
    Endpoint {
        slot: place.slot,
        generation: place.generation,
        port: place.port,
        place: place.place,
    }
}

/// Places whose actors went down have no turn any more.
pub(crate) fn keep_turns(turns: &mut BTreeMap<Place, u64>, notes: &[Note])
    ensures { turns.new.entries
        ≡ filter (λ e. not (list_any (is_down (end_of e.0)) notes.now)) turns.old.entries }
{
    turns.retain(|place, _turn| !went_down(notes, end_of(place)));
}
