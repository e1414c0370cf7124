//! Whether a home can be lent to an import place.
ghost use Rattle.std.specs.Prelude.{◌≡◌, ◌<◌, not, ◌&&◌, length};
ghost use Rattle.std.specs.List.{list_any};
ghost use Rattle.room_wiring.specs.Places.{port_count, place_count};
ghost use Rattle.actor_duties.specs.Words.{is_end, is_joined, is_incarnation, joined_at, places_of};
ghost use Rattle.actor_duties.specs.Imports.{is_taken_at, is_port_taken};
ghost use Rattle.frame_service.specs.frame_imports.Numbered.{ArePortsNumbered};

use crate::frame_imports::import_places::is_same_actor;
use room_kinds::Incarnation;
use room_wiring::{Partner, Wiring};
use service_messages::joined_at;

/// Whether a partner is an end place.
pub(crate) fn is_end(partner: Partner) -> bool
    ensures { result ≡ is_end partner }
{
    match partner {
        Partner::End { .. } => true,
        Partner::Socket { .. } => false,
        Partner::Nobody => false,
    }
}

fn is_joined(partner: Partner) -> bool
    ensures { result ≡ is_joined partner }
{
    !matches!(partner, Partner::Nobody)
}

/// Whether the same place of another one of these plugs is joined to an end place.
fn is_plugged(
    wiring: &Wiring,
    plugs: &[Incarnation],
    import: Incarnation,
    port: u16,
    place: u32,
) -> bool
    ensures { result ≡ list_any
        (λ q. not (is_incarnation q import) && is_end (joined_at wiring.now q.slot.0 port place))
        plugs.now }
{
    plugs.iter().any(|plug| {
        !is_same_actor(*plug, import)
            && is_end(joined_at(wiring, plug.slot, port, u64::from(place)))
    })
}

/// Whether a place stands in the way: the import place's is joined to an end place, and the home's own
/// place is joined to something, or that of another plug to an end place.
fn is_taken_at(
    wiring: &Wiring,
    plugs: &[Incarnation],
    import: Incarnation,
    home: Incarnation,
    port: u16,
    place: u32,
) -> bool
    ensures { result ≡ is_taken_at wiring.now plugs.now import home port place }
{
    is_end(joined_at(wiring, import.slot, port, u64::from(place)))
        && (is_joined(joined_at(wiring, home.slot, port, u64::from(place)))
            || is_plugged(wiring, plugs, import, port, place))
}

/// Whether a place of a port does.
#[tactic(auto, using(service_messages::proofs::slot_runs::Searched::found_in, service_messages::proofs::slot_runs::Searched::none_in))]
fn is_any_place_taken(
    wiring: &Wiring,
    plugs: &[Incarnation],
    import: Incarnation,
    home: Incarnation,
    port: u16,
) -> bool
    requires slot { import.slot.0 < length wiring.now.slots }
    requires port { port < port_count wiring.now import.slot.0 }
    ensures { result ≡ list_any (is_taken_at wiring.now plugs.now import home port) (places_of
        wiring.now import.slot.0 port) }
{
    for place in 0..wiring.places(import.slot, port) {
        if is_taken_at(wiring, plugs, import, home, port, place) {
            return true;
        }
    }
    false
}

/// Whether a place of any port does. The time is in proportion to the number of the import place's
/// places, and to that of the plugs.
#[tactic(auto, using(service_messages::proofs::slot_runs::Searched::found_in, service_messages::proofs::slot_runs::Searched::none_in), unfolding(actor_duties::specs::Imports::is_port_taken))]
pub fn is_port_taken(
    wiring: &Wiring,
    plugs: &[Incarnation],
    import: Incarnation,
    home: Incarnation,
) -> bool
    requires slot { import.slot.0 < length wiring.now.slots }
    requires ports { ArePortsNumbered wiring.now }
    ensures { result ≡ is_port_taken wiring.now plugs.now import home }
{
    for number in 0..wiring.port_count(import.slot) {
        if is_any_place_taken(wiring, plugs, import, home, number as u16) {
            return true;
        }
    }
    false
}
