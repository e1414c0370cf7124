//! What a request to the name table says.
ghost use Rattle.std.specs.Prelude.{◌≡◌, ◌&&◌, ◌==◌, ◌||◌};
ghost use Rattle.actor_duties.specs.Words.{is_endpoint, is_sap, is_spp, protocol_of};
ghost use Rattle.actor_duties.specs.Names.{is_name_request};
ghost use Rattle.layer_service.specs.name_service.Asking.{name_in};

use room_kinds::{ControllerId, Endpoint};
use room_wiring::Wiring;
use service_messages::{is_same_endpoint, is_sap, is_spp};

/// Whether a message is from place 0 of a service point, which says of itself, to controller 0.
pub fn is_name_request(
    wiring: &Wiring,
    me: ControllerId,
    source: Endpoint,
    target: Endpoint,
) -> bool
    ensures { result ≡ is_name_request wiring.now me.0 source target }
{
    me.0 == 0 && is_same_endpoint(source, target) && source.place == 0 && is_point(wiring, source)
}

/// Whether an endpoint's port is a service point.
fn is_point(wiring: &Wiring, at: Endpoint) -> bool
    ensures { let t = wiring.now in
        result ≡ (is_sap t at.slot.0 at.port || is_spp t at.slot.0 at.port) }
{
    is_sap(wiring, at.slot, at.port) || is_spp(wiring, at.slot, at.port)
}

/// The protocol of an endpoint's port; 0 where it has none.
#[tactic(auto, unfolding(actor_duties::specs::Words::protocol_of, actor_duties::specs::Words::port_at, room_wiring::specs::Slots::port_at))]
pub fn protocol_of(wiring: &Wiring, at: Endpoint) -> u16
    ensures { result ≡ protocol_of wiring.now at.slot.0 at.port }
{
    match wiring.port_of(at.slot, at.port) {
        Some(port) => port.protocol.unwrap_or(0),
        None => 0,
    }
}

/// The name that the numbers of a Register give; none where they are not of its form.
pub fn name_in(numbers: &[i64]) -> Option<u64>
    ensures { result ≡ name_in numbers.now }
{
    match numbers {
        [name] => u64::try_from(*name).ok(),
        _ => None,
    }
}
