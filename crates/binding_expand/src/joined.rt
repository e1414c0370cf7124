//! The places of slots, and whether their sockets may be joined so.
ghost use Rattle.std.specs.Prelude.{◌≡◌, ◌^◌, ◌≤◌, length};
ghost use Rattle.wiring_places.specs.place_rules.Parts.{HasFewPorts};
ghost use Rattle.wiring_places.specs.place_rules.Partners.{has_socket_pair, has_socket_away};
ghost use Rattle.wiring_joins.specs.joined_places.Wired.{HasFewPlaces};
ghost use Rattle.binding_expand.specs.Steps.{FindsPlaces};

use crate::fault::{ExpandFault, WiringFault};
use room_wiring::Slot;
use std::alloc::Global;
use wiring_joins::{WiredPlaces, has_socket_away, has_socket_pair, wired_places};
use wiring_plan::StructurePlan;

/// Whether two sockets are joined to each other.
fn pairs_sockets(places: &WiredPlaces) -> bool
    requires { length places.now.places.items ≡ length places.now.partners }
    ensures { result ≡ has_socket_pair places.now.places.items places.now.partners }
{
    has_socket_pair(places.places.as_slice(), places.partners.as_slice())
}

/// Whether an end place is joined to a socket of another owner.
fn joins_away(slots: &[Slot], places: &WiredPlaces) -> bool
    requires { length places.now.places.items ≡ length places.now.partners }
    ensures { result ≡ has_socket_away slots.now places.now.places.items places.now.partners }
{
    has_socket_away(slots, places.places.as_slice(), places.partners.as_slice())
}

/// The places of slots and what each is joined to, where no binding pairs nothing, no two sockets are
/// joined and each socket is joined to end places of its own owner alone.
pub(crate) fn joined_places(
    alloc: Global,
    plan: &StructurePlan,
    slots: &[Slot],
) -> Result<WiredPlaces, ExpandFault>
    requires few { length slots.now ≤ 2 ^ 16 }
    requires ports { HasFewPorts plan.now }
    requires places { HasFewPlaces plan.now slots.now }
    ensures { FindsPlaces plan.now slots.now result }
{
    let Some(places) = wired_places(alloc, plan, slots)? else {
        return Err(ExpandFault::Wiring(WiringFault::NoFreePlace));
    };
    if pairs_sockets(&places) {
        return Err(ExpandFault::Wiring(WiringFault::SocketPair));
    }
    if joins_away(slots, &places) {
        return Err(ExpandFault::Wiring(WiringFault::SocketAway));
    }
    Ok(places)
}
