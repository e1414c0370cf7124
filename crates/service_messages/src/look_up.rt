//! Look-ups in a wiring. The numbers may name nothing: then the answer is what the definitions say of
//! such a number.
ghost use Rattle.std.specs.Prelude.{◌≡◌, ◌≤◌, ◌^◌};
ghost use Rattle.room_wiring.specs.declared.slot.Partner.TheVariants.{Nobody};
ghost use Rattle.actor_duties.specs.Words.{owner_of, is_own, is_sap, is_spp, joined_at, is_endpoint};

use room_kinds::{ControllerId, Endpoint, PortKind, SlotId};
use room_wiring::{Partner, Wiring};

/// Whether two endpoints are one.
pub fn is_same_endpoint(a: Endpoint, b: Endpoint) -> bool
    ensures { result ≡ is_endpoint a b }
{
    a.slot == b.slot && a.generation == b.generation && a.port == b.port && a.place == b.place
}

/// The controller that runs the actors of a slot; controller 0 where there is no such slot.
#[tactic(auto, unfolding(actor_duties::specs::Words::owner_of))]
pub fn owner_of(wiring: &Wiring, slot: SlotId) -> ControllerId
    ensures { result ≡ record { 0 = owner_of wiring.now slot.0 } }
{
    match wiring.get_slot(slot) {
        Some(found) => found.owner,
        None => ControllerId(0),
    }
}

/// Whether a slot is there and run by this controller.
#[tactic(auto, unfolding(actor_duties::specs::Words::is_own))]
pub fn is_own(wiring: &Wiring, me: ControllerId, slot: SlotId) -> bool
    ensures { result ≡ is_own wiring.now me.0 slot.0 }
{
    match wiring.get_slot(slot) {
        Some(found) => found.owner == me,
        None => false,
    }
}

/// Whether a port of a slot is a service access point, the user's side of a service.
#[tactic(auto, unfolding(actor_duties::specs::Words::is_sap, actor_duties::specs::Words::port_at, room_wiring::specs::Slots::port_at))]
pub fn is_sap(wiring: &Wiring, slot: SlotId, port: u16) -> bool
    ensures { result ≡ is_sap wiring.now slot.0 port }
{
    match wiring.port_of(slot, port) {
        Some(found) => matches!(found.kind, PortKind::Sap),
        None => false,
    }
}

/// Whether a port of a slot is a service provision point, the provider's side of a service.
#[tactic(auto, unfolding(actor_duties::specs::Words::is_spp, actor_duties::specs::Words::port_at, room_wiring::specs::Slots::port_at))]
pub fn is_spp(wiring: &Wiring, slot: SlotId, port: u16) -> bool
    ensures { result ≡ is_spp wiring.now slot.0 port }
{
    match wiring.port_of(slot, port) {
        Some(found) => matches!(found.kind, PortKind::Spp),
        None => false,
    }
}

/// What a place of a port of a slot is joined to; nobody where there is no such place, as where its
/// number has more than 32 bits.
#[tactic(auto, unfolding(actor_duties::specs::Words::joined_at))]
pub fn joined_at(wiring: &Wiring, slot: SlotId, port: u16, place: u64) -> Partner
    ensures joined { result ≡ joined_at wiring.now slot.0 port place }
    ensures near { 2 ^ 32 ≤ place → result ≡ Nobody }
{
    if u32::from(slot.0) < wiring.slot_count()
        && usize::from(port) < wiring.port_count(slot)
        && place < u64::from(wiring.places(slot, port))
    {
        wiring.partner(slot, port, place as u32)
    } else {
        Partner::Nobody
    }
}
