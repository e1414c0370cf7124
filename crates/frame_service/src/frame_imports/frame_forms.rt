//! The forms of the messages between frame services: who may send what to whom. A message that has none
//! of them is passed over.
ghost use Rattle.std.specs.Prelude.{◌≡◌, ◌<◌, length};
ghost use Rattle.room_wiring.specs.Places.{is_told};
ghost use Rattle.actor_duties.specs.Words.{is_home};
ghost use Rattle.actor_duties.specs.Frame.{is_request, is_answer, is_forth, is_back, is_announced, is_part_told};
ghost use Rattle.service_messages.specs.slot_runs.Runs.{IsDepthFirst, AreRunEnds};

use room_kinds::{ControllerId, Endpoint, SlotId};
use room_wiring::Wiring;
use service_messages::{
    SlotRuns, is_fixed, is_frame, is_imported, is_optional, is_own, is_part_of, is_same_endpoint,
};

/// Whether an actor of a slot may be lent: the slot is fixed or optional.
pub fn is_home(wiring: &Wiring, slot: SlotId) -> bool
    ensures { result ≡ is_home wiring.now slot.0 }
{
    is_fixed(wiring, slot) || is_optional(wiring, slot)
}

/// A request of a container for its optional slot, in generation 0, at the owner of the slot: the form of
/// Create and Destroy.
pub fn is_request(wiring: &Wiring, me: ControllerId, container: Endpoint, slot: Endpoint) -> bool
    ensures { result ≡ is_request wiring.now me.0 container slot }
{
    is_frame(container)
        && is_frame(slot)
        && slot.generation.0 == 0
        && is_optional(wiring, slot.slot)
        && is_own(wiring, me, slot.slot)
        && is_part_of(wiring, slot.slot, container.slot)
}

/// An answer from an optional slot to its container, at the owner of the container: the form of
/// CreateDone, CreateRefused and DestroyDone.
pub fn is_answer(wiring: &Wiring, me: ControllerId, slot: Endpoint, container: Endpoint) -> bool
    ensures { result ≡ is_answer wiring.now me.0 slot container }
{
    is_frame(container)
        && is_frame(slot)
        && is_optional(wiring, slot.slot)
        && is_part_of(wiring, slot.slot, container.slot)
        && is_own(wiring, me, container.slot)
}

/// From an import place to a home, at the owner of the home: the form of Import and Deport.
pub fn is_forth(wiring: &Wiring, me: ControllerId, place: Endpoint, home: Endpoint) -> bool
    ensures { result ≡ is_forth wiring.now me.0 place home }
{
    is_frame(place)
        && is_frame(home)
        && is_imported(wiring, place.slot)
        && is_home(wiring, home.slot)
        && is_own(wiring, me, home.slot)
}

/// From a home back to an import place, at the owner of the place: the form of ImportDone, ImportRefused,
/// ImportEnded and DeportDone.
pub fn is_back(wiring: &Wiring, me: ControllerId, home: Endpoint, place: Endpoint) -> bool
    ensures { result ≡ is_back wiring.now me.0 home place }
{
    is_frame(place)
        && is_frame(home)
        && is_imported(wiring, place.slot)
        && is_home(wiring, home.slot)
        && is_own(wiring, me, place.slot)
}

#[tactic(auto, using(crate::proofs::frame_imports::frame_forms::Told::told_past))]
fn is_told(wiring: &Wiring, slot: SlotId, me: ControllerId) -> bool
    requires { me.0 < length wiring.now.controllers }
    ensures { result ≡ is_told wiring.now slot.0 me.0 }
{
    if u32::from(slot.0) < wiring.slot_count() {
        wiring.tells(slot, me)
    } else {
        false
    }
}

/// An actor that says of itself that it came up or went down, at a controller that is told of its slot:
/// the form of Announce.
pub fn is_announced(wiring: &Wiring, me: ControllerId, actor: Endpoint, again: Endpoint) -> bool
    requires { me.0 < length wiring.now.controllers }
    ensures { result ≡ is_announced wiring.now me.0 actor again }
{
    is_frame(actor) && is_same_endpoint(actor, again) && is_told(wiring, actor.slot, me)
}

/// An optional slot's actor, at another controller that has a part of the slot: the form of PartMake and
/// PartEnd.
#[tactic(auto, using(crate::proofs::frame_imports::frame_forms::Told::optional_there))]
pub fn is_part_told(
    wiring: &Wiring,
    runs: &SlotRuns,
    me: ControllerId,
    actor: Endpoint,
    again: Endpoint,
) -> bool
    requires order { IsDepthFirst wiring.now }
    requires runs { AreRunEnds wiring.now runs.now }
    ensures { result ≡ is_part_told wiring.now me.0 actor again }
{
    is_frame(actor)
        && is_same_endpoint(actor, again)
        && actor.generation.0 != 0
        && is_optional(wiring, actor.slot)
        && !is_own(wiring, me, actor.slot)
        && runs.has_part(wiring, me, actor.slot)
}
