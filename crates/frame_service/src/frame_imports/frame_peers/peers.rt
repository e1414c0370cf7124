//! The peer of an end place.
ghost use Rattle.std.specs.Prelude.{◌≡◌, ◌<◌, ◌^◌, IfSome};
ghost use Rattle.actor_duties.specs.Words.{endpoint};
ghost use Rattle.actor_duties.specs.Peers.{fitting_plug, frame_peer};
ghost use Rattle.frame_lives.specs.Known.{known_in};
ghost use Rattle.frame_lives.specs.Shown.{shown};
ghost use Rattle.frame_service.specs.frame_imports.frame_peers.Parts.{frame_by, end_in};

use crate::frame_imports::frame_peers::lent::Lent;
use crate::frame_imports::ports::is_end;
use frame_lives::SlotLives;
use room_kinds::{ControllerId, Endpoint, Incarnation, SlotId};
use room_wiring::{Partner, Wiring};
use service_messages::joined_at;

/// The oldest of these plugs whose place is joined to an end place.
fn fitting_plug(
    wiring: &Wiring,
    plugs: &[Incarnation],
    port: u16,
    place: u64,
) -> Option<Incarnation>
    ensures { result ≡ fitting_plug wiring.now plugs.now port place }
{
    for plug in plugs {
        if is_end(joined_at(wiring, plug.slot, port, place)) {
            return Some(*plug);
        }
    }
    None
}

/// An end place of what is known in its slot; nobody where nothing is known there.
fn known_end(
    lives: &SlotLives,
    wiring: &Wiring,
    me: ControllerId,
    slot: SlotId,
    port: u16,
    place: u32,
) -> Option<Endpoint>
    ensures { result
        ≡ end_in slot.0 (known_in wiring.now me.0 (shown lives.now) slot.0) port place }
{
    match lives.known(wiring, me, slot) {
        Some(generation) => Some(Endpoint {
            slot,
            generation,
            port,
            place,
        }),
        None => None,
    }
}

/// The peer of a place of a port of a live actor, but for links by name, by the first case that fits: the joined
/// end place, if anything is known in its slot; through an imported slot that holds an actor, the same
/// place of that actor; and where the place is joined to nothing, the end place to which the same place
/// of one of the actor's plugs is joined. It takes no memory.
#[tactic(auto, unfolding(actor_duties::specs::Peers::frame_peer, actor_duties::specs::Peers::known, frame_lives::specs::Known::known_in))]
pub fn peer<I: Lent>(
    lives: &SlotLives,
    lent: &I,
    wiring: &Wiring,
    me: ControllerId,
    who: Incarnation,
    port: u16,
    place: u64,
) -> Option<Endpoint>
    ensures peer { result ≡ frame_peer wiring.now me.0
        (frame_by (shown lives.now) (I.places lent.now) (I.plugs lent.now))
        (endpoint who.slot.0 who.generation.0 port place) }
    ensures near { IfSome result (λ e. place < 2 ^ 32) }
{
    match joined_at(wiring, who.slot, port, place) {
        Partner::End { slot, port, place } => known_end(lives, wiring, me, slot, port, place),
        Partner::Socket { slot, port, place } => lent.held(slot).map(|home| Endpoint {
            slot: home.slot,
            generation: home.generation,
            port,
            place,
        }),
        Partner::Nobody => {
            let plugs = lent.plugs_of(who.slot);
            let plug = fitting_plug(wiring, plugs, port, place)?;
            match joined_at(wiring, plug.slot, port, place) {
                Partner::End { slot, port, place } => {
                    known_end(lives, wiring, me, slot, port, place)
                }
                Partner::Socket { .. } | Partner::Nobody => None,
            }
        }
    }
}
