//! Actors and the places of their port `frame`.
ghost use Rattle.std.specs.Prelude.{◌≡◌};
ghost use Rattle.actor_duties.specs.Words.{frame_at, frame_of, id_of, is_frame, whose};

use room_kinds::{Endpoint, Generation, Incarnation, SlotId};

/// Place 0 of the port `frame` of what stands in a slot in a generation.
pub fn frame_at(slot: SlotId, generation: Generation) -> Endpoint
    ensures { result ≡ frame_at slot.0 generation.0 }
{
    Endpoint {
        slot,
        generation,
        port: 0,
        place: 0,
    }
}

/// Place 0 of an actor's port `frame`.
pub fn frame_of(actor: Incarnation) -> Endpoint
    ensures { result ≡ frame_of actor }
{
    frame_at(actor.slot, actor.generation)
}

/// The actor of an endpoint.
pub fn whose(endpoint: Endpoint) -> Incarnation
    ensures { result ≡ whose endpoint }
{
    Incarnation {
        slot: endpoint.slot,
        generation: endpoint.generation,
    }
}

/// Whether an endpoint is place 0 of `frame`.
pub fn is_frame(endpoint: Endpoint) -> bool
    ensures { result ≡ is_frame endpoint }
{
    endpoint.port == 0 && endpoint.place == 0
}

/// The number of an actor, as actions see it: 1,048,576 times its slot, and its generation.
pub fn id_of(actor: Incarnation) -> i64
    ensures { result ≡ id_of actor }
{
    (u64::from(actor.slot.0) * 1_048_576 + u64::from(actor.generation.0)) as i64
}
