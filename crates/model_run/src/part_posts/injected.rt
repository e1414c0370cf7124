//! Messages from outside.
ghost use Rattle.std.specs.Prelude.{◌≡◌, ◌<◌, length, IfOk};
ghost use Rattle.model_run.specs.part_posts.Items.{injected};

use controller::Plant;
use room_kinds::{ControllerId, Endpoint, Msg, Payload, Priority, Stamp};
use std::alloc::{AllocError, Global};

/// The message that a line asks for, to the owner of its target, who is there.
#[tactic(auto, unfolding(actor_duties::specs::Words::owner_of))]
pub fn message_from_outside(
    alloc: Global,
    plant: &Plant,
    target: Endpoint,
    signal: u16,
    payload: &Payload,
    prio: Priority,
) -> Result<Msg, AllocError>
    requires { target.slot.0 < length plant.now.wiring.slots }
    ensures ok { IfOk result (λ m. m ≡ injected plant.now.wiring target signal payload.now prio) }
    ensures to { IfOk result (λ m. m.to.0 < length plant.now.wiring.controllers) }
{
    let to = plant.wiring.slot(target.slot).owner;
    Ok(Msg {
        from: ControllerId(0),
        to,
        prio,
        stamp: Stamp(0),
        source: None,
        target,
        signal,
        payload: payload.copy(alloc)?,
    })
}
