//! What is sent for the names of an actor.
ghost use Rattle.std.specs.Prelude.{◌≡◌, ◌≤◌, ◌++◌, ◌∷◌, [], length, pos, OnOk};
ghost use Rattle.actor_duties.specs.Messages as rows;
ghost use Rattle.actor_duties.specs.Words.{frame_of};
ghost use Rattle.actor_duties.specs.Links.{point_of};
ghost use Rattle.service_messages.specs.Shown.{signal_of, code_of};

use room_kinds::{ControllerId, Endpoint, Incarnation, Outbox, Payload, SysKind};
use service_messages::{Code, FrameSignal, frame_message, system};
use std::alloc::{AllocError, Global};

/// Place 0 of the port `frame` of an actor.
fn frame_of(actor: Incarnation) -> Endpoint
    ensures { result ≡ frame_of actor }
{
    point_of(actor, 0)
}

/// Place 0 of a port of an actor.
pub fn point_of(actor: Incarnation, port: u16) -> Endpoint
    ensures { result ≡ point_of actor port }
{
    Endpoint {
        slot: actor.slot,
        generation: actor.generation,
        port,
        place: 0,
    }
}

/// Tells an actor what came of its request on a port. `numbers` are at most 64.
pub fn tell(
    alloc: Global,
    me: ControllerId,
    signal: FrameSignal,
    actor: Incarnation,
    numbers: &[i64],
    out: &mut Outbox,
) -> Result<(), AllocError>
    requires { length numbers.now ≤ 64 }
    ensures { let told = rows.name_told me.0 (signal_of signal) actor numbers.now in
        OnOk result (out.new ≡ out.old ++ told ∷ []) }
{
    let frame = frame_of(actor);
    let payload = Payload::from_slice(alloc, numbers)?;
    out.push(frame_message(me, signal, frame, frame, payload))?;
    Ok(())
}

/// Tells an actor why its request on a port was refused.
pub fn refuse(
    alloc: Global,
    me: ControllerId,
    actor: Incarnation,
    port: u16,
    code: Code,
    out: &mut Outbox,
) -> Result<(), AllocError>
    ensures { let number = rows.code_number (code_of code) in
        let told = rows.name_told me.0 rows.NameRefused actor (pos port ∷ pos number ∷ []) in
        OnOk result (out.new ≡ out.old ++ told ∷ []) }
{
    let numbers = [i64::from(port), i64::from(code.number())];
    tell(alloc, me, FrameSignal::NameRefused, actor, &numbers, out)
}

/// Asks the name table, on controller 0, to register or to withdraw a service point.
pub fn ask(
    me: ControllerId,
    kind: SysKind,
    point: Endpoint,
    payload: Payload,
    out: &mut Outbox,
) -> Result<(), AllocError>
    ensures { OnOk result (out.new ≡ out.old ++ rows.system me.0 0 kind point point payload ∷ []) }
{
    out.push(system(me, ControllerId(0), kind, point, point, payload))?;
    Ok(())
}
