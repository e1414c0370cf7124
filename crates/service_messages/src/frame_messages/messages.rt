//! What the frame service sends.
ghost use Rattle.std.specs.Prelude.{◌≡◌, ◌++◌, ◌∷◌, [], ◌<◌, pos, length, IfOk, OnOk};
ghost use Rattle.actor_duties.specs.Words.{reference_of, index_of};
ghost use Rattle.actor_duties.specs.Messages.{reply, to_owner, told_of, refused_at_once, code_number};
ghost use Rattle.actor_duties.specs.Lives.{announce_to, announces, part_told_to, parts_told};
ghost use Rattle.service_messages.specs.Shown.{signal_of, code_of, is_other_part};
ghost use Rattle.service_messages.specs.Sites.{IsSite};
ghost use Rattle.service_messages.specs.slot_runs.Runs.{IsDepthFirst, AreRunEnds};

use crate::frame_messages::endpoints::frame_of;
use crate::site::Site;
use crate::slot_runs::SlotRuns;
use crate::{Code, FrameSignal, frame_message, owner_of, system};
use room_kinds::{ControllerId, Endpoint, Incarnation, Msg, Outbox, Payload, SlotId, SysKind};
use room_wiring::Wiring;
use std::alloc::{AllocError, Global};

/// A reply to the sender of a message.
pub fn reply(
    me: ControllerId,
    m: &Msg,
    kind: SysKind,
    source: Endpoint,
    target: Endpoint,
    payload: Payload,
) -> Msg
    ensures { result ≡ reply me.0 m.now kind source target payload }
{
    system(me, m.from, kind, source, target, payload)
}

/// A message to the owner of its target.
pub fn to_owner(
    wiring: &Wiring,
    me: ControllerId,
    kind: SysKind,
    source: Endpoint,
    target: Endpoint,
    payload: Payload,
) -> Msg
    ensures { result ≡ to_owner wiring.now me.0 kind source target payload }
{
    system(
        me,
        owner_of(wiring, target.slot),
        kind,
        source,
        target,
        payload,
    )
}

#[tactic(auto, unfolding(actor_duties::specs::Words::reference_of))]
fn reference_of(wiring: &Wiring, slot: SlotId) -> u16
    ensures { result ≡ reference_of wiring.now slot.0 }
{
    match wiring.get_slot(slot) {
        Some(found) => found.reference,
        None => 0,
    }
}

#[tactic(auto, unfolding(actor_duties::specs::Words::index_of))]
fn index_of(wiring: &Wiring, slot: SlotId) -> u32
    ensures { result ≡ index_of wiring.now slot.0 }
{
    match wiring.get_slot(slot) {
        Some(found) => found.index,
        None => 0,
    }
}

/// What the container of a slot is told: the slot's reference and index, and an actor's number or a code.
pub fn told_of(
    site: &Site<'_>,
    signal: FrameSignal,
    source: Endpoint,
    target: Endpoint,
    slot: SlotId,
    last: i64,
) -> Result<Msg, AllocError>
    ensures { IfOk result (λ m.
        m ≡ told_of site.now.wiring.now site.now.me.0 (signal_of signal) source target slot.0
        last) }
{
    let reference = i64::from(reference_of(site.wiring, slot));
    let index = i64::from(index_of(site.wiring, slot));
    let payload = Payload::from_slice(site.alloc, &[reference, index, last])?;
    Ok(frame_message(site.me, signal, source, target, payload))
}

/// A request that is refused when its command is applied: the actor is told its reference, the index as
/// the action gave it, and the code.
pub fn refused_at_once(
    alloc: Global,
    me: ControllerId,
    actor: Incarnation,
    reference: u16,
    index: i64,
    code: Code,
) -> Result<Msg, AllocError>
    ensures { IfOk result (λ m.
        m ≡ refused_at_once me.0 actor reference index (code_number (code_of code))) }
{
    let payload = Payload::from_slice(
        alloc,
        &[i64::from(reference), index, i64::from(code.number())],
    )?;
    let frame = frame_of(actor);
    Ok(frame_message(me, FrameSignal::Refused, frame, frame, payload))
}

/// Announces to one controller that an actor came up (1) or went down (0).
fn announce_to(
    alloc: Global,
    me: ControllerId,
    actor: Incarnation,
    up: u8,
    controller: ControllerId,
    out: &mut Outbox,
) -> Result<(), AllocError>
    ensures { OnOk result (out.new ≡ out.old ++ announce_to me.0 actor (pos up) controller.0 ∷ []) }
{
    let payload = Payload::from_slice(alloc, &[i64::from(up)])?;
    let frame = frame_of(actor);
    out.push(system(me, controller, SysKind::Announce, frame, frame, payload))?;
    Ok(())
}

/// Announces to each controller that is told of the actor's slot, ascending: `up` is 1 where it came up,
/// and 0 where it went down.
#[tactic(auto, using(crate::proofs::frame_messages::Announced::all_announced))]
pub fn announce(
    site: &Site<'_>,
    actor: Incarnation,
    up: u8,
    out: &mut Outbox,
) -> Result<(), AllocError>
    requires { actor.slot.0 < length site.now.wiring.now.slots }
    ensures { OnOk result (out.new
        ≡ out.old ++ announces site.now.wiring.now site.now.me.0 actor (pos up)) }
{
    for number in 0..site.wiring.controller_count() {
        let controller = ControllerId(number);
        if site.wiring.tells(actor.slot, controller) {
            announce_to(site.alloc, site.me, actor, up, controller, out)?;
        }
    }
    Ok(())
}

/// Whether a controller is another one, with a part of a slot.
fn is_other_part(
    wiring: &Wiring,
    runs: &SlotRuns,
    me: ControllerId,
    slot: SlotId,
    controller: ControllerId,
) -> bool
    requires order { IsDepthFirst wiring.now }
    requires runs { AreRunEnds wiring.now runs.now }
    requires there { slot.0 < length wiring.now.slots }
    ensures { result ≡ is_other_part wiring.now me.0 slot.0 controller.0 }
{
    controller != me && runs.has_part(wiring, controller, slot)
}

/// Tells one controller of the part that it has of an actor's slot.
fn tell_part(
    alloc: Global,
    me: ControllerId,
    kind: SysKind,
    actor: Incarnation,
    controller: ControllerId,
    out: &mut Outbox,
) -> Result<(), AllocError>
    ensures { OnOk result (out.new ≡ out.old ++ part_told_to me.0 kind actor controller.0 ∷ []) }
{
    let frame = frame_of(actor);
    let payload = Payload::empty(alloc);
    out.push(system(me, controller, kind, frame, frame, payload))?;
    Ok(())
}

/// Tells each other controller that has a part of an actor's slot, ascending: `kind` is PartMake where
/// the actor came up, and PartEnd where it went down.
#[tactic(auto, using(crate::proofs::frame_messages::Parts::all_told))]
pub fn tell_parts(
    site: &Site<'_>,
    kind: SysKind,
    actor: Incarnation,
    out: &mut Outbox,
) -> Result<(), AllocError>
    requires site { IsSite site.now }
    requires there { actor.slot.0 < length site.now.wiring.now.slots }
    ensures { OnOk result (out.new
        ≡ out.old ++ parts_told site.now.wiring.now site.now.me.0 kind actor) }
{
    for number in 0..site.wiring.controller_count() {
        let controller = ControllerId(number);
        if is_other_part(site.wiring, site.runs, site.me, actor.slot, controller) {
            tell_part(site.alloc, site.me, kind, actor, controller, out)?;
        }
    }
    Ok(())
}
