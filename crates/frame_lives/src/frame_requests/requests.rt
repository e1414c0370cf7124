//! The commands `incarnate` and `destroy`.
ghost use Rattle.std.specs.Prelude.{◌≡◌, ◌<◌, ◌++◌, ◌∷◌, [], length, IfOk, OnOk};
ghost use Rattle.actor_duties.specs.Words.{part_at};
ghost use Rattle.actor_duties.specs.Frame.{asked_of, incarnate, destroy_command};
ghost use Rattle.service_messages.specs.Sites.{IsSite};

use room_kinds::{Generation, Incarnation, Msg, Outbox, Payload, SysKind};
use service_messages::{Code, Site, frame_at, frame_of, refused_at_once, to_owner};
use std::alloc::AllocError;

/// A request of an actor to its slot of a reference at an index, to the slot's owner; or its refusal with
/// code 2 where the index is out of range.
fn asked(
    site: &Site<'_>,
    kind: SysKind,
    actor: Incarnation,
    reference: u16,
    index: i64,
) -> Result<Msg, AllocError>
    requires site { IsSite site.now }
    requires there { actor.slot.0 < length site.now.wiring.now.slots }
    ensures { IfOk result (λ m.
        m ≡ asked_of site.now.wiring.now site.now.me.0 kind actor reference index
        (part_at site.now.wiring.now actor.slot.0 reference index)) }
{
    match site.runs.part_at(site.wiring, actor.slot, reference, index) {
        Some(slot) => {
            let target = frame_at(slot, Generation(0));
            let source = frame_of(actor);
            Ok(to_owner(
                site.wiring,
                site.me,
                kind,
                source,
                target,
                Payload::empty(site.alloc),
            ))
        }
        None => refused_at_once(site.alloc, site.me, actor, reference, index, Code::NoSlot),
    }
}

/// `incarnate`: a Create goes to the owner of the actor's slot of that reference and index; where the
/// index is out of range the actor is told `refused` with code 2.
#[tactic(auto, unfolding(actor_duties::specs::Frame::incarnate))]
pub fn incarnate(
    site: &Site<'_>,
    actor: Incarnation,
    reference: u16,
    index: i64,
    out: &mut Outbox,
) -> Result<(), AllocError>
    requires site { IsSite site.now }
    requires there { actor.slot.0 < length site.now.wiring.now.slots }
    ensures { OnOk result (out.new
        ≡ out.old ++ incarnate site.now.wiring.now site.now.me.0 actor reference index ∷ []) }
{
    let kind = SysKind::Create;
    out.push(asked(site, kind, actor, reference, index)?)?;
    Ok(())
}

/// `destroy`: a Destroy goes to the owner of the actor's slot of that reference and index; where the
/// index is out of range the actor is told `refused` with code 2.
#[tactic(auto, unfolding(actor_duties::specs::Frame::destroy_command))]
pub fn destroy(
    site: &Site<'_>,
    actor: Incarnation,
    reference: u16,
    index: i64,
    out: &mut Outbox,
) -> Result<(), AllocError>
    requires site { IsSite site.now }
    requires there { actor.slot.0 < length site.now.wiring.now.slots }
    ensures { OnOk result (out.new
        ≡ out.old ++ destroy_command site.now.wiring.now site.now.me.0 actor reference index ∷ []) }
{
    let kind = SysKind::Destroy;
    out.push(asked(site, kind, actor, reference, index)?)?;
    Ok(())
}
