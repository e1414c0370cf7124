//! What the end of actors sends.
ghost use Rattle.std.specs.Prelude.{◌≡◌, ◌++◌, ◌<◌, length, OnOk, All};
ghost use Rattle.std.specs.List.{flat_map};
ghost use Rattle.actor_duties.specs.Imports.{ended_plugs};
ghost use Rattle.service_messages.specs.Sites.{IsSite};
ghost use Rattle.frame_service.specs.frame_endings.Ends.{back_from, back_if_own, all_given_back, end_sends, part_sends};

use crate::frame_imports::Lent;
use room_kinds::{Incarnation, Outbox, Payload, SlotId, SysKind};
use service_messages::{
    Site, announce, frame_of, is_imported, is_optional, is_part_of, tell_parts, to_owner,
};
use std::alloc::AllocError;

/// Each import place that holds an actor is told that the import has ended.
fn end_plugs(
    site: &Site<'_>,
    actor: Incarnation,
    plugs: &[Incarnation],
    out: &mut Outbox,
) -> Result<(), AllocError>
    ensures { OnOk result (out.new
        ≡ out.old ++ ended_plugs site.now.wiring.now site.now.me.0 actor plugs.now) }
{
    for plug in plugs {
        let target = frame_of(*plug);
        out.push(to_owner(
            site.wiring,
            site.me,
            SysKind::ImportEnded,
            frame_of(actor),
            target,
            Payload::empty(site.alloc),
        ))?;
    }
    Ok(())
}

/// A home goes back from an import place, if the place asks for one or holds one.
fn give_back(
    site: &Site<'_>,
    place: Incarnation,
    home: Option<Incarnation>,
    out: &mut Outbox,
) -> Result<(), AllocError>
    ensures { OnOk result (out.new
        ≡ out.old ++ back_from site.now.wiring.now site.now.me.0 place home) }
{
    let Some(home) = home else {
        return Ok(());
    };
    out.push(to_owner(
        site.wiring,
        site.me,
        SysKind::Deport,
        frame_of(place),
        frame_of(home),
        Payload::empty(site.alloc),
    ))?;
    Ok(())
}

/// An actor gives back what a slot asks for or holds, if that is an imported slot of its own.
fn give_back_at<I: Lent>(
    site: &Site<'_>,
    lent: &I,
    actor: Incarnation,
    slot: SlotId,
    out: &mut Outbox,
) -> Result<(), AllocError>
    ensures { OnOk result (out.new
        ≡ out.old
        ++ back_if_own site.now.wiring.now site.now.me.0 (I.places lent.now) actor slot.0) }
{
    if !is_imported(site.wiring, slot) || !is_part_of(site.wiring, slot, actor.slot) {
        return Ok(());
    }
    let place = Incarnation {
        slot,
        generation: actor.generation,
    };
    give_back(site, place, lent.tied(slot), out)
}

/// An actor gives back all that its imported slots ask for or hold, in slot order. The time is in
/// proportion to the number of its parts.
#[tactic(auto, using(crate::proofs::frame_endings::Back::giving_begun, crate::proofs::frame_endings::Back::giving_on, crate::proofs::frame_endings::Back::giving_done))]
fn give_all_back<I: Lent>(
    site: &Site<'_>,
    lent: &I,
    actor: Incarnation,
    out: &mut Outbox,
) -> Result<(), AllocError>
    requires site { IsSite site.now }
    requires there { actor.slot.0 < length site.now.wiring.now.slots }
    ensures { OnOk result (out.new
        ≡ out.old ++ all_given_back site.now.wiring.now site.now.me.0 (I.places lent.now) actor) }
{
    let end = site.runs.end(site.wiring, actor.slot);
    let mut part = u32::from(actor.slot.0) + 1;
    while part < end {
        let slot = SlotId(part as u16);
        give_back_at(site, lent, actor, slot, out)?;
        part = site.runs.end(site.wiring, slot);
    }
    Ok(())
}

/// What the end of an actor sends: to its plugs, oldest first; for its imported slots, in slot order; and
/// to the controllers that are told of its slot, ascending.
#[tactic(auto, using(crate::proofs::frame_endings::Back::three_parts))]
fn end_actor<I: Lent>(
    site: &Site<'_>,
    lent: &I,
    actor: Incarnation,
    out: &mut Outbox,
) -> Result<(), AllocError>
    requires site { IsSite site.now }
    requires there { actor.slot.0 < length site.now.wiring.now.slots }
    ensures { OnOk result (out.new
        ≡ out.old ++ end_sends site.now.wiring.now site.now.me.0 (I.places lent.now)
        (I.plugs lent.now) actor) }
{
    end_plugs(site, actor, lent.plugs_of(actor.slot), out)?;
    give_all_back(site, lent, actor, out)?;
    announce(site, actor, 0, out)
}

/// What the end of actors sends, one after another.
pub fn end_actors<I: Lent>(
    site: &Site<'_>,
    lent: &I,
    actors: &[Incarnation],
    out: &mut Outbox,
) -> Result<(), AllocError>
    requires site { IsSite site.now }
    requires there { All (λ x. x.slot.0 < length site.now.wiring.now.slots) actors.now }
    ensures { OnOk result (out.new ≡ out.old
        ++ flat_map (end_sends site.now.wiring.now site.now.me.0 (I.places lent.now)
        (I.plugs lent.now)) actors.now) }
{
    for actor in actors {
        end_actor(site, lent, *actor, out)?;
    }
    Ok(())
}

/// Tells the other controllers that have a part of an actor's slot, if that is optional, that the actor
/// has ended.
fn end_part(site: &Site<'_>, actor: Incarnation, out: &mut Outbox) -> Result<(), AllocError>
    requires site { IsSite site.now }
    requires there { actor.slot.0 < length site.now.wiring.now.slots }
    ensures { OnOk result (out.new
        ≡ out.old ++ part_sends site.now.wiring.now site.now.me.0 actor) }
{
    if is_optional(site.wiring, actor.slot) {
        return tell_parts(site, SysKind::PartEnd, actor, out);
    }
    Ok(())
}

/// The same of each of these actors, one after another.
pub fn end_parts(
    site: &Site<'_>,
    actors: &[Incarnation],
    out: &mut Outbox,
) -> Result<(), AllocError>
    requires site { IsSite site.now }
    requires there { All (λ x. x.slot.0 < length site.now.wiring.now.slots) actors.now }
    ensures { OnOk result (out.new
        ≡ out.old ++ flat_map (part_sends site.now.wiring.now site.now.me.0) actors.now) }
{
    for actor in actors {
        end_part(site, *actor, out)?;
    }
    Ok(())
}
