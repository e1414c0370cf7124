//! Who came, who went, and how those changed who stayed.
use crate::peer_changes::{tell_peer, tell_peer_changes};
use crate::waiting_changes::{are_same, tell_deferred_but};
use room_show::{ActorView, Snapshot};
use room_wiring::Wiring;
use std::alloc::{AllocError, Global};
use view_journals::{put_actor, put_attributes, put_changed_attributes, put_state, put_states};
use view_pages::Page;

/// The actors that live in the slots, by the slots' numbers.
fn actors_of<'a>(
    alloc: Global,
    wiring: &Wiring,
    snapshot: &'a Snapshot,
) -> Result<Vec<Option<&'a ActorView>>, AllocError> {
    let mut actors = vec![in alloc; None; wiring.slot_count() as usize]?;
    for controller in snapshot.controllers.as_slice() {
        for actor in controller.actors.as_slice() {
            let slot = usize::from(actor.who.slot.0);
            if let Some(place) = actors.as_mut_slice().get_mut(slot) {
                *place = Some(actor);
            }
        }
    }
    Ok(actors)
}

/// The first one, where it isn't the second one too.
fn alone<'a>(actor: Option<&'a ActorView>, other: Option<&'a ActorView>) -> Option<&'a ActorView> {
    match (actor, other) {
        (Some(actor), Some(other)) if actor.who == other.who => None,
        _ => actor,
    }
}

/// An actor by its name, on a line of its own.
fn begin_line(page: &mut Page, wiring: &Wiring, actor: &ActorView) {
    page.put(b"    ");
    put_actor(page, wiring, actor.who);
    page.put(b": ");
}

/// Tells of an actor in which state it is, with which attributes, and which messages it defers.
fn tell_actor(
    alloc: Global,
    page: &mut Page,
    wiring: &Wiring,
    actor: &ActorView,
) -> Result<(), AllocError> {
    begin_line(page, wiring, actor);
    put_state(page, wiring, actor.who.slot, actor.state);
    let numbers = actor.attributes.as_slice();
    if let Some(class) = wiring.class_of(actor.who.slot)
        && !numbers.is_empty()
    {
        page.put(b"; ");
        put_attributes(page, class, numbers, numbers);
    }
    page.end_line();
    let deferred = actor.deferred.as_slice();
    tell_deferred_but(alloc, page, wiring, b"deferred ", deferred, &[])
}

/// Tells of those who live, under a title, and not among others, if there are any; and, where it is asked for, whom
/// their ports lead to.
fn tell_alone(
    alloc: Global,
    page: &mut Page,
    wiring: &Wiring,
    title: &[u8],
    actors: &[Option<&ActorView>],
    others: &[Option<&ActorView>],
    with_peers: bool,
) -> Result<(), AllocError> {
    let mut is_first = true;
    for (actor, other) in actors.iter().zip(others) {
        if let Some(actor) = alone(*actor, *other) {
            if is_first {
                page.put_line(title);
                is_first = false;
            }
            tell_actor(alloc, page, wiring, actor)?;
            if with_peers {
                tell_peers(page, wiring, actor);
            }
        }
    }
    Ok(())
}

/// Tells whom the ports of an actor lead to.
fn tell_peers(page: &mut Page, wiring: &Wiring, actor: &ActorView) {
    for peer in actor.peers.as_slice() {
        tell_peer(page, wiring, actor.who.slot, peer);
    }
}

/// Whether an actor is as it was.
fn is_unchanged(before: &ActorView, after: &ActorView) -> bool {
    before.state == after.state
        && before.attributes.as_slice() == after.attributes.as_slice()
        && before.peers.as_slice() == after.peers.as_slice()
        && are_same(before.deferred.as_slice(), after.deferred.as_slice())
}

/// Tells which messages an actor defers that it didn't before, and which ones it did.
fn tell_deferred_changes(
    alloc: Global,
    page: &mut Page,
    wiring: &Wiring,
    before: &ActorView,
    after: &ActorView,
) -> Result<(), AllocError> {
    let old = before.deferred.as_slice();
    let new = after.deferred.as_slice();
    tell_deferred_but(alloc, page, wiring, b"deferred ", new, old)?;
    tell_deferred_but(alloc, page, wiring, b"no longer deferred ", old, new)
}

/// Tells how an actor changed, which did.
fn tell_changed(
    alloc: Global,
    page: &mut Page,
    wiring: &Wiring,
    before: &ActorView,
    after: &ActorView,
) -> Result<(), AllocError> {
    let slot = after.who.slot;
    begin_line(page, wiring, after);
    put_states(page, wiring, slot, Some(before.state), after.state);
    if let Some(class) = wiring.class_of(slot) {
        let (old, new) = (before.attributes.as_slice(), after.attributes.as_slice());
        put_changed_attributes(page, class, old, new);
    }
    page.end_line();
    tell_deferred_changes(alloc, page, wiring, before, after)?;
    let (old, new) = (before.peers.as_slice(), after.peers.as_slice());
    tell_peer_changes(page, wiring, slot, old, new);
    Ok(())
}

/// Both of an actor that stayed, and changed.
fn changed<'a>(
    before: Option<&'a ActorView>,
    after: Option<&'a ActorView>,
) -> Option<(&'a ActorView, &'a ActorView)> {
    match (before, after) {
        (Some(before), Some(after)) if before.who == after.who && !is_unchanged(before, after) => {
            Some((before, after))
        }
        _ => None,
    }
}

/// Tells how those changed who stayed, if any did.
fn tell_changed_ones(
    alloc: Global,
    page: &mut Page,
    wiring: &Wiring,
    before: &[Option<&ActorView>],
    after: &[Option<&ActorView>],
) -> Result<(), AllocError> {
    let mut is_first = true;
    for (old, new) in before.iter().zip(after) {
        if let Some((old, new)) = changed(*old, *new) {
            if is_first {
                page.put_line(b"who changed:");
                is_first = false;
            }
            tell_changed(alloc, page, wiring, old, new)?;
        }
    }
    Ok(())
}

/// Tells who came, who went, and how those changed who stayed.
pub(crate) fn tell_actors(
    alloc: Global,
    page: &mut Page,
    wiring: &Wiring,
    before: &Snapshot,
    after: &Snapshot,
) -> Result<(), AllocError> {
    let old = actors_of(alloc, wiring, before)?;
    let new = actors_of(alloc, wiring, after)?;
    let (old, new) = (old.as_slice(), new.as_slice());
    tell_alone(alloc, page, wiring, b"who came:", new, old, true)?;
    tell_alone(alloc, page, wiring, b"who went:", old, new, false)?;
    tell_changed_ones(alloc, page, wiring, old, new)
}
