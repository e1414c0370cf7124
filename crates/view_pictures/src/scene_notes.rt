//! What is told of an actor in its block, and of an import place in its own.
use crate::living::{Living, Scene};
use journal::naming;
use room_kinds::{Incarnation, PlaceState, SlotId};
use room_show::{ActorView, PeerView};
use room_wiring::Wiring;
use std::alloc::{AllocError, Global};
use view_drawing::{Block, Label};
use view_journals::{actor_at, put_actor, put_end, put_home, put_path, put_port};
use view_pages::Page;

/// Adds a line to a block.
fn add_note(alloc: Global, block: &mut Block, note: &Page) -> Result<(), AllocError> {
    let text = Vec::from_slice(alloc, note.bytes()?)?;
    let note = Label::of(alloc, text)?;
    Ok(block.notes.push(note)?)
}

/// Adds the state of an actor, if its class has a chart.
fn add_state(
    alloc: Global,
    wiring: &Wiring,
    block: &mut Block,
    actor: &ActorView,
) -> Result<(), AllocError> {
    let has_chart = match wiring.class_of(actor.who.slot) {
        Some(class) => !class.states.is_empty(),
        None => false,
    };
    if !has_chart {
        return Ok(());
    }
    let mut note = Page::new(alloc);
    note.put(b"in ");
    note.put(naming::state_label(wiring, actor.who.slot, actor.state));
    add_note(alloc, block, &note)
}

/// Adds how many messages something is told of, if there are any: before one of them, and before several.
fn add_count(
    alloc: Global,
    block: &mut Block,
    lead: &[u8],
    count: u64,
    of_one: &[u8],
    of_several: &[u8],
) -> Result<(), AllocError> {
    if count == 0 {
        return Ok(());
    }
    let mut note = Page::new(alloc);
    note.put(lead);
    note.put_number(count);
    note.put(if count == 1 { of_one } else { of_several });
    add_note(alloc, block, &note)
}

/// Adds how many messages wait for a slot, if any do.
fn add_waiting(
    alloc: Global,
    living: &Living<'_>,
    block: &mut Block,
    slot: SlotId,
) -> Result<(), AllocError> {
    let waiting = u64::from(living.waiting(slot));
    add_count(
        alloc,
        block,
        b"",
        waiting,
        b" message waits",
        b" messages wait",
    )
}

/// Adds to which imported slot an actor is lent, if it is.
fn add_lent(
    alloc: Global,
    wiring: &Wiring,
    block: &mut Block,
    lent: Option<SlotId>,
) -> Result<(), AllocError> {
    let Some(slot) = lent else {
        return Ok(());
    };
    let mut note = Page::new(alloc);
    note.put(b"lent to ");
    if let Some(slot) = wiring.get_slot(slot) {
        put_path(&mut note, &slot.path);
    }
    add_note(alloc, block, &note)
}

/// Adds a place of a port that leads to an actor that doesn't live.
fn add_gone(
    alloc: Global,
    wiring: &Wiring,
    block: &mut Block,
    who: Incarnation,
    peer: &PeerView,
) -> Result<(), AllocError> {
    let mut note = Page::new(alloc);
    put_port(
        &mut note,
        wiring,
        who.slot,
        peer.port,
        i64::from(peer.place),
    );
    note.put(b" leads to ");
    put_end(&mut note, wiring, peer.peer);
    note.put(b", who is gone");
    add_note(alloc, block, &note)
}

/// Adds what is told of an actor: its state, where it is lent to, how many messages wait for it and how many it
/// defers, and the places that lead to nobody who lives.
pub(crate) fn add_actor_notes(
    alloc: Global,
    scene: Scene<'_>,
    living: &Living<'_>,
    block: &mut Block,
    actor: &ActorView,
) -> Result<(), AllocError> {
    let wiring = scene.wiring;
    let slot = actor.who.slot;
    add_state(alloc, wiring, block, actor)?;
    add_lent(alloc, wiring, block, living.lent_to(slot))?;
    add_waiting(alloc, living, block, slot)?;
    let deferred = actor.deferred.len() as u64;
    add_count(
        alloc,
        block,
        b"defers ",
        deferred,
        b" message",
        b" messages",
    )?;
    for peer in actor.peers.as_slice() {
        if !living.lives(actor_at(peer.peer)) {
            add_gone(alloc, wiring, block, actor.who, peer)?;
        }
    }
    Ok(())
}

/// Adds how many messages wait for nobody who is there.
pub(crate) fn add_lost(
    alloc: Global,
    living: &Living<'_>,
    block: &mut Block,
) -> Result<(), AllocError> {
    let lost = u64::from(living.lost);
    add_count(
        alloc,
        block,
        b"",
        lost,
        b" message waits where nobody is",
        b" messages wait where nobody is",
    )
}

/// Adds what the import place of a slot holds, and how many messages wait for it.
pub(crate) fn add_place_notes(
    alloc: Global,
    wiring: &Wiring,
    living: &Living<'_>,
    block: &mut Block,
    slot: SlotId,
    state: PlaceState,
) -> Result<(), AllocError> {
    let mut note = Page::new(alloc);
    match state {
        PlaceState::Empty => note.put(b"empty"),
        PlaceState::Asking(home) => put_home(&mut note, wiring, b"asks for ", home),
        PlaceState::Held(home) => put_home(&mut note, wiring, b"holds ", home),
        PlaceState::Leaving(home) => put_home(&mut note, wiring, b"gives back ", home),
    }
    add_note(alloc, block, &note)?;
    add_waiting(alloc, living, block, slot)
}

/// How many letters of paths stand before the names of what stands in a container: its own, and a slash.
fn letters_before(
    alloc: Global,
    wiring: &Wiring,
    container: Option<SlotId>,
) -> Result<usize, AllocError> {
    match container.and_then(|container| wiring.get_slot(container)) {
        Some(container) => {
            let path = container.path.to_vec(alloc)?;
            Ok(path.len().saturating_add(1))
        }
        None => Ok(0),
    }
}

/// The name of an actor in a container that is shown: its path below that one, and from the second actor of its slot
/// on its generation.
pub(crate) fn name_of_actor(
    alloc: Global,
    wiring: &Wiring,
    container: Option<SlotId>,
    who: Incarnation,
) -> Result<Vec<u8>, AllocError> {
    let mut name = Page::new(alloc);
    put_actor(&mut name, wiring, who);
    let before = letters_before(alloc, wiring, container)?;
    let below = name.bytes()?.get(before..).unwrap_or(&[]);
    Ok(Vec::from_slice(alloc, below)?)
}
