//! The blocks and points of the picture of a scene: a block for each actor that lives, and for each import place.
use crate::actors::{mark_of, shape_of};
use crate::living::{Living, Scene};
use crate::meetings::Meetings;
use crate::scene_notes::{add_actor_notes, add_lost, add_place_notes, name_of_actor};
use room_kinds::{Generation, Incarnation, PlaceState, PortKind, SlotId};
use room_show::{ActorView, PeerView};
use room_wiring::{PortNames, Slot, Wiring};
use std::alloc::{AllocError, Global};
use view_drawing::{Block, Diagram, Leads, Mark, Point, Shape, add_name, name_of};
use view_journals::{has_joined, incoming, is_end, place_count};

/// The title of the block of an actor or an import place that stands in that of a container.
fn title_of(
    alloc: Global,
    wiring: &Wiring,
    container: Option<SlotId>,
    who: Incarnation,
) -> Result<Vec<u8>, AllocError> {
    let name = name_of_actor(alloc, wiring, container, who)?;
    let mut title = name_of(alloc, name.as_slice())?;
    title.extend_from_slice(b" : ")?;
    if let Some(class) = wiring.class_of(who.slot) {
        add_name(&mut title, class.name.as_bytes())?;
    }
    Ok(title)
}

/// The block of an actor or an import place, without notes.
fn block_of(
    alloc: Global,
    scene: Scene<'_>,
    living: &Living<'_>,
    who: Incarnation,
    slot: &Slot,
) -> Result<Block, AllocError> {
    let container = living.container_of(scene.wiring, slot);
    let title = title_of(alloc, scene.wiring, container, who)?;
    // the block of the subsystem, which has the number 0, holds those of the outermost
    let around = container
        .and_then(|container| living.block(container))
        .unwrap_or(0);
    let mut block = Block::new(alloc, shape_of(slot.kind), Some(around), title);
    block.colour = Some(slot.owner.0);
    Ok(block)
}

/// Where a port of an actor leads of which places lead to nobody: out of the model, if the model joins nothing there
/// and messages can come in; and what outermost actors say.
fn leads_of(
    wiring: &Wiring,
    meetings: &Meetings,
    id: SlotId,
    slot: &Slot,
    number: usize,
    port: &PortNames,
) -> Leads {
    let is_free = !has_joined(wiring, id, number) && is_end(port);
    let may_meet = meetings.has(slot.class, number);
    let is_outermost = slot.parent.is_none();
    if is_free && !may_meet && (is_outermost || !incoming(port).is_empty()) {
        return Leads::Outside;
    }
    Leads::Nobody
}

/// How many of the peers of a port stand behind the places that the model gives it.
fn linked_count(peers: &[PeerView], places: u32) -> u32 {
    let linked = peers.iter().filter(|peer| peer.place >= places).count();
    u32::try_from(linked).unwrap_or(u32::MAX)
}

/// Counts the places of a port and those of them that lead to these peers.
fn count_places(point: &mut Point, places: u32, peers: &[PeerView]) {
    let joined = u32::try_from(peers.len()).unwrap_or(u32::MAX);
    point.places = places.saturating_add(linked_count(peers, places));
    point.joined = joined;
    point.unjoined = point.places.saturating_sub(joined);
}

/// The mark of a port. Those that only pass on aren't drawn: links lead from end to end.
fn mark_at(port: &PortNames) -> Mark {
    match port.kind {
        PortKind::Frame | PortKind::Relay => Mark::Hidden,
        PortKind::End | PortKind::Internal | PortKind::Sap | PortKind::Spp => mark_of(port),
    }
}

/// The point of a port of an actor with these peers.
fn point_of(
    alloc: Global,
    wiring: &Wiring,
    id: SlotId,
    number: usize,
    port: &PortNames,
    peers: &[PeerView],
) -> Result<Point, AllocError> {
    let mut point = Point::new(mark_at(port), name_of(alloc, port.name.as_bytes())?);
    if point.mark != Mark::Hidden {
        count_places(&mut point, place_count(wiring, id, number), peers);
    }
    Ok(point)
}

/// Adds the points of the block of an actor, one for each port of its class.
fn add_points(
    diagram: &mut Diagram,
    scene: Scene<'_>,
    meetings: &Meetings,
    slot: &Slot,
    block: usize,
    actor: &ActorView,
) -> Result<(), AllocError> {
    let id = actor.who.slot;
    let Some(class) = scene.wiring.class_of(id) else {
        return Ok(());
    };
    let mut left = actor.peers.as_slice();
    for (number, port) in class.ports.as_slice().iter().enumerate() {
        let count = left
            .iter()
            .take_while(|peer| usize::from(peer.port) == number)
            .count();
        let (own, rest) = left.split_at(count.min(left.len()));
        left = rest;
        let mut point = point_of(diagram.alloc, scene.wiring, id, number, port, own)?;
        point.leads = leads_of(scene.wiring, meetings, id, slot, number, port);
        let _number = diagram.add_point(block, point)?;
    }
    Ok(())
}

/// Adds the block of an actor.
fn add_actor(
    diagram: &mut Diagram,
    scene: Scene<'_>,
    living: &mut Living<'_>,
    meetings: &Meetings,
    slot: &Slot,
    actor: &ActorView,
) -> Result<(), AllocError> {
    let alloc = diagram.alloc;
    let mut block = block_of(alloc, scene, living, actor.who, slot)?;
    add_actor_notes(alloc, scene, living, &mut block, actor)?;
    let number = diagram.add_block(block)?;
    living.keep_block(actor.who.slot, number);
    add_points(diagram, scene, meetings, slot, number, actor)
}

/// Adds the block of an import place.
fn add_place(
    diagram: &mut Diagram,
    scene: Scene<'_>,
    living: &mut Living<'_>,
    id: SlotId,
    slot: &Slot,
    state: PlaceState,
) -> Result<(), AllocError> {
    let who = Incarnation {
        slot: id,
        generation: Generation(0),
    };
    let mut block = block_of(diagram.alloc, scene, living, who, slot)?;
    add_place_notes(diagram.alloc, scene.wiring, living, &mut block, id, state)?;
    let number = diagram.add_block(block)?;
    living.keep_block(id, number);
    Ok(())
}

/// Adds the block of a slot, if somebody lives there, or it has an import place.
fn add_slot(
    diagram: &mut Diagram,
    scene: Scene<'_>,
    living: &mut Living<'_>,
    meetings: &Meetings,
    id: SlotId,
    slot: &Slot,
) -> Result<(), AllocError> {
    match (living.actor(id), living.place(id)) {
        (Some(actor), _) => add_actor(diagram, scene, living, meetings, slot, actor),
        (None, Some(state)) => add_place(diagram, scene, living, id, slot, state),
        (None, None) => Ok(()),
    }
}

/// Adds the block that holds all others, and then these. Each stands behind the one that it stands in.
pub(crate) fn add_blocks(
    diagram: &mut Diagram,
    scene: Scene<'_>,
    living: &mut Living<'_>,
    meetings: &Meetings,
    title: Vec<u8>,
) -> Result<(), AllocError> {
    let mut frame = Block::new(diagram.alloc, Shape::Frame, None, title);
    add_lost(diagram.alloc, living, &mut frame)?;
    let _frame = diagram.add_block(frame)?;
    for number in 0..scene.wiring.slot_count() {
        let id = SlotId(number as u16);
        if let Some(slot) = scene.wiring.get_slot(id) {
            add_slot(diagram, scene, living, meetings, id, slot)?;
        }
    }
    Ok(())
}
