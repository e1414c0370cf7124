//! The blocks and points of a picture of actors: one block for all the slots that differ in indexes alone.
use crate::leads::{joined_at, tell_all_leads};
use crate::meetings::Meetings;
use journal::naming;
use room_kinds::{ControllerId, PortKind, ReferenceKind, SlotId};
use room_wiring::{PortNames, Slot, Wiring};
use std::alloc::{AllocError, Global};
use view_drawing::{Block, Diagram, Label, Mark, Point, Shape, Sign, add_name, name_of};
use view_journals::place_count;

/// Which block shows what of a wiring.
#[derive(Drop)]
pub struct Actors {
    /// For each slot the one whose block shows it: the one that has index 0 wherever indexes are.
    shown_as: Vec<usize>,
    /// For each slot the block that shows it.
    blocks: Vec<usize>,
    /// For each slot the last of its parts with the index 0.
    last_parts: Vec<usize>,
    /// For each block the number of its class.
    classes: Vec<Option<u16>>,
    /// For each block which controllers own what it shows, a bit for each.
    owners: Vec<u64>,
    /// For each block where the row of its references begins, in which the block of each of them is.
    first_references: Vec<usize>,
    references: Vec<usize>,
    /// The last slot at the top with the index 0.
    last_top: usize,
}

/// The number in a row; 0 where there is none.
fn number_at(row: &Vec<usize>, at: usize) -> usize {
    row.as_slice().get(at).copied().unwrap_or(0)
}

fn set_number(row: &mut Vec<usize>, at: usize, number: usize) {
    if let Some(place) = row.as_mut_slice().get_mut(at) {
        *place = number;
    }
}

/// The bit of a controller.
fn bit_of(owner: ControllerId) -> u64 {
    1u64 << (u32::from(owner.0) % 64)
}

/// The name of a slot in its container: the last name of its path, without the index.
fn name_in(path: &[u8]) -> &[u8] {
    let name = match path.iter().rposition(|byte| *byte == b'/') {
        Some(slash) => path.get(slash.saturating_add(1)..).unwrap_or(&[]),
        None => path,
    };
    match name.iter().position(|byte| *byte == b':') {
        Some(colon) => name.get(..colon).unwrap_or(name),
        None => name,
    }
}

pub fn shape_of(kind: ReferenceKind) -> Shape {
    match kind {
        ReferenceKind::Fixed => Shape::Actor,
        ReferenceKind::Optional => Shape::OptionalActor,
        ReferenceKind::Imported => Shape::ImportedActor,
    }
}

pub fn mark_of(port: &PortNames) -> Mark {
    match (port.kind, port.conjugated) {
        (PortKind::Frame, _) => Mark::Hidden,
        (PortKind::Relay, false) => Mark::Relay,
        (PortKind::Relay, true) => Mark::ConjugatedRelay,
        (PortKind::End | PortKind::Internal, false) => Mark::Port,
        (PortKind::End | PortKind::Internal, true) => Mark::ConjugatedPort,
        (PortKind::Sap, _) => Mark::Access,
        (PortKind::Spp, _) => Mark::Provision,
    }
}

impl Actors {
    /// Those of a picture without blocks.
    pub fn new(alloc: Global) -> Actors {
        Actors {
            shown_as: Vec::new(alloc),
            blocks: Vec::new(alloc),
            last_parts: Vec::new(alloc),
            classes: Vec::new(alloc),
            owners: Vec::new(alloc),
            first_references: Vec::new(alloc),
            references: Vec::new(alloc),
            last_top: 0,
        }
    }

    /// The number of the class of a block, if it is one of an actor.
    pub fn class_of(&self, block: usize) -> Option<u16> {
        match self.classes.as_slice().get(block) {
            Some(class) => *class,
            None => None,
        }
    }

    /// The block of a reference of a block.
    pub fn block_of(&self, block: usize, reference: usize) -> usize {
        let first = number_at(&self.first_references, block);
        number_at(&self.references, first.saturating_add(reference))
    }

    /// Adds what is known of a block with so many references.
    fn add_block(&mut self, class: Option<u16>, references: usize) -> Result<(), AllocError> {
        self.classes.push(class)?;
        self.owners.push(0)?;
        self.first_references.push(self.references.len())?;
        for _reference in 0..references {
            self.references.push(0)?;
        }
        Ok(())
    }

    /// Keeps the block of a reference of a block.
    fn keep_reference(&mut self, block: usize, reference: usize, number: usize) {
        let first = number_at(&self.first_references, block);
        set_number(
            &mut self.references,
            first.saturating_add(reference),
            number,
        );
    }

    /// Keeps as which slot the next one is shown, and in which block.
    fn keep_slot(&mut self, twin: usize, block: usize) -> Result<(), AllocError> {
        self.shown_as.push(twin)?;
        self.blocks.push(block)?;
        Ok(self.last_parts.push(0)?)
    }

    /// The slot as which another one is shown: one whose slots up to the top have the index 0. Containers that differ
    /// in indexes alone have the same slots, in the same order.
    fn twin_of(&mut self, number: usize, slot: &Slot) -> usize {
        let Some(parent) = slot.parent else {
            if slot.index == 0 {
                self.last_top = number;
            }
            return self.last_top;
        };
        let parent = usize::from(parent.0);
        let parent_twin = number_at(&self.shown_as, parent);
        if parent_twin != parent {
            let twin = parent_twin.saturating_add(number.saturating_sub(parent));
            return number_at(&self.shown_as, twin);
        }
        if slot.index == 0 {
            set_number(&mut self.last_parts, parent, number);
        }
        number_at(&self.last_parts, parent)
    }

    /// Whether a slot stands in a slot that has a block of its own.
    fn is_copy(&self, slot: &Slot) -> bool {
        match slot.parent {
            Some(parent) => {
                let parent = usize::from(parent.0);
                number_at(&self.shown_as, parent) == parent
            }
            None => true,
        }
    }

    /// The block in which the block of a slot stands.
    fn container_of(&self, slot: &Slot) -> usize {
        match slot.parent {
            Some(parent) => number_at(&self.blocks, usize::from(parent.0)),
            None => 0,
        }
    }
}

/// The title of a block of an actor.
fn title_of(
    alloc: Global,
    wiring: &Wiring,
    id: SlotId,
    slot: &Slot,
) -> Result<Vec<u8>, AllocError> {
    let path = slot.path.to_vec(alloc)?;
    let mut title = name_of(alloc, name_in(path.as_slice()))?;
    title.extend_from_slice(b" : ")?;
    if let Some(class) = wiring.class_of(id) {
        add_name(&mut title, class.name.as_bytes())?;
    }
    Ok(title)
}

/// The point of a port of a slot.
fn point_of(
    alloc: Global,
    wiring: &Wiring,
    id: SlotId,
    slot: &Slot,
    number: usize,
    port: &PortNames,
) -> Result<Point, AllocError> {
    let places = place_count(wiring, id, number);
    // an imported slot has the places of the interface alone
    let is_away = slot.kind == ReferenceKind::Imported && places == 0;
    let mark = if is_away { Mark::Hidden } else { mark_of(port) };
    let mut point = Point::new(mark, name_of(alloc, port.name.as_bytes())?);
    point.places = places;
    Ok(point)
}

/// Adds the points of a block, one for each port of its class.
fn add_points(
    diagram: &mut Diagram,
    wiring: &Wiring,
    id: SlotId,
    slot: &Slot,
    block: usize,
) -> Result<(), AllocError> {
    let Some(class) = wiring.class_of(id) else {
        return Ok(());
    };
    for (number, port) in class.ports.as_slice().iter().enumerate() {
        let point = point_of(diagram.alloc, wiring, id, slot, number, port)?;
        let _number = diagram.add_point(block, point)?;
    }
    Ok(())
}

/// The block of a slot, which stands in this one.
fn block_of(
    alloc: Global,
    wiring: &Wiring,
    id: SlotId,
    slot: &Slot,
    container: usize,
) -> Result<Block, AllocError> {
    let title = title_of(alloc, wiring, id, slot)?;
    let mut block = Block::new(alloc, shape_of(slot.kind), Some(container), title);
    block.colour = Some(slot.owner.0);
    block.copies = 0;
    Ok(block)
}

/// How many references the class of a slot has.
fn reference_count(wiring: &Wiring, id: SlotId) -> usize {
    match wiring.class_of(id) {
        Some(class) => class.references.len(),
        None => 0,
    }
}

/// Adds the block of a slot, and gives its number.
fn add_actor(
    diagram: &mut Diagram,
    actors: &mut Actors,
    wiring: &Wiring,
    id: SlotId,
    slot: &Slot,
) -> Result<usize, AllocError> {
    let container = actors.container_of(slot);
    let block = block_of(diagram.alloc, wiring, id, slot, container)?;
    let number = diagram.add_block(block)?;
    actors.add_block(Some(slot.class), reference_count(wiring, id))?;
    actors.keep_reference(container, usize::from(slot.reference), number);
    add_points(diagram, wiring, id, slot, number)?;
    Ok(number)
}

/// The place of the first point of a block, and how many points it has.
pub fn points_at(diagram: &Diagram, block: usize) -> (usize, usize) {
    match diagram.blocks.as_slice().get(block) {
        Some(block) => (block.first_point, block.point_count),
        None => (0, 0),
    }
}

/// Counts the places of a port of a slot at the point of the port.
fn count_at(point: &mut Point, wiring: &Wiring, id: SlotId, port: usize) {
    let is_end = !matches!(
        point.mark,
        Mark::Hidden | Mark::Relay | Mark::ConjugatedRelay
    );
    if is_end {
        let joined = joined_at(wiring, id, port);
        let unjoined = place_count(wiring, id, port).saturating_sub(joined);
        point.joined = point.joined.saturating_add(joined);
        point.unjoined = point.unjoined.saturating_add(unjoined);
    }
}

/// Counts the places of a slot at the points of its block. An actor that is lent to a slot keeps those of its own one.
fn count_places(diagram: &mut Diagram, wiring: &Wiring, id: SlotId, slot: &Slot, block: usize) {
    if slot.kind == ReferenceKind::Imported {
        return;
    }
    let (first, count) = points_at(diagram, block);
    for number in 0..count {
        let points = diagram.points.as_mut_slice();
        if let Some(point) = points.get_mut(first.saturating_add(number)) {
            count_at(point, wiring, id, number);
        }
    }
}

/// Counts a slot at the block that shows it.
fn count_slot(
    diagram: &mut Diagram,
    actors: &mut Actors,
    wiring: &Wiring,
    id: SlotId,
    slot: &Slot,
    block: usize,
) {
    if actors.is_copy(slot)
        && let Some(block) = diagram.blocks.as_mut_slice().get_mut(block)
    {
        block.copies = block.copies.saturating_add(1);
    }
    if let Some(owners) = actors.owners.as_mut_slice().get_mut(block) {
        *owners |= bit_of(slot.owner);
    }
    count_places(diagram, wiring, id, slot, block);
}

/// Adds a slot to a picture.
fn add_slot(
    diagram: &mut Diagram,
    actors: &mut Actors,
    wiring: &Wiring,
    id: SlotId,
    slot: &Slot,
) -> Result<(), AllocError> {
    let number = usize::from(id.0);
    let twin = actors.twin_of(number, slot);
    let block = if twin == number {
        add_actor(diagram, actors, wiring, id, slot)?
    } else {
        number_at(&actors.blocks, twin)
    };
    actors.keep_slot(twin, block)?;
    count_slot(diagram, actors, wiring, id, slot, block);
    Ok(())
}

/// The controllers beside that of its colour that own what a block shows.
fn others_of(
    alloc: Global,
    wiring: &Wiring,
    colour: Option<u8>,
    owners: u64,
) -> Result<Vec<u8>, AllocError> {
    let mut others = Vec::new(alloc);
    for number in 0..wiring.controller_count() {
        let owns = owners & bit_of(ControllerId(number)) != 0;
        if owns && colour != Some(number) {
            add_other(&mut others, wiring, number)?;
        }
    }
    Ok(others)
}

fn add_other(others: &mut Vec<u8>, wiring: &Wiring, number: u8) -> Result<(), AllocError> {
    others.extend_from_slice(if others.is_empty() {
        b"also on "
    } else {
        b", "
    })?;
    let name = naming::controller_name(wiring, usize::from(number));
    add_name(others, name)
}

/// Says behind the title of a block how many it stands for, where these are several.
fn add_copies(block: &mut Block) -> Result<(), AllocError> {
    if block.copies > 1 {
        let mut number = itoa::Buffer::new();
        let text = number.format(block.copies).as_bytes();
        block.title.extend_from_slice(b" x ")?;
        block.title.extend_from_slice(text)?;
    }
    Ok(())
}

/// What a block is beside an actor.
fn kind_of(shape: Shape) -> &'static [u8] {
    match shape {
        Shape::OptionalActor => b"optional",
        Shape::ImportedActor => b"imported",
        Shape::Frame | Shape::Actor | Shape::State | Shape::Choice | Shape::Start => b"",
    }
}

/// Adds a line below the title of a block, if there is something to say.
fn add_note(alloc: Global, block: &mut Block, text: Vec<u8>) -> Result<(), AllocError> {
    if text.is_empty() {
        return Ok(());
    }
    let note = Label::of(alloc, text)?;
    Ok(block.notes.push(note)?)
}

/// Says of a block what it is beside an actor of its class.
fn add_notes(
    alloc: Global,
    wiring: &Wiring,
    block: &mut Block,
    owners: u64,
) -> Result<(), AllocError> {
    add_copies(block)?;
    let kind = Vec::from_slice(alloc, kind_of(block.shape))?;
    add_note(alloc, block, kind)?;
    let others = others_of(alloc, wiring, block.colour, owners)?;
    add_note(alloc, block, others)
}

fn add_all_notes(
    diagram: &mut Diagram,
    actors: &Actors,
    wiring: &Wiring,
) -> Result<(), AllocError> {
    let alloc = diagram.alloc;
    let owners = actors.owners.as_slice();
    for (block, owners) in diagram.blocks.as_mut_slice().iter_mut().zip(owners) {
        add_notes(alloc, wiring, block, *owners)?;
    }
    Ok(())
}

/// A line of the legend for a controller.
fn add_controller(diagram: &mut Diagram, wiring: &Wiring, number: u8) -> Result<(), AllocError> {
    let mut text = Vec::from_slice(diagram.alloc, b"controller ")?;
    let name = naming::controller_name(wiring, usize::from(number));
    add_name(&mut text, name)?;
    diagram.add_key(Sign::Colour(number), text.as_slice())
}

/// A line of the legend for each controller.
pub fn add_controllers(diagram: &mut Diagram, wiring: &Wiring) -> Result<(), AllocError> {
    for number in 0..wiring.controller_count() {
        add_controller(diagram, wiring, number)?;
    }
    Ok(())
}

/// Adds the block of the subsystem, which has this title and so many references.
fn add_frame(
    diagram: &mut Diagram,
    actors: &mut Actors,
    title: Vec<u8>,
    tops: usize,
) -> Result<(), AllocError> {
    let frame = Block::new(diagram.alloc, Shape::Frame, None, title);
    let _frame = diagram.add_block(frame)?;
    actors.add_block(None, tops)
}

fn add_slots(
    diagram: &mut Diagram,
    actors: &mut Actors,
    wiring: &Wiring,
) -> Result<(), AllocError> {
    for number in 0..wiring.slot_count() {
        let id = SlotId(number as u16);
        if let Some(slot) = wiring.get_slot(id) {
            add_slot(diagram, actors, wiring, id, slot)?;
        }
    }
    Ok(())
}

/// Adds the blocks and the points of a wiring to a picture, in which the subsystem has this title and so many
/// references.
pub fn add_actors(
    diagram: &mut Diagram,
    actors: &mut Actors,
    wiring: &Wiring,
    meetings: &Meetings,
    title: Vec<u8>,
    tops: usize,
) -> Result<(), AllocError> {
    add_frame(diagram, actors, title, tops)?;
    add_slots(diagram, actors, wiring)?;
    add_all_notes(diagram, actors, wiring)?;
    tell_all_leads(diagram, actors, wiring, meetings);
    add_controllers(diagram, wiring)
}
