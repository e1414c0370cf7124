//! Where ports lead of which places are joined to nothing.
use crate::actors::{Actors, points_at};
use crate::meetings::Meetings;
use room_kinds::SlotId;
use room_wiring::{ClassNames, Partner, PortNames, Wiring};
use view_drawing::{Diagram, Leads, Point};
use view_journals::{incoming, is_end, place_count};

/// How many places of a port of a slot are joined.
pub fn joined_at(wiring: &Wiring, slot: SlotId, port: usize) -> u32 {
    let mut joined = 0u32;
    for place in 0..place_count(wiring, slot, port) {
        if is_joined(wiring, slot, port, place) {
            joined = joined.saturating_add(1);
        }
    }
    joined
}

/// Whether a place of a port of a slot is joined.
pub fn has_joined(wiring: &Wiring, slot: SlotId, port: usize) -> bool {
    joined_at(wiring, slot, port) > 0
}

fn is_joined(wiring: &Wiring, slot: SlotId, port: usize, place: u32) -> bool {
    if u32::from(slot.0) >= wiring.slot_count() || port >= wiring.port_count(slot) {
        return false;
    }
    let Ok(port) = u16::try_from(port) else {
        return false;
    };
    place < wiring.places(slot, port) && wiring.partner(slot, port, place) != Partner::Nobody
}

/// Where a port leads of which places are joined to nothing: to others later, or out of the model, if nothing in it is
/// joined and messages can come in; and what outermost actors say.
fn leads_of(port: &PortNames, point: &Point, is_outermost: bool, may_meet: bool) -> Leads {
    if may_meet {
        return Leads::Later;
    }
    let is_free = point.joined == 0 && is_end(port);
    if is_free && (is_outermost || !incoming(port).is_empty()) {
        return Leads::Outside;
    }
    Leads::Within
}

/// Says where a point leads, which is that of a port.
fn tell_point(point: &mut Point, port: &PortNames, is_outermost: bool, may_meet: bool) {
    if point.unjoined > 0 {
        point.leads = leads_of(port, point, is_outermost, may_meet);
    }
}

/// Whether a block is that of an outermost actor.
fn is_outermost(diagram: &Diagram, block: usize) -> bool {
    match diagram.blocks.as_slice().get(block) {
        Some(block) => block.container == Some(0),
        None => false,
    }
}

/// Says where the points of a block lead, which is one of a class.
fn tell_leads(
    diagram: &mut Diagram,
    meetings: &Meetings,
    block: usize,
    class: u16,
    names: &ClassNames,
) {
    let is_outermost = is_outermost(diagram, block);
    let (first, _count) = points_at(diagram, block);
    for (number, port) in names.ports.as_slice().iter().enumerate() {
        let may_meet = meetings.has(class, number);
        let points = diagram.points.as_mut_slice();
        if let Some(point) = points.get_mut(first.saturating_add(number)) {
            tell_point(point, port, is_outermost, may_meet);
        }
    }
}

/// Says where the points of all blocks lead.
pub fn tell_all_leads(
    diagram: &mut Diagram,
    actors: &Actors,
    wiring: &Wiring,
    meetings: &Meetings,
) {
    for block in 0..diagram.blocks.len() {
        if let Some(class) = actors.class_of(block)
            && let Some(names) = wiring.get_class(class)
        {
            tell_leads(diagram, meetings, block, class, names);
        }
    }
}
