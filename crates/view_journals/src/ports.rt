//! What the wiring says of the ports of a slot.
use crate::names::place_count;
use room_kinds::{PortKind, SlotId};
use room_wiring::{Partner, PortNames, SignalNames, Wiring};
use std::alloc::{AllocError, Global};

/// The signals that come in at a port.
pub fn incoming(port: &PortNames) -> &[SignalNames] {
    if port.conjugated {
        port.outgoing.as_slice()
    } else {
        port.incoming.as_slice()
    }
}

/// Whether messages from outside can come in at a port.
pub fn is_end(port: &PortNames) -> bool {
    matches!(port.kind, PortKind::End | PortKind::Internal)
}

/// What a place of a port of a slot is joined to; nobody where there is no such place.
pub fn partner_of(wiring: &Wiring, slot: SlotId, port: usize, place: u32) -> Partner {
    if u32::from(slot.0) >= wiring.slot_count() || port >= wiring.port_count(slot) {
        return Partner::Nobody;
    }
    let Ok(port) = u16::try_from(port) else {
        return Partner::Nobody;
    };
    if place >= wiring.places(slot, port) {
        return Partner::Nobody;
    }
    wiring.partner(slot, port, place)
}

pub fn is_joined(wiring: &Wiring, slot: SlotId, port: usize, place: u32) -> bool {
    partner_of(wiring, slot, port, place) != Partner::Nobody
}

/// Whether a place of a port of a slot is joined.
pub fn has_joined(wiring: &Wiring, slot: SlotId, port: usize) -> bool {
    (0..place_count(wiring, slot, port)).any(|place| is_joined(wiring, slot, port, place))
}

/// Whether a slot is one of the outermost.
fn is_outermost(wiring: &Wiring, slot: SlotId) -> bool {
    match wiring.get_slot(slot) {
        Some(slot) => slot.parent.is_none(),
        None => false,
    }
}

/// Whether what is said at the places of a port goes out of the model: an end port of an outermost actor that is
/// joined to nothing.
pub fn is_outlet(wiring: &Wiring, slot: SlotId, port: usize) -> bool {
    let is_end = match u16::try_from(port) {
        Ok(number) => match wiring.port_of(slot, number) {
            Some(port) => is_end(port),
            None => false,
        },
        Err(_) => false,
    };
    is_end && is_outermost(wiring, slot) && !has_joined(wiring, slot, port)
}

/// The ports at which what is said goes out of a model.
#[derive(Drop)]
pub struct Outlets {
    /// For each slot, by its number, whether its ports are such ones; nothing where it isn't outermost.
    slots: Vec<Vec<bool>>,
}

/// Whether the ports of a slot are outlets; nothing where it isn't outermost.
fn outlets_of(alloc: Global, wiring: &Wiring, slot: SlotId) -> Result<Vec<bool>, AllocError> {
    let mut ports = Vec::new(alloc);
    if is_outermost(wiring, slot) {
        for port in 0..wiring.port_count(slot) {
            ports.push(is_outlet(wiring, slot, port))?;
        }
    }
    Ok(ports)
}

impl Outlets {
    pub fn of(alloc: Global, wiring: &Wiring) -> Result<Outlets, AllocError> {
        let mut slots = Vec::new(alloc);
        for number in 0..wiring.slot_count() {
            slots.push(outlets_of(alloc, wiring, SlotId(number as u16))?)?;
        }
        Ok(Outlets { slots })
    }

    /// Whether what is said at a place of a port goes out.
    pub fn has(&self, wiring: &Wiring, slot: SlotId, port: u16, place: i64) -> bool {
        let is_outlet = match self.slots.get(usize::from(slot.0)) {
            Some(ports) => ports.get(usize::from(port)).copied() == Some(true),
            None => false,
        };
        let count = place_count(wiring, slot, usize::from(port));
        is_outlet && 0 <= place && place < i64::from(count)
    }
}
