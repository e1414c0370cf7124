//! Whether actors have timers.
use journal::Entry;
use room_kinds::{
    ControllerId, Endpoint, Generation, Msg, Payload, PortKind, Priority, SlotId, Stamp,
};
use room_timer::TimerTable;
use room_wiring::{Partner, Wiring};
use std::alloc::{AllocError, Global};
use view_journals::partner_of;

/// The number of the message that arms a timer, at a port of its protocol.
const START_TIMER: u16 = 0;

/// Whether a timer is armed where this is sent from one end to another: so says a table of timers that sees the post.
fn arms(
    alloc: Global,
    wiring: &Wiring,
    source: Endpoint,
    target: Endpoint,
) -> Result<bool, AllocError> {
    let stamp = Stamp(1);
    let msg = Msg {
        from: ControllerId(0),
        to: ControllerId(0),
        prio: Priority(3),
        stamp,
        source: Some(source),
        target,
        signal: START_TIMER,
        payload: Payload::empty(alloc),
    };
    let mut table = TimerTable::new(alloc);
    table.see(wiring, ControllerId(0), &Entry::Post { stamp, msg })?;
    Ok(table.first_armed().is_some())
}

fn end_at(slot: SlotId, port: u16, place: u32) -> Endpoint {
    Endpoint {
        slot,
        generation: Generation(1),
        port,
        place,
    }
}

/// Whether a port of a slot is an access point that is joined to a timing service.
fn has_timer(
    alloc: Global,
    wiring: &Wiring,
    slot: SlotId,
    port: usize,
) -> Result<bool, AllocError> {
    let Ok(number) = u16::try_from(port) else {
        return Ok(false);
    };
    match partner_of(wiring, slot, port, 0) {
        Partner::End {
            slot: to,
            port: at,
            place,
        } => {
            let source = end_at(slot, number, 0);
            arms(alloc, wiring, source, end_at(to, at, place))
        }
        Partner::Nobody | Partner::Socket { .. } => Ok(false),
    }
}

/// Whether an access point of a slot is joined to a timing service.
fn slot_has_timer(alloc: Global, wiring: &Wiring, slot: SlotId) -> Result<bool, AllocError> {
    let Some(class) = wiring.class_of(slot) else {
        return Ok(false);
    };
    for (number, port) in class.ports.as_slice().iter().enumerate() {
        if port.kind == PortKind::Sap && has_timer(alloc, wiring, slot, number)? {
            return Ok(true);
        }
    }
    Ok(false)
}

/// Whether an access point of the model is joined to a timing service.
pub(crate) fn has_timers(alloc: Global, wiring: &Wiring) -> Result<bool, AllocError> {
    for number in 0..wiring.slot_count() {
        if slot_has_timer(alloc, wiring, SlotId(number as u16))? {
            return Ok(true);
        }
    }
    Ok(false)
}
