//! Where messages from outside can come in.
use crate::timing::has_timers;
use room_kinds::{ReferenceKind, SlotId};
use room_wiring::{PortNames, SignalNames, Slot, Wiring};
use std::alloc::{AllocError, Global};
use view_journals::{incoming, is_end, place_count, put_path};
use view_pages::{Page, type_name};

/// The places of a port that has several: from which to which.
fn tell_places(page: &mut Page, count: u32) {
    if count > 1 {
        page.put(b"[0..");
        page.put_number(u64::from(count.saturating_sub(1)));
        page.put(b"]");
    }
}

/// A line for a message that can come in at a port: as a line of injections begins, with the types of its numbers.
fn tell_door(page: &mut Page, slot: &Slot, port: &PortNames, count: u32, signal: &SignalNames) {
    put_path(page, &slot.path);
    page.put(b".");
    page.put(port.name.as_bytes());
    tell_places(page, count);
    page.put(b" ");
    page.put(signal.name.as_bytes());
    for number in signal.numbers.as_slice() {
        page.put(b" ");
        page.put(type_name(*number));
    }
    page.end_line();
}

/// The messages that can come in at a port with so many places.
fn tell_port(page: &mut Page, slot: &Slot, port: &PortNames, count: u32) {
    if is_end(port) && count > 0 {
        for signal in incoming(port) {
            tell_door(page, slot, port, count, signal);
        }
    }
}

/// The messages that can come in at a slot. At an imported slot none can: its actor lives elsewhere.
fn tell_slot(page: &mut Page, wiring: &Wiring, id: SlotId, slot: &Slot) {
    let Some(class) = wiring.class_of(id) else {
        return;
    };
    if slot.kind == ReferenceKind::Imported {
        return;
    }
    for (number, port) in class.ports.as_slice().iter().enumerate() {
        tell_port(page, slot, port, place_count(wiring, id, number));
    }
}

/// Every place at which a message can be injected, with the messages that come in there and the types of their
/// numbers, a line each, in order of slot, port and message; and how far the time moves, where actors have timers. Where
/// there is none of all this, that is told.
pub(crate) fn tell_doors(
    alloc: Global,
    page: &mut Page,
    wiring: &Wiring,
) -> Result<(), AllocError> {
    let before = page.len();
    for number in 0..wiring.slot_count() {
        let id = SlotId(number as u16);
        if let Some(slot) = wiring.get_slot(id) {
            tell_slot(page, wiring, id, slot);
        }
    }
    if has_timers(alloc, wiring)? {
        page.put_line(b"advance 1..2147483647");
    }
    if page.len() == before {
        page.put_line(b"none");
    }
    Ok(())
}
