//! What actors say that nobody hears, in words.
use crate::messages::put_plain_numbers;
use crate::names::{place_count, put_port, put_priority};
use crate::ports::is_joined;
use crate::redone::Said;
use room_kinds::{Priority, SlotId};
use room_wiring::{PortNames, Wiring};
use view_pages::Page;

/// The priority that a message has where nothing else is said.
const GENERAL: Priority = Priority(3);

/// The name of a signal of a port, whose incoming ones have the first numbers.
fn signal_of(port: &PortNames, signal: u16) -> &[u8] {
    let incoming = port.incoming.as_slice();
    let outgoing = port.outgoing.as_slice();
    let number = usize::from(signal);
    let found = match incoming.get(number) {
        Some(signal) => Some(signal),
        None => outgoing.get(number.saturating_sub(incoming.len())),
    };
    match found {
        Some(signal) => signal.name.as_bytes(),
        None => b"",
    }
}

/// The name of the signal of what an actor of a slot says.
pub fn said_signal<'a>(wiring: &'a Wiring, slot: SlotId, said: &Said) -> &'a [u8] {
    match wiring.port_of(slot, said.port) {
        Some(port) => signal_of(port, said.signal),
        None => b"",
    }
}

/// What an actor of a slot says, as actions write it.
pub fn put_said(page: &mut Page, wiring: &Wiring, slot: SlotId, said: &Said) {
    put_port(page, wiring, slot, said.port, said.place);
    page.put(b".");
    page.put(said_signal(wiring, slot, said));
    page.put(b"(");
    put_plain_numbers(page, said.payload.numbers());
    page.put(b")");
    if said.prio != GENERAL {
        page.put(b" ");
        put_priority(page, said.prio);
    }
}

/// The place of a port of a slot at which something is said, where it is there.
fn place_of(wiring: &Wiring, slot: SlotId, said: &Said) -> Option<u32> {
    let count = place_count(wiring, slot, usize::from(said.port));
    match u32::try_from(said.place) {
        Ok(place) if place < count => Some(place),
        _ => None,
    }
}

/// Why nobody hears what an actor of a slot says.
pub fn why_unheard(wiring: &Wiring, slot: SlotId, said: &Said) -> &'static [u8] {
    match place_of(wiring, slot, said) {
        None => b"a place that isn't there",
        Some(place) if is_joined(wiring, slot, usize::from(said.port), place) => b"where nobody is",
        Some(_) => b"joined to nothing",
    }
}
