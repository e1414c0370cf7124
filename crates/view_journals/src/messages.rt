//! How a page names messages: as `PORT.SIGNAL(NUMBERS) PRIORITY`, with the port at which a message comes in, or goes
//! out.
use crate::frame::put_frame_numbers;
use crate::names::{put_actor, put_name, put_port, put_priority};
use journal::naming;
use room_kinds::{Endpoint, Incarnation, Msg, SlotId};
use room_wiring::Wiring;
use view_pages::Page;

/// The actor of an end.
pub fn actor_at(end: Endpoint) -> Incarnation {
    Incarnation {
        slot: end.slot,
        generation: end.generation,
    }
}

/// The port of an end, with its place.
pub fn put_port_of(page: &mut Page, wiring: &Wiring, end: Endpoint) {
    put_port(page, wiring, end.slot, end.port, i64::from(end.place));
}

/// An end: an actor and its port.
pub fn put_end(page: &mut Page, wiring: &Wiring, end: Endpoint) {
    put_actor(page, wiring, actor_at(end));
    page.put(b".");
    put_port_of(page, wiring, end);
}

/// Numbers with commas between them.
pub(crate) fn put_plain_numbers(page: &mut Page, numbers: &[i64]) {
    let mut is_first = true;
    for number in numbers {
        if !is_first {
            page.put(b", ");
        }
        page.put_signed(*number);
        is_first = false;
    }
}

/// The numbers of a message; at `frame` by the names of what they number.
fn put_numbers(page: &mut Page, wiring: &Wiring, msg: &Msg) {
    let numbers = msg.payload.numbers();
    let signal = naming::signal_name(wiring, msg);
    let is_told = msg.target.port == 0
        && msg.prio.0 != 0
        && put_frame_numbers(page, wiring, msg.target.slot, signal, numbers);
    if !is_told {
        put_plain_numbers(page, numbers);
    }
}

/// The signal of a message, its numbers and its priority.
fn put_signal(page: &mut Page, wiring: &Wiring, msg: &Msg) {
    page.put(b".");
    page.put(naming::signal_name(wiring, msg));
    page.put(b"(");
    put_numbers(page, wiring, msg);
    page.put(b") ");
    put_priority(page, msg.prio);
}

/// A message as its receiver sees it.
pub fn put_incoming(page: &mut Page, wiring: &Wiring, msg: &Msg) {
    put_port_of(page, wiring, msg.target);
    put_signal(page, wiring, msg);
}

/// A message under its name as its receiver sees it, and who sent it.
pub fn put_received(page: &mut Page, wiring: &Wiring, msg: &Msg) {
    put_name(page, wiring, msg.from, msg.stamp);
    page.put(b" ");
    put_incoming(page, wiring, msg);
    page.put(b" from ");
    match msg.source {
        Some(source) => put_end(page, wiring, source),
        None => page.put(b"environment"),
    }
}

/// A message as the actors of a slot see it that send it, and whom it is for. Where another slot sends it, that is
/// told.
pub fn put_sent(page: &mut Page, wiring: &Wiring, sender: Option<SlotId>, msg: &Msg) {
    put_name(page, wiring, msg.from, msg.stamp);
    page.put(b" ");
    match msg.source {
        Some(source) if sender == Some(source.slot) => put_port_of(page, wiring, source),
        Some(source) => put_end(page, wiring, source),
        None => page.put(b"environment"),
    }
    put_signal(page, wiring, msg);
    page.put(b" to ");
    put_end(page, wiring, msg.target);
}
