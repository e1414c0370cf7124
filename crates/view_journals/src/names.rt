//! How a page names actors, ports, states, controllers and priorities.
use journal::naming;
use room_kinds::{ControllerId, Incarnation, Priority, SlotId, Stamp};
use room_wiring::{Path, SignalNames, Wiring};
use view_pages::Page;

/// How many places a port of a slot has; none where there is no such port.
pub fn place_count(wiring: &Wiring, slot: SlotId, port: usize) -> u32 {
    if u32::from(slot.0) >= wiring.slot_count() || port >= wiring.port_count(slot) {
        return 0;
    }
    match u16::try_from(port) {
        Ok(port) => wiring.places(slot, port),
        Err(_) => 0,
    }
}

/// The name of a priority; none of one that no message has.
fn priority_name(prio: Priority) -> Option<&'static [u8]> {
    match prio.0 {
        0 => Some(b"system"),
        1 => Some(b"panic"),
        2 => Some(b"high"),
        3 => Some(b"general"),
        4 => Some(b"low"),
        5 => Some(b"background"),
        _ => None,
    }
}

/// A priority by its name.
pub fn put_priority(page: &mut Page, prio: Priority) {
    match priority_name(prio) {
        Some(name) => page.put(name),
        None => page.put_number(u64::from(prio.0)),
    }
}

/// The path of a slot.
pub fn put_path(page: &mut Page, path: &Path) {
    let text = path.to_vec(page.alloc());
    page.put_made(text);
}

/// The path of an actor; from the second one of its slot on with its generation.
pub fn put_actor(page: &mut Page, wiring: &Wiring, who: Incarnation) {
    if let Some(slot) = wiring.get_slot(who.slot) {
        put_path(page, &slot.path);
    }
    if who.generation.0 > 1 {
        page.put(b"#");
        page.put_number(u64::from(who.generation.0));
    }
}

/// The name of a port of a slot, with the place where it has several.
pub fn put_port(page: &mut Page, wiring: &Wiring, slot: SlotId, port: u16, place: i64) {
    page.put(wiring.port_name(slot, port));
    if place != 0 || place_count(wiring, slot, usize::from(port)) > 1 {
        page.put(b"[");
        page.put_signed(place);
        page.put(b"]");
    }
}

/// The name of a controller.
pub fn put_controller(page: &mut Page, wiring: &Wiring, controller: usize) {
    page.put(naming::controller_name(wiring, controller));
}

/// What journals call a message: by its sender and the stamp of its post.
pub fn put_name(page: &mut Page, wiring: &Wiring, from: ControllerId, sent: Stamp) {
    if from.0 < wiring.controller_count() {
        page.put_number(u64::from(from.0));
    } else {
        page.put(b"env");
    }
    page.put(b"@");
    page.put_number(sent.0);
}

/// Whether actors of a slot have a chart.
fn has_chart(wiring: &Wiring, slot: SlotId) -> bool {
    match wiring.class_of(slot) {
        Some(class) => !class.states.is_empty(),
        None => false,
    }
}

/// In which state an actor of a slot is.
pub fn put_state(page: &mut Page, wiring: &Wiring, slot: SlotId, state: u16) {
    if has_chart(wiring, slot) {
        page.put(b"in ");
        page.put(naming::state_label(wiring, slot, state));
    } else {
        page.put(b"without a chart");
    }
}

/// From which state to which an actor of a slot went, where its state before is known.
pub fn put_states(page: &mut Page, wiring: &Wiring, slot: SlotId, before: Option<u16>, after: u16) {
    match before {
        Some(before) if before != after => {
            page.put(naming::state_label(wiring, slot, before));
            page.put(b" -> ");
            page.put(naming::state_label(wiring, slot, after));
        }
        _ => put_state(page, wiring, slot, after),
    }
}

fn has_name(signals: &[SignalNames], name: &[u8]) -> bool {
    signals.iter().any(|signal| signal.name.is(name))
}

/// Whether a port of a slot has a signal of this name, or the system has a kind of messages of this name.
pub fn find_signal(wiring: &Wiring, name: &[u8]) -> bool {
    if room_kinds::SysKind::from_name(name).is_some() {
        return true;
    }
    for number in 0..wiring.slot_count() {
        if let Some(class) = wiring.class_of(SlotId(number as u16)) {
            let ports = class.ports.as_slice();
            if ports.iter().any(|port| {
                has_name(port.incoming.as_slice(), name) || has_name(port.outgoing.as_slice(), name)
            }) {
                return true;
            }
        }
    }
    false
}
