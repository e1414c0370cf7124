//! The numbers of the messages that come in at `frame`, by the names of what they number.
use crate::names::put_actor;
use room_kinds::{Generation, Incarnation, SlotId};
use room_wiring::Wiring;
use view_pages::Page;

/// An actor's number is its slot's times this, and its generation.
const NUMBERS_OF_A_SLOT: i64 = 1 << 20;

/// What the codes of `refused` and `nameRefused` mean, from 1 on.
const CODES: [&[u8]; 9] = [
    b"an actor is there already",
    b"the index is out of range",
    b"nobody is there",
    b"no actor of this number lives",
    b"a port is joined already",
    b"an earlier answer is still awaited",
    b"the actor is of another class",
    b"the name is taken, or the port registered already",
    b"the port isn't registered",
];

/// What the numbers of a message at `frame` stand for.
#[derive(Clone, Copy)]
enum Numbers {
    /// A reference, an index and an actor.
    Actor,
    /// A reference, an index and a code.
    Refused,
    /// A port.
    Port,
    /// A port and a code.
    NameRefused,
}

/// The names of the messages with each kind of numbers.
const OF_ACTORS: [&[u8]; 5] = [b"created", b"destroyed", b"imported", b"ended", b"deported"];

const OF_PORTS: [&[u8]; 2] = [b"registered", b"withdrawn"];

fn has(names: &[&[u8]], signal: &[u8]) -> bool {
    names.iter().any(|name| *name == signal)
}

fn numbers_of(signal: &[u8]) -> Option<Numbers> {
    if has(&OF_ACTORS, signal) {
        return Some(Numbers::Actor);
    }
    if has(&OF_PORTS, signal) {
        return Some(Numbers::Port);
    }
    if has(&[b"refused"], signal) {
        return Some(Numbers::Refused);
    }
    has(&[b"nameRefused"], signal).then_some(Numbers::NameRefused)
}

/// The name of a reference of a slot's class, with the index where it is replicated.
fn put_reference(page: &mut Page, wiring: &Wiring, slot: SlotId, reference: i64, index: i64) {
    let found = match (wiring.class_of(slot), usize::try_from(reference)) {
        (Some(class), Ok(number)) => class.references.as_slice().get(number),
        _ => None,
    };
    let Some(found) = found else {
        page.put(b"reference ");
        page.put_signed(reference);
        page.put(b", index ");
        page.put_signed(index);
        return;
    };
    page.put(found.name.as_bytes());
    if found.count != 1 || index != 0 {
        page.put(b"[");
        page.put_signed(index);
        page.put(b"]");
    }
}

/// The actor of a number, as actions have it; none of a slot that isn't there.
pub fn actor_of_number(wiring: &Wiring, number: i64) -> Option<Incarnation> {
    let slot = u16::try_from(number.div_euclid(NUMBERS_OF_A_SLOT)).ok()?;
    let generation = u32::try_from(number.rem_euclid(NUMBERS_OF_A_SLOT)).ok()?;
    if u32::from(slot) >= wiring.slot_count() {
        return None;
    }
    Some(Incarnation {
        slot: SlotId(slot),
        generation: Generation(generation),
    })
}

/// The name of the actor of a number.
pub fn put_actor_number(page: &mut Page, wiring: &Wiring, number: i64) {
    match actor_of_number(wiring, number) {
        Some(who) => put_actor(page, wiring, who),
        None => page.put_signed(number),
    }
}

/// An actor by its number, as an import place has it, behind a word.
pub fn put_home(page: &mut Page, wiring: &Wiring, word: &[u8], home: u64) {
    page.put(word);
    match i64::try_from(home) {
        Ok(number) => put_actor_number(page, wiring, number),
        Err(_) => page.put_number(home),
    }
}

/// A code and what it means.
fn put_code(page: &mut Page, code: i64) {
    page.put(b"code ");
    page.put_signed(code);
    let place = usize::try_from(code.saturating_sub(1)).unwrap_or(CODES.len());
    if let Some(meaning) = CODES.get(place) {
        page.put(b": ");
        page.put(meaning);
    }
}

/// The name of a port of a slot's class by its number.
fn put_port_number(page: &mut Page, wiring: &Wiring, slot: SlotId, number: i64) {
    let port = match u16::try_from(number) {
        Ok(number) => wiring.port_of(slot, number),
        Err(_) => None,
    };
    match port {
        Some(port) => page.put(port.name.as_bytes()),
        None => page.put_signed(number),
    }
}

/// The numbers of a message at the `frame` of a slot by name, where this signal has so many; says whether it has.
pub fn put_frame_numbers(
    page: &mut Page,
    wiring: &Wiring,
    slot: SlotId,
    signal: &[u8],
    numbers: &[i64],
) -> bool {
    let Some(kind) = numbers_of(signal) else {
        return false;
    };
    match (kind, numbers) {
        (Numbers::Actor, [reference, index, actor]) => {
            put_reference(page, wiring, slot, *reference, *index);
            page.put(b", ");
            put_actor_number(page, wiring, *actor);
        }
        (Numbers::Refused, [reference, index, code]) => {
            put_reference(page, wiring, slot, *reference, *index);
            page.put(b", ");
            put_code(page, *code);
        }
        (Numbers::Port, [port]) => put_port_number(page, wiring, slot, *port),
        (Numbers::NameRefused, [port, code]) => {
            put_port_number(page, wiring, slot, *port);
            page.put(b", ");
            put_code(page, *code);
        }
        _ => return false,
    }
    true
}
