//! What may happen next at the controllers of a replay.
use journal::{Did, Entry};
use room_kinds::{
    ControllerId, Endpoint, Generation, Msg, Notes, Payload, Priority, SlotId, Stamp,
};
use room_verify::Replay;
use std::alloc::Global;

/// How many priorities there are.
const PRIORITIES: u8 = 6;

/// What may happen at a controller.
#[derive(Clone, Copy)]
pub(crate) enum Event {
    /// It posts the message that waits to be posted.
    Post,
    /// It takes a turn.
    Turn,
    /// It fetches the front of the lane from this party, at this priority.
    Fetch(ControllerId, Priority),
}

/// Whether a message waits for a controller's turn.
pub(crate) fn has_waiting(replay: &Replay, c: ControllerId) -> bool {
    for prio in 0..PRIORITIES {
        if replay.waiting(c, Priority(prio), 0).is_some() {
            return true;
        }
    }
    false
}

/// A lane from one party to a controller that isn't empty.
fn lane_from(replay: &Replay, sender: ControllerId, c: ControllerId) -> Option<Event> {
    for prio in 0..PRIORITIES {
        if replay.on_its_way(sender, c, Priority(prio), 0).is_some() {
            return Some(Event::Fetch(sender, Priority(prio)));
        }
    }
    None
}

/// What may happen at a controller, one of so many, if anything may: it posts, else takes a turn, else
/// fetches.
pub(crate) fn open_at(replay: &Replay, controllers: u8, c: ControllerId) -> Option<Event> {
    if replay.has_outbox(c) {
        return Some(Event::Post);
    }
    if has_waiting(replay, c) {
        return Some(Event::Turn);
    }
    for sender in 0..controllers {
        let lane = lane_from(replay, ControllerId(sender), c);
        if lane.is_some() {
            return lane;
        }
    }
    lane_from(replay, ControllerId(controllers), c)
}

/// The lowest controller of so many at which something may happen, and what may.
pub(crate) fn first_open(replay: &Replay, controllers: u8) -> Option<(ControllerId, Event)> {
    for number in 0..controllers {
        let c = ControllerId(number);
        if let Some(event) = open_at(replay, controllers, c) {
            return Some((c, event));
        }
    }
    None
}

/// A message of which nothing but its lane is meant.
fn message_of(alloc: Global, from: ControllerId, prio: Priority) -> Msg {
    Msg {
        from,
        to: ControllerId(0),
        prio,
        stamp: Stamp(0),
        source: None,
        target: Endpoint {
            slot: SlotId(0),
            generation: Generation(0),
            port: 0,
            place: 0,
        },
        signal: 0,
        payload: Payload::empty(alloc),
    }
}

/// An entry that names an event, by which a replay lets it happen.
pub(crate) fn entry_for(alloc: Global, event: Event) -> Entry {
    match event {
        Event::Post => Entry::Post {
            stamp: Stamp(0),
            msg: message_of(alloc, ControllerId(0), Priority(0)),
        },
        Event::Turn => Entry::Turn {
            stamp: Stamp(0),
            from: ControllerId(0),
            sent: Stamp(0),
            did: Did::Duty,
            notes: Notes::new(alloc),
        },
        Event::Fetch(from, prio) => Entry::Fetch {
            stamp: Stamp(0),
            msg: message_of(alloc, from, prio),
        },
    }
}
