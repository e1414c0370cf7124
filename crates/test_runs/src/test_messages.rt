//! Messages for tests and measures, which no program of the repository sends. They carry no values, and are told
//! apart by their stamps.

ghost use Rattle.std.specs.Prelude.{◌≡◌};

use room_kinds::{ControllerId, Endpoint, Generation, Msg, Payload, Priority, SlotId, Stamp};
use std::alloc::Global;

/// A message without values, from one party to another.
pub fn message(alloc: Global, from: u8, to: u8, prio: u8, stamp: u64) -> Msg
    ensures from { result.from.0 ≡ from }
    ensures to { result.to.0 ≡ to }
    ensures prio { result.prio.0 ≡ prio }
    ensures stamp { result.stamp.0 ≡ stamp }
{
    Msg {
        from: ControllerId(from),
        to: ControllerId(to),
        prio: Priority(prio),
        stamp: Stamp(stamp),
        source: None,
        target: Endpoint {
            slot: SlotId(1),
            generation: Generation(1),
            port: 0,
            place: 0,
        },
        signal: 3,
        payload: Payload::empty(alloc),
    }
}
