//! Steps of a logical clock.
ghost use Rattle.std.specs.Prelude.{◌≡◌, ◌+◌, ◌≤◌, ◌^◌, IfOk, OnErr};
ghost use Rattle.actor_merge.specs.Parties.{stamped};

use room_kinds::{ControllerId, Msg, Stamp};
use std::alloc::{AllocError, Global};

/// The time after this one. Each stamp belongs to an entry that a journal keeps, so one that passes 64
/// bits is want of memory.
pub(crate) fn later(time: u64) -> Result<u64, AllocError>
    ensures ok { IfOk result (λ next. next ≡ time + 1) }
    ensures err { OnErr result (2 ^ 64 ≤ time + 1) }
{
    match time.checked_add(1) {
        Some(next) => Ok(next),
        None => Err(AllocError),
    }
}

/// A message as `party` posts it at this time.
pub(crate) fn stamped(m: Msg, party: ControllerId, time: u64) -> Msg
    ensures { result ≡ stamped party.0 time m }
{
    Msg {
        from: party,
        to: m.to,
        prio: m.prio,
        stamp: Stamp(time),
        source: m.source,
        target: m.target,
        signal: m.signal,
        payload: m.payload,
    }
}
