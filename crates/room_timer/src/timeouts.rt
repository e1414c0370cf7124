//! The messages of timers that expire.
ghost use Rattle.std.specs.Prelude.{◌≡◌};
ghost use Rattle.room_timer.specs.Timers.{timeout_line};

use crate::timer::Timer;
use inject_reader::{Line, What};
use room_kinds::{Endpoint, Generation, Payload, Priority};
use std::alloc::Global;

/// The signal of a timeout, and the priority at which it comes.
const TIMEOUT: u16 = 2;

const GENERAL: u8 = 3;

/// A timeout comes to whoever stands there, under the number of a line.
pub(crate) fn timeout_line(alloc: Global, number: u32, timer: Timer) -> Line
    ensures { result ≡ timeout_line number timer }
{
    let target = Endpoint {
        slot: timer.at.slot,
        generation: Generation(0),
        port: timer.at.port,
        place: timer.at.place,
    };
    let what = What::Message {
        target,
        signal: TIMEOUT,
        payload: Payload::empty(alloc),
        prio: Priority(GENERAL),
    };
    Line { number, what }
}
