//! Accepted lines.
use room_kinds::{Endpoint, Payload, Priority};

/// What a line asks for.
#[derive(Drop)]
pub enum What {
    /// The messages above have their turns before the ones below are posted.
    Settle,
    /// The same, and then virtual time moves on by so much. What is due on the way comes before the
    /// lines below.
    Advance(u32),
    /// A message from outside. The target's generation is 0: whoever stands there.
    Message {
        target: Endpoint,
        signal: u16,
        payload: Payload,
        prio: Priority,
    },
}

/// Whether lines that move virtual time on are accepted.
#[derive(Clone, Copy, PartialEq, Eq)]
pub enum Advances {
    Taken,
    Refused,
}

/// A line with its number in the text, from 1.
#[derive(Drop)]
pub struct Line {
    pub number: u32,
    pub what: What,
}
