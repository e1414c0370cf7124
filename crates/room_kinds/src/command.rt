//! What an actor's action asks for.
use crate::numbers::Priority;
use crate::payload::Payload;
use crate::sequence::Sequence;

/// A command of an action, in the order in which the action gave it.
#[derive(Drop, Debug)]
pub enum Command {
    /// A message to the peer of a place of a port; without a place, to the peers of all places.
    Send {
        port: u16,
        place: Option<i64>,
        signal: u16,
        payload: Payload,
        prio: Priority,
    },
    /// The message that is handled is kept for later.
    Defer,
    /// The oldest message that was kept comes back.
    Recall,
    /// All messages that were kept come back.
    RecallAll,
    Frame(FrameCommand),
    Name(NameCommand),
}

/// A request to the frame service: the life of actors and the import of actors. The index is that
/// of a replicated reference, 0 for others; the id is an incarnation's number.
#[derive(Clone, Copy, Drop, Debug, PartialEq, Eq)]
pub enum FrameCommand {
    Incarnate { reference: u16, index: i64 },
    Destroy { reference: u16, index: i64 },
    Import { reference: u16, index: i64, id: i64 },
    Deport { reference: u16, index: i64 },
}

/// A request to the layer service, where service points meet by name.
#[derive(Clone, Copy, Drop, Debug, PartialEq, Eq)]
pub enum NameCommand {
    Register { port: u16, name: u32 },
    Withdraw { port: u16 },
}

/// Commands in the order in which they are to be applied.
pub type Commands = Sequence<Command>;
