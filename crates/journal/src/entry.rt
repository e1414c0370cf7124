//! What a journal keeps.
use room_kinds::{ControllerId, Incarnation, Msg, Notes, Sequence, Stamp};

/// One step of a party, in the order in which the steps happened.
#[derive(Drop)]
pub enum Entry {
    /// An actor that lives from the start has taken its initial transition.
    Start {
        who: Incarnation,
        state: u16,
        notes: Notes,
    },
    /// A message came out of a mailbox and waits for its turn.
    Fetch {
        stamp: Stamp,
        msg: Msg,
    },
    /// The message that `from` stamped `sent` had its turn.
    Turn {
        stamp: Stamp,
        from: ControllerId,
        sent: Stamp,
        did: Did,
        notes: Notes,
    },
    /// A message went into a mailbox.
    Post {
        stamp: Stamp,
        msg: Msg,
    },
}

/// What a turn did. A state is that after the turn; 65,535 stands for a class without a chart.
#[derive(Clone, Copy, PartialEq, Eq)]
pub enum Did {
    /// A system message was done as a duty.
    Duty,
    Handled { who: Incarnation, state: u16 },
    /// The chain of the message executed a `defer`.
    Deferred { who: Incarnation, state: u16 },
    /// No transition was enabled.
    Unhandled { who: Incarnation, state: u16 },
    /// The message was for an incarnation that is gone.
    Stale { target: Incarnation },
    /// The message was for a slot where nobody stands.
    Empty { target: Incarnation },
}

/// The entries of one party, oldest first.
pub type Journal = Sequence<Entry>;

/// A message that no turn took by the end of a run: pending, or still in a mailbox.
#[derive(Drop)]
pub struct Left {
    pub to: ControllerId,
    pub pending: bool,
    pub msg: Msg,
}

/// The record of a run: a journal for each controller in order of number, the environment's posts,
/// what was left, and the numbers of the injection lines that were not posted.
#[derive(Drop)]
pub struct Journals {
    pub controllers: Sequence<Journal>,
    pub environment: Journal,
    pub left: Sequence<Left>,
    pub unposted: Sequence<u32>,
    pub done: bool,
}
