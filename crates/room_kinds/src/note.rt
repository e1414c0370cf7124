//! What a turn or a start tells beside its result.
use crate::numbers::Incarnation;
use crate::sequence::Sequence;

/// A note in a journal. It follows the entry that it belongs to.
#[derive(Clone, Copy, Debug, PartialEq, Eq)]
pub enum Note {
    /// A divisor was 0.
    Zero,
    /// A `defer` without a message.
    NoMessage,
    /// A send at a place that has no peer, or that the port doesn't have.
    Unbound { port: u16, place: i64 },
    /// So many messages came back.
    Recall { count: u64 },
    /// An actor was created; its state after its initial transition, 65,535 for a class without a
    /// chart.
    Up { who: Incarnation, state: u16 },
    /// An actor was destroyed, and so many messages that it had kept are lost.
    Down { who: Incarnation, lost: u64 },
}

/// Notes in the order in which they came.
pub type Notes = Sequence<Note>;
