//! Verdicts.
use room_kinds::{ControllerId, Stamp};

/// What is said of journals: that they are lawful, or the first of their faults. A party is a controller or the
/// environment, which has the number after the last controller.
#[derive(Clone, Copy, PartialEq, Eq)]
pub enum Verdict {
    /// The stamps of a party don't rise; the lowest party.
    Order(ControllerId),
    /// A controller's journal doesn't begin with its start, or has a start elsewhere; the lowest controller.
    Start(ControllerId),
    /// The entry of a party with this stamp can't happen where it stands, or isn't what happens there; the first
    /// by stamp and party.
    Entry(ControllerId, Stamp),
    /// What is told as left isn't what is left.
    Left,
    /// A controller took more turns than the fuel; the lowest controller.
    Fuel(ControllerId),
    /// The run hasn't ended as the journals say.
    Ended,
    /// A controller took the turn with this stamp before it had fetched what it sent itself; the first by
    /// controller and stamp.
    Prompt(ControllerId, Stamp),
    Lawful,
}
