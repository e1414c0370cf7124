//! The order in which timers expire.

/// When a timer is due, and its turn of arming: those that are due at one time expire in the order in
/// which they were armed.
#[derive(Clone, Copy, Drop, PartialEq, Eq, PartialOrd, Ord)]
pub(crate) struct DueTurn {
    pub(crate) due: u64,
    pub(crate) turn: u64,
}
