//! An armed timer.
use room_kinds::Endpoint;

/// The timer of a place, and when it is due.
#[derive(Clone, Copy, PartialEq, Eq)]
pub struct Timer {
    pub at: Endpoint,
    pub due: u64,
}
