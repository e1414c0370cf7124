//! Places, and how two of them are told.
use room_kinds::SlotId;

/// A place of a port of a slot.
#[derive(Clone, Copy)]
pub struct Place {
    pub slot: SlotId,
    pub port: u16,
    pub place: u32,
}

/// Which joined places are told.
#[derive(Clone, Copy)]
pub enum Tie {
    /// End places that are joined to one another.
    Join,
    /// Places of imported slots.
    Socket,
}
