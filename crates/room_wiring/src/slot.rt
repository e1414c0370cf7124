//! Slots, and what a place is joined to.
use crate::path::Path;
use room_kinds::{ControllerId, ReferenceKind as Kind, SlotId};

/// A place in the tree of actor references.
#[derive(Drop, Debug)]
pub struct Slot {
    /// The names from the top down to this slot, joined by `/`; a replicated reference's is
    /// `name:index`.
    pub path: Path,
    /// The number of its actor class.
    pub class: u16,
    pub kind: Kind,
    /// The slot that it is a part of; none at the top.
    pub parent: Option<SlotId>,
    /// The controller that runs the actors of this slot.
    pub owner: ControllerId,
    /// The number of its reference in the parent's class, and the index there.
    pub reference: u16,
    pub index: u32,
}

/// What a place of a port is joined to.
#[derive(Clone, Copy, Debug, PartialEq, Eq)]
pub enum Partner {
    Nobody,
    /// A place at which an actor's own behaviour works.
    End { slot: SlotId, port: u16, place: u32 },
    /// A place of an imported slot, behind which the actor stands that is imported there.
    Socket { slot: SlotId, port: u16, place: u32 },
}
