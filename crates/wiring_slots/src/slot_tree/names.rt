//! What slots are called, and which of them are mapped to a controller.

use room_kinds::{ControllerId, Sequence};
use room_wiring::Label;

/// The name of a reference. One that has a number in brackets, also where that is 1, is replicated.
#[derive(Drop)]
pub struct ReferenceLabel {
    pub name: Label,
    pub replicated: bool,
}

/// The names of the references of each actor class by number, and of the subsystem class.
#[derive(Drop)]
pub struct SlotNames {
    pub classes: Sequence<Sequence<ReferenceLabel>>,
    pub subsystem: Sequence<ReferenceLabel>,
}

/// A step of a mapped path: a reference by its number in its class, and the index, if the path has one.
#[derive(Clone, Copy, Drop, PartialEq, Eq)]
pub struct StepPlan {
    pub reference: u16,
    pub index: Option<u64>,
}

/// A mapped path, from the subsystem class down, and the controller that it is mapped to.
#[derive(Drop)]
pub struct MappingPlan {
    pub steps: Sequence<StepPlan>,
    pub controller: ControllerId,
}
