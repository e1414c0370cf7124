//! The slots of a model, with its structure and its names by number, and the limits on them.

mod fault;
mod slots;

pub use fault::SlotFault;
pub use slots::{WiredSlots, wired_slots};
