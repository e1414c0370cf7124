//! The slots of a model: each actor reference that is wired, with its index, depth first.
//!
//! A slot is a place at which an actor may stand (ROOM: Selic, Gullekson and Ward 1994). Here are their numbers, paths and
//! owners, the controllers, and the limits on slots and places, judged before anything of that size is made. The order of the
//! numbers and the owners are this project's own.
#![tactic(auto)]

pub mod model_slots;
pub mod slot_names;
pub mod slot_tree;

pub use model_slots::{SlotFault, WiredSlots, wired_slots};
