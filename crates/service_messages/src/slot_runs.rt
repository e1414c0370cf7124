//! Slots in the order of the tree of actor references: they are numbered depth first, so what lies below
//! a slot is a run of numbers behind it. With a table of where runs end, what is made with a slot and
//! the parts of a slot are found without a search.

mod look_up;
mod parts;
mod runs;

pub use look_up::{container_of, is_fixed, is_imported, is_optional, is_part_of};
pub use runs::SlotRuns;
