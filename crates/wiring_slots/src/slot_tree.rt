//! The slots of a model's structure: each actor reference that is wired, with its index, depth first.
//!
//! A slot is a place at which an actor may stand (ROOM: Selic, Gullekson and Ward 1994). The order of
//! the numbers, the owners and the limits are this project's own. The slots are made with a stack of
//! those that wait, so that neither deep containment nor a structure that stands for more slots than
//! the limit takes more room than the limit. A path shares the text of its container's path and adds
//! its own segment, so all paths together take time and room in proportion to the names that are
//! written, however deep the containers nest.

mod children;
mod counts;
mod leading;
mod mapping_order;
mod names;
mod owners;
mod paths;
mod placed_slots;
mod places;
mod runs;
mod slots;

pub use counts::has_few_slots;
pub use mapping_order::MappingOrder;
pub use names::{MappingPlan, ReferenceLabel, SlotNames, StepPlan};
pub use places::has_too_many_places;
pub use slots::slots_of;
