//! An actor class over its base: the class that comes of both, the base's chart with what the class
//! refines in it, and the rules on what it refines.
#![tactic(auto)]

mod copies;
mod derived_class;
mod machine;
mod refining;
mod rules;

pub use copies::copy_items;
pub use derived_class::{chart_over, copy_actor, derived};
pub use machine::machine_of;
pub use rules::{chart_is_known, refines_known, refines_once};
