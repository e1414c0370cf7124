//! The rules on mappings: which actor a path names, and which paths may be mapped to a thread.
//!
//! A mapping names an actor by the references that lead to it from the subsystem, as eTrice's
//! `ActorInstanceMapping` does; the rules are this project's own.

mod allowed;
mod known;
mod text_tree;
mod texts;
mod walk;
mod wired;

pub use allowed::mappings_are_allowed;
pub use known::{mappings_are_known, thread_names};
pub use texts::mappings_are_distinct;
