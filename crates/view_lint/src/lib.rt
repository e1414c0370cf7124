//! What the author of an accepted model hardly meant (docs/LINT.md): sends that get to nobody, messages that no state
//! takes, states that are never entered, and the like.
//!
//! The text of the model tells what its actor classes declare (`classes`), and what their charts are and their actions
//! do, each at its place; the wiring tells which places of ports are joined. The rules (`rules`) put both together.
//!
//! All calls are safe and end; that they find what they should is shown by cases.
#![tactic(auto)]

mod classes;
mod conditions;
mod finding;
mod injected;
mod listing;
mod model;
mod page;
mod places;
mod rules;

pub use page::tell_findings;
