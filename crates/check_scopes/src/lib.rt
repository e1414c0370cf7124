//! What the actions of each actor class can name: its numbers, its ports with the messages that pass there, and its
//! references.
//!
//! `scopes_of` gives the scope of each class of a model that keeps the rules before. The types of the numbers for which data
//! classes stand are worked out once, each class after those of its fields. `signal_table` has the messages that ports have:
//! those of each protocol class, and the nine of the frame service.
#![tactic(auto)]

pub mod class_scopes;
pub mod number_kinds;

pub use class_scopes::{SignalTable, Signals, actor_classes, scopes_of, signal_table};
pub use number_kinds::kinds_of;
