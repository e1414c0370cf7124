//! The parts of a model as the rules, the wiring and the charts speak of them: classes by kind and
//! number, ports with their kinds, references, the numbers that a type stands for.
//!
//! The definitions stand in `specs/`, over the syntax tree. This crate has the small types in which
//! they and the tables above them speak.

mod entries;
mod types;

pub use entries::{PortEntry, ReferenceEntry, TypeEntry};
pub use types::number_type;
