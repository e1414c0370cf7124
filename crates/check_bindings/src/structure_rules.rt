//! Rules on the structure of a model: its replication numbers, its ports with `[*]`, the references of
//! its SubSystemClasses, the classes that can be imported, and its threads.
//!
//! The rules are this project's own, after ROOM and after eTrice's textual language. Each is a test in
//! `specs/`. A class, port or protocol that a rule finds missing is passed over where another rule
//! asks for it.

mod any_places;
mod imported;
mod replication;
mod subsystems;
mod threads;

pub use any_places::any_places_at_end_ports;
pub use imported::imported_classes_have_end_ports;
pub use replication::replicates_in_range;
pub use subsystems::subsystem_references_are_plain;
pub use threads::threads_are_few;
