//! The rules on the structure of a model: replication, ports with `[*]`, imported classes, threads, bindings and layer
//! connections.
//!
//! Each rule is a test over the syntax tree, defined in `specs/`; the function that judges it equals the test. A binding
//! joins two ports, seen from the class that has it; a layer connection gives service access points a service. The rules
//! are this project's own, after ROOM (Selic, Gullekson and Ward 1994) and eTrice.
#![tactic(auto)]

pub mod binding_rules;
pub mod structure_rules;

pub use binding_rules::{
    any_places_bind_once, binding_sides_agree, binding_sides_exist, layers_are_known,
};
pub use structure_rules::{
    any_places_at_end_ports, imported_classes_have_end_ports, replicates_in_range,
    subsystem_references_are_plain, threads_are_few,
};
