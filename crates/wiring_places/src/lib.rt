//! The places of ports: how many each port of each slot has, and which of their faces bindings and layer connections pair.
//!
//! A binding takes the first places that are free on both its sides, so what the bindings of a class take is the same in each
//! container of that class. The definitions stand in `specs/place_rules`, over numbers; each part of the code equals its
//! definition.
#![tactic(auto)]

pub mod binding_stretches;
pub mod place_pairs;
pub mod place_rules;
pub mod place_spans;
pub mod slot_children;

pub use binding_stretches::ClassStretches;
pub use place_pairs::{container_pairs, layer_pairs};
pub use place_rules::{LayerJoin, Place, Role};
pub use place_spans::{
    all_places, container_stretches, first_ports, port_counts, served_table, spans_of,
};
pub use slot_children::{Children, children_table, container_of_parent};
