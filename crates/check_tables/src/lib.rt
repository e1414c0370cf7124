//! Tables of a model, built once, and the rules that no class contains itself.
//!
//! Each rule of the checker looks names up here, so that none of them searches the model: classes by kind and number, ports
//! and references by number, types of fields. `tables_of` makes them in time proportional to the model. A class that
//! contains itself is found before anything is built that would not end.
#![tactic(auto)]

pub mod class_tables;
pub mod containment_rules;

pub use class_tables::{
    ClassNames, Container, Tables, add_name, as_reference, carried_type, external_names,
    interface_items, interface_name, messages_of, push_if, structure_items, tables_of, type_entry,
};
pub use containment_rules::{actors_are_finite, data_is_finite, parts_of_data};
