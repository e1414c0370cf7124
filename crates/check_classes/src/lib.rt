//! The rules on the classes of a model: names, types, initial values, ports and references, and the size of data classes.
//!
//! Each rule is a test over the syntax tree, defined in `specs/`; the function that judges it equals the test. They take time
//! in proportion to the model. The rules are this project's own, after ROOM (Selic, Gullekson and Ward 1994) and eTrice.
#![tactic(auto)]

pub mod class_rules;
pub mod class_sizes;

pub use class_rules::{
    has_class_names, has_field_names, has_fitting_values, has_known_actors, has_known_protocols,
    has_known_types, has_message_names, has_one_system, has_own_ports, has_part_names,
};
pub use class_sizes::{CAP, has_small_classes, size_of_types, sizes_of};
