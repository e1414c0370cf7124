//! The rules on mappings of actors to threads, and the rule on how many parts a model may have.
//!
//! A mapping names an actor by the references that lead to it from the subsystem, as eTrice's `ActorInstanceMapping` does.
//! Each rule is a test over the syntax tree, defined in `specs/`; the function that judges it equals the test.
#![tactic(auto)]

pub mod count_rules;
pub mod mapping_rules;

pub use count_rules::has_few_parts;
pub use mapping_rules::{
    mappings_are_allowed, mappings_are_distinct, mappings_are_known, thread_names,
};
