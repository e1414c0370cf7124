//! Walks over graphs whose nodes are numbers, in linear time.
//!
//! Whether a class contains itself, and an order in which each class stands after its parts, is one depth-first walk. The
//! ends of chains of paired faces say which places bindings join through relay ports. Neither knows anything of models:
//! both are proved of numbers alone.
#![tactic(auto)]

pub mod class_containment;
pub mod face_chains;

pub use class_containment::{containment_order, contains_itself};
pub use face_chains::{FacePair, far_ends};
