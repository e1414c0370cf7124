//! Rules on the bindings and the layer connections of a model.
//!
//! A binding joins two ports, seen from the class that has the binding: a port of that class itself or
//! of one of its references. A layer connection gives the service access points below one reference a
//! service provision point of another. The rules are this project's own, after ROOM and after eTrice's
//! textual language. Each is a test in `specs/`. What one rule finds missing, another passes over.

mod bindings;
mod ends;
mod layers;
mod parts;
mod rule;
mod rules;
mod walks;

pub use rules::{any_places_bind_once, binding_sides_agree, binding_sides_exist, layers_are_known};
