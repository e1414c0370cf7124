//! What the bindings of a class take of their sides.
//!
//! A binding takes the first places that are free, so what the bindings of a class take is the same in
//! each container of that class, and what is taken of a side is always its first places: a number for
//! each side tells all.

mod class;
mod supply;
mod taken;

pub use class::{ClassStretches, class_stretches, no_stretches};
pub use taken::{Taken, inner_number, own_number};
