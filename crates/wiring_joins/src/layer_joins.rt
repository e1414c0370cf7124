//! Which service access points are joined to which service provision points.
//!
//! A layer connection of a container gives the service access points below one of its references a
//! service of another one. For each access point the innermost container decides that has a fitting
//! connection, and there the first one declared.

mod index;
mod indexes;
mod joins;
mod service;

pub use index::{LayerIndex, class_index};
pub use indexes::{Indexes, indexes_of};
pub use joins::layer_joins;
