//! Which faces of places are paired, by bindings and by layer connections.

mod bindings;
mod containers;
mod faces;
mod layers;
mod sides;

pub use bindings::{Container, add_binding_pairs};
pub use containers::container_pairs;
pub use layers::layer_pairs;
