//! The places of the slots of a structure, and what each place is joined to by its bindings and layer
//! connections.

mod joining;
mod places;

pub use places::{WiredPlaces, wired_places};
