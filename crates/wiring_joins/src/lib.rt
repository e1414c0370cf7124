//! What each place is joined to: the far end of its chain of paired faces, or a service provision point by its layers.
//!
//! The pairs of a structure with its slots are a matching, since no face is paired twice; so each place is joined to one
//! place at most. Here are also the faults of sockets, which are places of imported slots, and who is told of whom: the
//! controllers that the owner of each slot tells of the actors that come and go there.
#![tactic(auto)]

pub mod joined_places;
pub mod layer_joins;
mod owners;
pub mod place_joins;
pub mod tellings;

pub use joined_places::{WiredPlaces, wired_places};
pub use place_joins::{has_socket_away, has_socket_pair};
pub use tellings::told_controllers;
