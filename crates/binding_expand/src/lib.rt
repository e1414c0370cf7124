//! The wiring of a model: from its syntax tree to the tables of slots, places and partners.
//!
//! Slots, ports and bindings are ROOM's (Selic, Gullekson and Ward 1994); how replicated ports are paired
//! is this project's own. The parts of the wiring are made by the crates below; this one puts them
//! together and says what the whole is: exactly the wiring of the model, or its lowest fault.
#![tactic(auto)]

mod fault;
mod joined;
mod model;
pub mod one_wiring;
mod tables;
pub mod tree_text;
pub mod wiring_tables;

pub use fault::{ExpandFault, WiringFault};
pub use model::expand;
pub use one_wiring::wirings_are_one;
pub use tree_text::expand_text;
