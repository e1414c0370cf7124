//! A controller: its mail and its actors, and the calls of a run.
//!
//! A controller fetches what comes to it, takes one turn at a time, each to completion, and posts what its
//! actors send (ROOM: Selic, Gullekson and Ward 1994). Each call is the events of the world's definitions
//! that its entries name; what its end of the mail has posted and taken are just these entries.
#![tactic(auto)]

mod controller;
mod controller_state;
mod environment;
mod moves;
pub mod quiet_counts;

pub use controller::Controller;
pub use controller_actors::Plant;
pub use controller_state::{ControllerState, Started};
pub use environment::Environment;
pub use quiet_counts::{has_message, is_quiet};
