//! The actors of a controller: what they do at the start, and what a turn makes of a message.
//!
//! A message of priority 1 to 5 goes to the actor that stands in its slot, whose machine handles it to
//! completion; then the actor's commands are applied in order (`actor_commands`; ROOM: Selic, Gullekson and Ward 1994). A
//! message of priority 0 is a duty of the frame service, by which actors come up, go down, and are lent, or
//! of the layer service, by which service points meet by name. Each call is exactly the definition of
//! `actor_world`.
#![tactic(auto)]

pub mod actor_commands;
pub mod actor_slots;
mod actors;
mod changes;
mod duties;
mod looks;
mod plant;
mod services;
mod slot_rows;
mod start;

pub use actors::{Actors, Begun};
pub use plant::Plant;
pub use services::ActorServices;
pub use slot_rows::SlotRows;
