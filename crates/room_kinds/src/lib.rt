//! The numbers, messages, commands and notes that every other crate speaks of.
//!
//! A message travels from a party to a controller: the model of ROOM (Selic, Gullekson and Ward
//! 1994), with the stamps of Lamport's logical clocks (1978). The numbers of the priorities, the
//! incarnations and the frame service's messages are this project's own.
#![tactic(auto)]

mod command;
mod message;
mod note;
mod number_type;
mod numbers;
mod payload;
mod place_state;
mod sequence;
mod shared;
mod structure;
mod system;

pub use command::{Command, Commands, FrameCommand, NameCommand};
pub use message::{Msg, Outbox};
pub use note::{Note, Notes};
pub use number_type::NumberType;
pub use numbers::{ControllerId, Endpoint, Generation, Incarnation, Priority, SlotId, Stamp};
pub use payload::Payload;
pub use place_state::PlaceState;
pub use sequence::Sequence;
pub use shared::SharedSequence;
pub use structure::{PortKind, ReferenceKind};
pub use system::SysKind;
