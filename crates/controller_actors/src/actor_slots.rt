//! What stands in a slot, and what it does: the machine of an actor, and the messages that it keeps for
//! later. A machine takes a message as a whole, and then the actor's commands are applied in order (run to
//! completion: Selic, Gullekson and Ward 1994).

mod actor_slot;
mod occupant;

pub use actor_slot::ActorSlot;
pub use occupant::{Beginning, Occupant, Reaction};
