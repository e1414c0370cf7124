//! The messages that an actor keeps for later, and the commands on them.
//!
//! `defer` keeps the message in hand, `recall` and `recallAll` bring messages back (ROOM: Selic, Gullekson
//! and Ward 1994; the exact rules are this project's own). A step is exactly the definition of its command
//! in `actor_duties`.

mod deferred;
mod queue;

pub use deferred::DeferredMessages;
pub use queue::Recalled;
