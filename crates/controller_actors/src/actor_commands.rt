//! The commands of an actor, applied in order: what it sends, what it keeps for later and takes back, and
//! what it asks of the frame service and of the layer service (ROOM: Selic, Gullekson and Ward 1994). All
//! steps are exactly the definitions of `actor_world`.

pub mod command_sends;
mod commands;
pub mod deferred_messages;
mod output;

pub use command_sends::{Services, Speaker};
pub use commands::apply_all;
pub use deferred_messages::{DeferredMessages, Recalled};
pub use output::Output;
