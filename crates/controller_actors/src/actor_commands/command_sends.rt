//! Sends: what an action says at a place of a port, or at all places of it.
//!
//! A message goes to the peer of a place, and without one the note `unbound` is made (ROOM: Selic, Gullekson
//! and Ward 1994; the exact rules are this project's own). To whom places lead is left to the trait `Services`.
//! Each step is exactly the definition of its command in `actor_duties`.

mod broadcasts;
mod sends;
mod services;
mod speaker;

pub use broadcasts::broadcast;
pub use sends::send;
pub use services::Services;
pub use speaker::{Content, Speaker};
