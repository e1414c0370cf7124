//! The messages of the frame service: requests and answers between controllers, and what it tells an
//! actor.

mod endpoints;
mod messages;

pub use endpoints::{frame_at, frame_of, id_of, is_frame, whose};
pub use messages::{announce, refused_at_once, reply, tell_parts, to_owner, told_of};
