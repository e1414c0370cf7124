//! How actors end: what they send, and Destroy and PartEnd, which end the end set of a slot.

mod destruction;
mod messages;

pub use messages::{end_actors, end_parts};
