//! Whether messages are on their way, by counts alone: of what the journals say was posted and fetched, and
//! of what waits in controllers.
//!
//! Each lane is first in, first out, and loses nothing, so it is empty where as many messages were fetched
//! from it as were posted to it. No mailbox is looked at, and nothing takes memory.

mod counted;
mod quiet;

pub use quiet::{has_message, is_quiet};
