//! The text that `room tree` prints: the slots of a wiring, its joined places and its sockets.
//! Nothing here takes memory.
//!
//! The text is this project's own.

mod names;
mod place;
mod text;

pub use text::expand_text;
