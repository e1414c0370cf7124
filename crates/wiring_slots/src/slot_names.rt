//! What the slots of a model are called, which of them are mapped to a thread, and the controllers.

mod names;
mod ways;
mod wired;

pub use names::{WiredNames, wired_names};
