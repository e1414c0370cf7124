//! The end of a run: when it has ended, and the journals that are told of it.

mod finished;
mod telling;

pub use telling::told;
