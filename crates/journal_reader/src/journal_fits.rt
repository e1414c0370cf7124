//! Whether journals fit a wiring: whether they speak of what it has, each in its place.

mod actors;
mod journals;
mod messages;

pub use journals::fits;
