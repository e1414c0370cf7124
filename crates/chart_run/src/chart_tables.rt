//! The tables of a chart by number, and what a chain does over them.
//!
//! A state's row holds all that is looked at when a message comes while the state is active, so that
//! nothing is found by name at run time. The state machines are ROOM's (Selic, Gullekson and Ward
//! 1994); the order of tries, the chain and the history rule are this project's own.

mod chain;
mod mind;
mod tables;
mod tries;

pub use mind::Mind;
pub use tables::{Arrow, Event, Node, Row, Tables, Trigger};
pub use tries::Taken;
