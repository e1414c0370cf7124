//! The programs, conditions and events that a chart's text writes, bound to a class.
//!
//! A code's texts joined by line feeds are a program or a condition of the action language; an
//! event names a port of the class and a message that comes in there. What isn't the class's is
//! told apart from want of memory, so that a reader of charts can go on and tell the lowest fault.

mod actions;
mod event;
mod marks;
mod parse;
mod text;
mod trigger;

pub use actions::{action, no_action};
pub use marks::Marks;
pub use parse::condition;
pub use text::code_bytes;
pub use trigger::{guard, triggers};
