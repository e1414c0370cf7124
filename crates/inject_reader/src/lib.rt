//! Injections: the messages from outside, read from a text over the names of a wiring.
//!
//! The format is this project's own.
#![tactic(auto)]

mod directory;
mod fault;
mod fitting;
pub mod inject_lines;
mod line_fault;
mod lines;
mod meaning;
mod parts;
mod reader;

pub use crate::inject_lines::{Advances, Line, What};
pub use fault::InjectFault;
pub use fitting::read_lines_fit;
pub use line_fault::LineFault;
pub use reader::{read_injections, read_untimed};
