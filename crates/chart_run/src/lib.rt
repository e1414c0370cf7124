//! Machines that run the tables of a chart, run to completion.
//!
//! A machine takes a message as a whole: exits, actions and entries of the chain that it triggers run
//! before the next message is looked at (run to completion: Selic, Gullekson and Ward 1994).
#![tactic(auto)]

pub mod chart_tables;
mod machine;
mod outcome;

pub use chart_tables::{Arrow, Event, Node, Row, Tables, Trigger};
pub use machine::Machine;
pub use outcome::{Handling, Outcome};
