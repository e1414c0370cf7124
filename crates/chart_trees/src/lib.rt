//! The chart that a state machine's text writes.
//!
//! Every text writes a chart: what a name means is settled here, and whether it names anything is judged on the chart.
//! Programs are bound to the class in the order of the text, since the names of services are numbered as they come.
#![tactic(auto)]

mod around;
pub mod chart_codes;
pub mod chart_graphs;
mod piece;
mod read;
mod terminals;
mod transitions;
mod written;

pub use chart_codes::Marks;
pub use chart_graphs::{Chart, Graph, Point, Source, State, Target, Transition};
pub use written::{Written, write_chart};
