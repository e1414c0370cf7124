//! The chart of an actor class, read from its text and judged.
//!
//! `read_chart` gives the chart that a state machine's text writes, or the lowest of the eight faults that it has;
//! `charts_of` those of all classes of a checked model. The rules on names and transitions are tests on the chart; whether
//! nodes lead in a circle is one walk over them.
#![tactic(auto)]

pub mod chart_nodes;
pub mod chart_rules;
mod depth;
mod fault;
pub mod model_charts;
mod reader;

pub use chart_nodes::{Step, named_key, node_order, plain_key, steps_of, target_index, target_key};
pub use fault::{ChartFault, ReadFault};
pub use model_charts::{ChartsFault, charts_are_one, charts_of};
pub use reader::read_chart;
