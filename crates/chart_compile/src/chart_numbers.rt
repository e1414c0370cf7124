//! The numbers of a chart's nodes and states.
//!
//! Nodes are numbered so that each leads to nodes with lower numbers, so a chain over numbers ends
//! without being counted. States have the numbers of the chart.

mod keys;
mod order;

pub use keys::state_keys;
pub use order::{NodeOrder, number_nodes};
