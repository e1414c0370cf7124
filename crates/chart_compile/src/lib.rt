//! The tables of a chart's machine, compiled from the chart.
//!
//! A chart is compiled once for its class; a machine then only looks up numbers. Nodes are numbered so that each leads to
//! lower ones, so that a chain ends without being counted. The tables of a valid chart are sound and show the chart.
#![tactic(auto)]

mod assemble;
pub mod chart_compiled;
pub mod chart_kinds;
pub mod chart_numbers;
pub mod chart_parts;
pub mod chart_places;
pub mod chart_rows;
mod nodes;
mod start;
mod tables;

pub use chart_reader::read_chart;
pub use tables::compile;
