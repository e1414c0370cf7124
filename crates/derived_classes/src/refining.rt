//! Graphs that get what refinements add to them.

mod graphs;
mod grouped;
mod paths;
mod widening;

pub(crate) use graphs::refine_items;
pub(crate) use paths::{Pending, behind, refinements};
