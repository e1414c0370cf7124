//! The rules on what a class refines.

mod keys;
mod named;
mod names;
mod once;
mod search;

pub use named::{chart_is_known, refines_known};
pub(crate) use named::{graph_of, refinements_of};
pub use once::refines_once;
