//! The charts of a checked model.
//!
//! `charts_of` reads the chart of each actor class, in order of declaration, or tells the first class
//! whose chart has a fault, and the lowest fault that it has.

mod charts;
mod fault;
mod laws;

pub use charts::charts_of;
pub use fault::ChartsFault;
pub use laws::charts_are_one;
