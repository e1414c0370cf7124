//! The tables of a wiring, put together from the slots of a model and what their places are joined to.

mod laws;
mod tables;

pub use laws::assembled_tables_are_consistent;
pub use tables::assemble;
