//! Rows of the tables of a chart: its states, and the transitions from them and from the transition
//! points of its graphs.

mod arrows;
mod lookup;
mod rows;

pub use arrows::{arrows_of, make_arrow};
pub use lookup::{number, state_number, step_at, steps_at};
pub use rows::{rows_of, shared_of};
