//! The made model: actors in a ring on four controllers. It is written, not read from a file, so that a
//! run can be tried at any size. Each actor sends a number on to the next, one less each time.
//!
//! `made_model` gives its text and that of its injections, and `counts_of` what a summary tells of the
//! journals of a run.
#![tactic(auto)]

mod counts;
mod example;
mod summary;
mod texts;

pub use counts::{Counts, counts_of};
pub use example::ring_of_two;
pub use summary::{Summary, write_summary};
pub use texts::{MadeModel, made_model};
