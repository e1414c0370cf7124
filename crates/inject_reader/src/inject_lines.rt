//! Lines of an injection text by their form: what is written on a line, before anything is looked
//! up. Which slots, ports and signals the names mean is the reader's part (`inject_reader`).
//!
//! The format is this project's own.

mod accepted;
mod fields;
mod forms;
mod texts;

pub use accepted::{Advances, Line, What};
pub use forms::{Form, Load, Target, Wanted, read_form};
