//! Programs of the action language against the class in which they stand.
//!
//! The check answers the first fault of the text, else the same program with each name replaced by
//! its number.

mod check;
mod expression;
mod names;
mod send;
mod statement;

pub use check::{check_action, check_cond};
pub use names::ServiceNames;
