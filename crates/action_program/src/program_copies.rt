//! Copies of programs whose names are numbers.

mod expressions;
mod programs;

pub use expressions::{copy_expr, copy_guard};
pub use programs::copy_program;
