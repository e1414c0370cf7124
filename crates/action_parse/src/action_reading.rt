//! Readers of the action language: expressions and statements from tokens, and the definitions and
//! laws that say what they read.

mod expressions;
mod laws;
mod statement;

pub use expressions::{operand, operator_comes, path};
pub use laws::one_tree;
pub use statement::{else_if_comes, expression, is_send, prio, register, statements, withdraw};
