//! The parser of the model language: the one syntax tree that has the tokens of a text, or that there is none.
//!
//! Actor classes and state machines are read here, over the readers of `structure_parser`. No two models have one list of
//! tokens (`one_tree`), so a text means one model. The language is a profile of eTrice's textual ROOM.
#![tactic(auto)]

mod actors;
pub mod chart_parser;
mod fault;
mod models;
mod parsing;

pub use fault::ParseFault;
pub use parsing::{one_tree, parse};
