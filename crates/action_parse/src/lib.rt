//! The parser of the action language: the program or the condition of a text.
//!
//! A text is read exactly, at any depth: a syntax fault is told only where it has no program, and one that nests too deep is
//! told only where it has one beyond the limits. The readers of expressions and statements, with the definitions of what they
//! read, are the module `action_reading`.
#![tactic(auto)]

pub mod action_reading;
mod goal;
mod parse;
mod recogniser;
mod repeats;

pub use parse::{parse_action, parse_cond};
