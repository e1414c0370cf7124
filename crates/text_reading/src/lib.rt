//! Reading plain texts: cuts at a byte, and decimal numerals. Every reader of lines stands on it.
#![tactic(auto)]

mod cuts;
mod numerals;

pub use cuts::{cut, length_before};
pub use numerals::{MOST, are_digits, number, plain_number, value};
