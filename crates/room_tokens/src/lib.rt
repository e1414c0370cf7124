//! Reading lists of tokens: what is left to read, single tokens of it, and the readers of lists
//! of token values that say what a parser reads. Every parser of the repository stands on it.
#![tactic(auto)]

pub mod action_tokens;
mod contents;
mod fault;
mod lexeme;
mod model_token;
mod repeat;
mod rest;

pub use contents::{block_contents, spelled, string_contents};
pub use fault::ReadFault;
pub use lexeme::Lexeme;
pub use model_token::{before_close, block, comes_name, comes_string, string, word_here, word_if};
pub use repeat::{Part, TreePart, braces, each, each_tree};
pub use rest::{
    Rest, comes, comes_word, name, next, number, place, skip, take_mark, take_word, text,
};
