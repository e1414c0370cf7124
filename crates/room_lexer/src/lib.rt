//! The tokens of a text, exactly.
//!
//! `lex` cuts the bytes of a text into tokens, passing over blanks, comments and documentation, or tells the first byte at
//! which the cut fails and why. The definition is a relation on texts that stands apart from the code. The model language,
//! the action language and values in strings have these tokens.
#![tactic(auto)]

mod cutting;
mod enclosed;
mod fault;
mod piece;
mod token;
mod word;

pub use cutting::{lex, next_piece, spans};
pub use fault::LexFault;
pub use piece::{Cause, Kind, word_len};
pub use token::{Mark, Token, TokenKind};
pub use word::{Word, spelling, words_with};
