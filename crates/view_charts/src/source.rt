//! The text of a model as its tokens and its parts.
use crate::items::{Item, head_of, parts_of, tokens_of};
use room_lexer::{Token, TokenKind, Word};
use std::alloc::{AllocError, Global};

/// The text of a model and its tokens, and where memory for what is read of them comes from.
#[derive(Clone, Copy)]
pub struct Source<'a> {
    pub alloc: Global,
    pub text: &'a [u8],
    pub tokens: &'a [Token],
}

/// Whether a word stands before the one that says what is declared, as in `conjugated Port`.
fn is_qualifier(word: Word) -> bool {
    matches!(
        word,
        Word::EventDriven | Word::Conjugated | Word::Fixed | Word::Optional | Word::Imported
    )
}

/// What the first of these tokens say is declared.
fn word_among(tokens: &[Token]) -> Option<Word> {
    for token in tokens {
        match token.kind {
            TokenKind::Ident(Some(word)) if is_qualifier(word) => (),
            TokenKind::Ident(Some(word)) => return Some(word),
            _ => return None,
        }
    }
    None
}

impl<'a> Source<'a> {
    /// The bytes of a token.
    pub fn bytes(&self, token: &Token) -> &'a [u8] {
        self.text.get(token.start..token.end).unwrap_or(&[])
    }

    /// The tokens of a part.
    pub fn tokens_of(&self, item: Item) -> &'a [Token] {
        tokens_of(self.tokens, item)
    }

    /// The parts inside a part, in order.
    pub fn parts(&self, item: Item) -> Result<Vec<Item>, AllocError> {
        parts_of(self.alloc, self.tokens, item)
    }

    /// The bytes of the head of a part.
    pub fn head(&self, item: Item) -> (usize, usize) {
        head_of(self.tokens, item)
    }

    /// The declarations of a model.
    pub fn declarations(&self) -> Result<Vec<Item>, AllocError> {
        let whole = Item {
            first: 0,
            end: self.tokens.len(),
        };
        self.parts(whole)
    }

    /// The word that says what a part declares or is.
    pub fn word(&self, item: Item) -> Option<Word> {
        word_among(self.tokens_of(item))
    }

    /// The first name in a part that is no reserved word: that of what it declares.
    pub fn name(&self, item: Item) -> Option<&'a [u8]> {
        let token = self
            .tokens_of(item)
            .iter()
            .find(|token| token.kind == TokenKind::Ident(None))?;
        Some(self.bytes(token))
    }
}
