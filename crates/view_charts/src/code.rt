//! Codes of a model: their texts joined, and where each byte stands in the model's text.
use crate::items::Item;
use crate::source::Source;
use room_lexer::{LexFault, Token, TokenKind, lex};
use std::alloc::{AllocError, Global};

/// A code: the bytes of its texts, joined by line feeds, where each of them stands in the model's text, and its
/// tokens.
#[derive(Drop)]
pub struct Code {
    bytes: Vec<u8>,
    places: Vec<usize>,
    tokens: Vec<Token>,
}

/// The tokens of a text; none where it isn't made of tokens, which no code of an accepted model is.
fn tokens_in(alloc: Global, text: &[u8]) -> Result<Vec<Token>, AllocError> {
    match lex(alloc, text) {
        Ok(tokens) => Ok(tokens),
        Err(LexFault::Memory) => Err(AllocError),
        Err(_) => Ok(Vec::new(alloc)),
    }
}

impl Code {
    fn push(&mut self, byte: u8, place: usize) -> Result<(), AllocError> {
        self.bytes.push(byte)?;
        Ok(self.places.push(place)?)
    }

    /// Adds the contents of a block that begins at a place.
    fn add_block(&mut self, raw: &[u8], start: usize) -> Result<(), AllocError> {
        let end = raw.len().saturating_sub(3);
        for (at, byte) in raw.iter().enumerate() {
            if at >= 3 && at < end {
                self.push(*byte, start.saturating_add(at))?;
            }
        }
        Ok(())
    }

    /// Adds the contents of a string that begins at a place: a backslash and the byte that it takes are one byte.
    fn add_string(&mut self, raw: &[u8], start: usize) -> Result<(), AllocError> {
        let end = raw.len().saturating_sub(1);
        let mut is_taken = false;
        for (at, byte) in raw.iter().enumerate() {
            if at == 0 || at >= end {
                continue;
            }
            if *byte == b'\\' && !is_taken {
                is_taken = true;
                continue;
            }
            let stands_for = if is_taken && *byte == b'n' {
                b'\n'
            } else {
                *byte
            };
            is_taken = false;
            self.push(stands_for, start.saturating_add(at))?;
        }
        Ok(())
    }

    /// Adds the contents of a token, if it is a text, behind a line feed.
    fn add_text(&mut self, source: Source<'_>, token: &Token) -> Result<(), AllocError> {
        let raw = source.bytes(token);
        match token.kind {
            TokenKind::Str => {
                self.push(b'\n', token.start)?;
                self.add_string(raw, token.start)
            }
            TokenKind::Block => {
                self.push(b'\n', token.start)?;
                self.add_block(raw, token.start)
            }
            TokenKind::Ident(_) | TokenKind::Number(_) | TokenKind::Mark(_) => Ok(()),
        }
    }

    fn new(alloc: Global) -> Code {
        Code {
            bytes: Vec::new(alloc),
            places: Vec::new(alloc),
            tokens: Vec::new(alloc),
        }
    }

    /// Adds the texts among tokens.
    fn add_texts(&mut self, source: Source<'_>, tokens: &[Token]) -> Result<(), AllocError> {
        for token in tokens {
            self.add_text(source, token)?;
        }
        Ok(())
    }

    /// The code of the texts in a part of a model.
    pub fn of(source: Source<'_>, item: Item) -> Result<Code, AllocError> {
        let mut code = Code::new(source.alloc);
        code.add_texts(source, source.tokens_of(item))?;
        code.tokens = tokens_in(source.alloc, code.bytes.as_slice())?;
        Ok(code)
    }

    /// The tokens of the code.
    pub fn tokens(&self) -> &[Token] {
        self.tokens.as_slice()
    }

    /// The text of the code, each text of it behind a line feed.
    pub fn text(&self) -> &[u8] {
        self.bytes.as_slice()
    }

    /// The bytes of a token.
    pub fn bytes(&self, token: &Token) -> &[u8] {
        self.bytes
            .as_slice()
            .get(token.start..token.end)
            .unwrap_or(&[])
    }

    /// Where tokens stand in the model's text, from the first of them to the last.
    pub fn span(&self, first: &Token, last: &Token) -> (usize, usize) {
        let places = self.places.as_slice();
        let start = places.get(first.start).copied().unwrap_or(0);
        let end = match places.get(last.end.saturating_sub(1)).copied() {
            Some(place) => place.saturating_add(1),
            None => start,
        };
        (start, end)
    }
}
