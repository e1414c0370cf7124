//! A copy of a text in which parts are blanked out.
use room_lexer::Token;
use std::alloc::{AllocError, Global};
use view_charts::{Item, tokens_of};

/// A copy of a text in which parts are blanked out. All other bytes stand where they stood.
#[derive(Drop)]
pub(crate) struct Draft<'a> {
    text: &'a [u8],
    tokens: &'a [Token],
    bytes: Vec<u8>,
}

/// The bytes of a part: the first, and the one behind the last.
fn span_of(tokens: &[Token], item: Item) -> (usize, usize) {
    match tokens_of(tokens, item) {
        [first, .., last] => (first.start, last.end),
        [only] => (only.start, only.end),
        [] => (0, 0),
    }
}

impl<'a> Draft<'a> {
    pub(crate) fn of(
        alloc: Global,
        text: &'a [u8],
        tokens: &'a [Token],
    ) -> Result<Draft<'a>, AllocError> {
        let mut bytes = Vec::with_capacity(alloc, text.len())?;
        bytes.extend_from_slice(text)?;
        Ok(Draft {
            text,
            tokens,
            bytes,
        })
    }

    pub(crate) fn tokens(&self) -> &'a [Token] {
        self.tokens
    }

    pub(crate) fn bytes(&self) -> &[u8] {
        self.bytes.as_slice()
    }

    /// Blanks a part out; the ends of its lines stay.
    fn blank(&mut self, item: Item) {
        let (start, end) = span_of(self.tokens, item);
        if let Some(part) = self.bytes.as_mut_slice().get_mut(start..end) {
            for byte in part.iter_mut() {
                if *byte != b'\n' {
                    *byte = b' ';
                }
            }
        }
    }

    fn restore(&mut self, item: Item) {
        let (start, end) = span_of(self.tokens, item);
        let Some(old) = self.text.get(start..end) else {
            return;
        };
        if let Some(part) = self.bytes.as_mut_slice().get_mut(start..end) {
            for (byte, before) in part.iter_mut().zip(old.iter()) {
                *byte = *before;
            }
        }
    }

    pub(crate) fn blank_all(&mut self, items: &[Item]) {
        for item in items {
            self.blank(*item);
        }
    }

    pub(crate) fn restore_all(&mut self, items: &[Item]) {
        for item in items {
            self.restore(*item);
        }
    }
}
