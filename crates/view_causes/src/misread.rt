//! Words that stand where a name is wanted.
use name_tables::is_part_word;
use room_lexer::{Token, TokenKind};

/// What a token is that stands where a name is wanted, and is none.
pub fn word_meaning<'a>(token: &Token, bytes: &'a [u8]) -> Option<&'a [u8]> {
    match token.kind {
        TokenKind::Ident(Some(_)) => Some(b"is a word of the language, and so no name"),
        TokenKind::Ident(None) if bytes != b"frame".as_slice() && is_part_word(bytes) => {
            Some(b"is a word of the action language, and so no name here")
        }
        _ => None,
    }
}
