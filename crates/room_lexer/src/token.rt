//! Tokens.
ghost use Rattle.std.specs.Prelude.{◌≡◌};
ghost use Rattle.room_lexer.specs.Marks.{mark_of, pair_of};

use crate::word::Word;

/// A mark: one or two bytes that are neither letters nor digits.
#[derive(Clone, Copy, Debug, PartialEq, Eq)]
pub enum Mark {
    /// `{`
    OpenBrace,
    /// `}`
    CloseBrace,
    /// `(`
    OpenParen,
    /// `)`
    CloseParen,
    /// `[`
    OpenBracket,
    /// `]`
    CloseBracket,
    /// `<`
    Less,
    /// `>`
    Greater,
    /// `:`
    Colon,
    /// `,`
    Comma,
    /// `.`
    Dot,
    /// `*`
    Star,
    /// `-`
    Minus,
    /// `=`
    Equals,
    /// `|`
    Bar,
    /// `/`
    Slash,
    /// `;`
    Semicolon,
    /// `+`
    Plus,
    /// `%`
    Percent,
    /// `!`
    Bang,
    /// `->`
    Arrow,
    /// `==`
    EqualEqual,
    /// `!=`
    NotEqual,
    /// `<=`
    AtMost,
    /// `>=`
    AtLeast,
    /// `&&`
    AndAnd,
    /// `||`
    OrOr,
}

/// What a token is. An identifier says which reserved word it spells, if it spells one.
#[derive(Clone, Copy, Debug, PartialEq, Eq)]
pub enum TokenKind {
    Ident(Option<Word>),
    /// Decimal digits, with their value.
    Number(u64),
    /// From a quote to the next quote that no backslash takes.
    Str,
    /// From three single quotes to the next three.
    Block,
    Mark(Mark),
}

/// A token, whose text is the bytes from `start` to `end`.
#[derive(Clone, Copy, Debug, PartialEq, Eq)]
pub struct Token {
    pub kind: TokenKind,
    pub start: usize,
    pub end: usize,
}

/// The mark that is this one byte.
#[tactic(auto, unfolding(crate::specs::Marks::mark_of))]
pub fn mark_of(b: u8) -> Option<Mark>
    ensures { result ≡ mark_of b }
{
    match b {
        b'{' => Some(Mark::OpenBrace),
        b'}' => Some(Mark::CloseBrace),
        b'(' => Some(Mark::OpenParen),
        b')' => Some(Mark::CloseParen),
        b'[' => Some(Mark::OpenBracket),
        b']' => Some(Mark::CloseBracket),
        b'<' => Some(Mark::Less),
        b'>' => Some(Mark::Greater),
        b':' => Some(Mark::Colon),
        b',' => Some(Mark::Comma),
        b'.' => Some(Mark::Dot),
        b'*' => Some(Mark::Star),
        b'-' => Some(Mark::Minus),
        b'=' => Some(Mark::Equals),
        b'|' => Some(Mark::Bar),
        b'/' => Some(Mark::Slash),
        b';' => Some(Mark::Semicolon),
        b'+' => Some(Mark::Plus),
        b'%' => Some(Mark::Percent),
        b'!' => Some(Mark::Bang),
        _ => None,
    }
}

/// The mark that is these two bytes.
#[tactic(auto, unfolding(crate::specs::Marks::pair_of))]
pub fn pair_of(b: u8, c: u8) -> Option<Mark>
    ensures { result ≡ pair_of b c }
{
    if b == b'-' && c == b'>' {
        return Some(Mark::Arrow);
    }
    if b == b'=' && c == b'=' {
        return Some(Mark::EqualEqual);
    }
    if b == b'!' && c == b'=' {
        return Some(Mark::NotEqual);
    }
    if b == b'<' && c == b'=' {
        return Some(Mark::AtMost);
    }
    if b == b'>' && c == b'=' {
        return Some(Mark::AtLeast);
    }
    if b == b'&' && c == b'&' {
        return Some(Mark::AndAnd);
    }
    if b == b'|' && c == b'|' {
        return Some(Mark::OrOr);
    }
    None
}
