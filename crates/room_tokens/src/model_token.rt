//! The tokens of the model language, and readers that only they have.
ghost use Rattle.std.specs.Prelude.{◌≡◌};
ghost use Rattle.room_ast.specs.Values.{TokenValue};
ghost use Rattle.room_tokens.specs.Reader.{Gives, flag};
ghost use Rattle.room_tokens.specs.Single.{mark_number, word_number, same_mark, same_word, left, span_of, value_of, comes as comes_at, comes_word as comes_word_at, comes_name, comes_string, word_here, before_close, word as word_at, name_at as name_of, number_at as number_of, no_mark as mark_at_end, no_word as word_at_end, no_name as name_at_end, no_number as number_at_end, string_at, block_at};

use crate::contents::{block_contents, string_contents};
use crate::fault::ReadFault;
use crate::lexeme::Lexeme;
use crate::rest::{Rest, comes, comes_word, next, place, take_word, text};
use room_ast::Text;
use room_lexer::{Mark, Token, TokenKind, Word};
use std::alloc::Global;

fn mark_number(mark: Mark) -> u8
    ensures { result ≡ mark_number mark }
{
    mark as u8
}

fn word_number(word: Word) -> u8
    ensures { result ≡ word_number word }
{
    word as u8
}

pub fn same_mark(a: Mark, b: Mark) -> bool
    ensures { result ≡ same_mark a b }
{
    mark_number(a) == mark_number(b)
}

fn same_word(a: Word, b: Word) -> bool
    ensures { result ≡ same_word a b }
{
    word_number(a) == word_number(b)
}

impl Lexeme for Token {
    type Word = Word;

    ghost Value = { TokenValue };

    ghost value = { value_of };

    ghost span = { span_of };

    ghost comes = { comes_at };

    ghost comes_word = { comes_word_at };

    ghost name_at = { name_of };

    ghost number_at = { number_of };

    fn span(self) -> (usize, usize) {
        (self.start, self.end)
    }

    #[tactic(auto, unfolding(crate::specs::Single::comes))]
    fn is_mark(self, mark: Mark) -> bool {
        match self.kind {
            TokenKind::Mark(other) => same_mark(mark, other),
            _ => false,
        }
    }

    #[tactic(auto, unfolding(crate::specs::Single::comes_word))]
    fn is_word(self, word: Word) -> bool {
        match self.kind {
            TokenKind::Ident(Some(other)) => same_word(word, other),
            _ => false,
        }
    }

    #[tactic(auto, unfolding(crate::specs::Single::name_at))]
    fn is_name(self) -> bool {
        match self.kind {
            TokenKind::Ident(None) => true,
            _ => false,
        }
    }

    #[tactic(auto, unfolding(crate::specs::Single::number_at))]
    fn number(self) -> Option<u64> {
        match self.kind {
            TokenKind::Number(n) => Some(n),
            _ => None,
        }
    }

    ghost no_mark = { mark_at_end };

    ghost no_word = { word_at_end };

    ghost no_name = { name_at_end };

    ghost no_number = { number_at_end };
}

/// The word that comes, if one does.
#[tactic(auto, unfolding(crate::specs::Single::word_here))]
pub fn word_here(rest: Rest) -> Option<Word>
    ensures { result ≡ word_here (left rest.entry) }
{
    match next(rest) {
        Some((token, _)) => match token.kind {
            TokenKind::Ident(word) => word,
            _ => None,
        },
        None => None,
    }
}

/// Whether a name comes.
#[tactic(auto, unfolding(crate::specs::Single::comes_name))]
pub fn comes_name(rest: Rest) -> bool
    ensures { result ≡ comes_name (left rest.entry) }
{
    match next(rest) {
        Some((token, _)) => match token.kind {
            TokenKind::Ident(None) => true,
            _ => false,
        },
        None => false,
    }
}

/// Whether a STRING comes.
#[tactic(auto, unfolding(crate::specs::Single::comes_string))]
pub fn comes_string(rest: Rest) -> bool
    ensures { result ≡ comes_string (left rest.entry) }
{
    match next(rest) {
        Some((token, _)) => match token.kind {
            TokenKind::Str => true,
            _ => false,
        },
        None => false,
    }
}

/// Whether no closing brace comes.
#[tactic(auto, unfolding(crate::specs::Single::before_close))]
pub fn before_close(rest: Rest) -> bool
    ensures { result ≡ before_close (left rest.entry) }
{
    !comes(rest, Mark::CloseBrace)
}

/// Whether a word comes, which is read then.
#[tactic(auto, unfolding(crate::specs::Reader::flag))]
pub fn word_if<'a>(rest: Rest<'a>, word: Word) -> Result<(bool, Rest<'a>), ReadFault>
    ensures { Gives (λ x. (x.0, left x.1)) result (flag (comes_word_at word) (word_at word) (left rest.entry)) }
{
    if !comes_word(rest, word) {
        return Ok((false, rest));
    }
    let rest = take_word(rest, word)?;
    Ok((true, rest))
}

/// Reads a STRING, and answers its contents.
#[tactic(auto, using(crate::proofs::Plain::string_again), unfolding(crate::specs::Single::string_at))]
pub fn string<'a>(alloc: Global, rest: Rest<'a>) -> Result<(Text, Rest<'a>), ReadFault>
    ensures { Gives (λ x. (x.0, left x.1)) result (string_at (left rest.entry)) }
{
    let Some((token, others)) = next(rest) else {
        return Err(ReadFault::Syntax(place(rest)));
    };
    match token.kind {
        TokenKind::Str => Ok((string_contents(alloc, text(rest.bytes, token))?, others)),
        _ => Err(ReadFault::Syntax(place(rest))),
    }
}

/// Reads a BLOCK, and answers its contents.
#[tactic(auto, unfolding(crate::specs::Single::block_at))]
pub fn block<'a>(alloc: Global, rest: Rest<'a>) -> Result<(Text, Rest<'a>), ReadFault>
    ensures { Gives (λ x. (x.0, left x.1)) result (block_at (left rest.entry)) }
{
    let Some((token, others)) = next(rest) else {
        return Err(ReadFault::Syntax(place(rest)));
    };
    match token.kind {
        TokenKind::Block => Ok((block_contents(alloc, text(rest.bytes, token))?, others)),
        _ => Err(ReadFault::Syntax(place(rest))),
    }
}
