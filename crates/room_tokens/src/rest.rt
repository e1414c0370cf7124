//! What is left to read, and single tokens of it.
ghost use Rattle.std.specs.Prelude.{◌≡◌, ◌∷◌, [], MatchOption, IfSome};
ghost use Rattle.room_tokens.specs.Reader.{Gives, rest_of, take_if};
ghost use Rattle.room_tokens.specs.Cursor.{left_of, place_from, between};

use crate::fault::ReadFault;
use crate::lexeme::Lexeme;
use room_ast::Name;
use room_lexer::{Mark, Token};
use std::alloc::Global;

/// What is left to read: tokens, and the bytes of the text that they are of.
#[derive(Clone, Copy)]
pub struct Rest<'a, T = Token> {
    pub bytes: &'a [u8],
    pub tokens: &'a [T],
}

/// Where what is left begins: at its first token, or at the end of the text.
pub fn place<T: Lexeme>(rest: Rest<'_, T>) -> usize
    ensures { result ≡ place_from T.span rest.entry.bytes.now rest.entry.tokens.now }
{
    match rest.tokens {
        [] => rest.bytes.len(),
        [first, ..] => first.span().0,
    }
}

/// The bytes of a token.
pub fn text<T: Lexeme>(bytes: &[u8], token: T) -> &[u8]
    ensures { result.now ≡ between bytes.now (T.span token) }
{
    let (start, end) = token.span();
    let end = end.min(bytes.len());
    let start = start.min(end);
    &bytes[start..end]
}

/// The first token and the ones after it.
pub fn next<'a, T: Lexeme>(rest: Rest<'a, T>) -> Option<(T, Rest<'a, T>)>
    ensures first { MatchOption result (left_of T.value rest.entry ≡ []) (λ x. left_of T.value rest.entry ≡ T.value rest.entry.bytes.now x.0 ∷ left_of T.value x.1) }
    ensures same { IfSome result (λ x. x.1.bytes.now ≡ rest.entry.bytes.now) }
{
    match rest.tokens {
        [] => None,
        [first, others @ ..] => Some((
            *first,
            Rest {
                bytes: rest.bytes,
                tokens: others,
            },
        )),
    }
}

/// All but the first token.
pub fn skip<'a, T: Lexeme>(rest: Rest<'a, T>) -> Rest<'a, T>
    ensures { left_of T.value result ≡ rest_of (left_of T.value rest.entry) }
{
    match next(rest) {
        Some((_, others)) => others,
        None => rest,
    }
}

/// Whether a mark comes.
pub fn comes<T: Lexeme>(rest: Rest<'_, T>, mark: Mark) -> bool
    ensures { result ≡ T.comes mark (left_of T.value rest.entry) }
{
    match next(rest) {
        Some((token, _)) => token.is_mark(mark),
        None => false,
    }
}

/// Whether a word comes.
pub fn comes_word<T: Lexeme>(rest: Rest<'_, T>, word: T::Word) -> bool
    ensures { result ≡ T.comes_word word (left_of T.value rest.entry) }
{
    match next(rest) {
        Some((token, _)) => token.is_word(word),
        None => false,
    }
}

/// Reads a mark.
#[tactic(auto, unfolding(crate::specs::Reader::take_if))]
pub fn take_mark<'a, T: Lexeme>(rest: Rest<'a, T>, mark: Mark) -> Result<Rest<'a, T>, ReadFault>
    ensures { Gives (λ r. (tt, left_of T.value r)) result (take_if (T.comes mark) (left_of T.value rest.entry)) }
{
    if comes(rest, mark) {
        Ok(skip(rest))
    } else {
        Err(ReadFault::Syntax(place(rest)))
    }
}

/// Reads a word.
#[tactic(auto, unfolding(crate::specs::Reader::take_if))]
pub fn take_word<'a, T: Lexeme>(rest: Rest<'a, T>, word: T::Word) -> Result<Rest<'a, T>, ReadFault>
    ensures { Gives (λ r. (tt, left_of T.value r)) result (take_if (T.comes_word word) (left_of T.value rest.entry)) }
{
    if comes_word(rest, word) {
        Ok(skip(rest))
    } else {
        Err(ReadFault::Syntax(place(rest)))
    }
}

/// Reads a name.
pub fn name<'a, T: Lexeme>(
    alloc: Global,
    rest: Rest<'a, T>,
) -> Result<(Name, Rest<'a, T>), ReadFault>
    ensures { Gives (λ x. (x.0, left_of T.value x.1)) result (T.name_at (left_of T.value rest.entry)) }
{
    let Some((token, others)) = next(rest) else {
        return Err(ReadFault::Syntax(place(rest)));
    };
    if token.is_name() {
        Ok((Name::from_slice(alloc, text(rest.bytes, token))?, others))
    } else {
        Err(ReadFault::Syntax(place(rest)))
    }
}

/// Reads a number.
pub fn number<'a, T: Lexeme>(rest: Rest<'a, T>) -> Result<(u64, Rest<'a, T>), ReadFault>
    ensures { Gives (λ x. (x.0, left_of T.value x.1)) result (T.number_at (left_of T.value rest.entry)) }
{
    let Some((token, others)) = next(rest) else {
        return Err(ReadFault::Syntax(place(rest)));
    };
    match token.number() {
        Some(n) => Ok((n, others)),
        None => Err(ReadFault::Syntax(place(rest))),
    }
}
