//! What stands at the front of a text.
ghost use Rattle.std.specs.Prelude.{◌≡◌, ◌<◌, ◌≤◌, length, drop, IfOk};
ghost use Rattle.std.specs.List.{prefix_len};
ghost use Rattle.room_lexer.specs.Enclosed.{is_blank, closed_len};
ghost use Rattle.room_lexer.specs.Front.{is_letter, is_digit, is_word, on_line, number_of, begins, begins_two, first_or_zero, number_front, enclosed, longest_mark, front};

use crate::enclosed::{Place, begins_string, closed_len, is_blank};
use crate::token::{Mark, TokenKind, mark_of, pair_of};
use crate::word::word_of;

/// What a part of a text is. All but the tokens are passed over.
#[derive(Clone, Copy, Debug)]
pub enum Kind {
    Blank,
    LineComment,
    BlockComment,
    Documentation,
    Token(TokenKind),
}

/// Why nothing can be cut at a place.
#[derive(Clone, Copy, Debug)]
pub enum Cause {
    BadByte,
    OpenString,
    OpenComment,
    NumberTooLarge,
}

fn is_digit(b: u8) -> bool
    ensures { result ≡ is_digit b }
{
    b >= b'0' && b <= b'9'
}

fn is_letter(b: u8) -> bool
    ensures { result ≡ is_letter b }
{
    b >= b'a' && b <= b'z' || b >= b'A' && b <= b'Z' || b == b'_'
}

fn is_word(b: u8) -> bool
    ensures { result ≡ is_word b }
{
    is_letter(b) || is_digit(b)
}

fn blank_len(bytes: &[u8]) -> usize
    ensures len { result ≡ prefix_len is_blank bytes.now }
    ensures short { result ≤ length bytes.now }
{
    bytes.iter().take_while(|b| is_blank(**b)).count()
}

/// How many letters, digits and `_` stand at the front.
pub fn word_len(bytes: &[u8]) -> usize
    ensures len { result ≡ prefix_len is_word bytes.now }
    ensures short { result ≤ length bytes.now }
{
    bytes.iter().take_while(|b| is_word(**b)).count()
}

fn digits_len(bytes: &[u8]) -> usize
    ensures len { result ≡ prefix_len is_digit bytes.now }
    ensures short { result ≤ length bytes.now }
{
    bytes.iter().take_while(|b| is_digit(**b)).count()
}

fn line_len(bytes: &[u8]) -> usize
    ensures len { result ≡ prefix_len on_line bytes.now }
    ensures short { result ≤ length bytes.now }
{
    bytes.iter().take_while(|b| **b != b'\n').count()
}

/// The number that the digits spell, if it isn't too large.
#[tactic(auto, unfolding(crate::specs::Front::number_of))]
fn number(digits: &[u8]) -> Option<u64>
    ensures { result ≡ number_of digits.now }
{
    let mut n = 0u64;
    for d in digits {
        let digit = (*d as u64).saturating_sub(48);
        if n > (9223372036854775807 - digit) / 10 {
            return None;
        }
        n = 10 * n + digit;
    }
    Some(n)
}

fn begins(bytes: &[u8], b: u8) -> bool
    ensures { result ≡ begins b bytes.now }
{
    match bytes {
        [first, ..] => *first == b,
        [] => false,
    }
}

fn begins_two(bytes: &[u8], b: u8, c: u8) -> bool
    ensures { result ≡ begins_two b c bytes.now }
{
    match bytes {
        [first, others @ ..] => *first == b && begins(others, c),
        [] => false,
    }
}

fn first_or_zero(bytes: &[u8]) -> u8
    ensures { result ≡ first_or_zero bytes.now }
{
    match bytes {
        [first, ..] => *first,
        [] => 0,
    }
}

/// A piece whose first bytes, `opening` in number, open it, and where it ends behind them.
fn enclosed(
    kind: Kind,
    bytes: &[u8],
    opening: usize,
    place: Place,
    cause: Cause,
) -> Result<(Kind, usize), Cause>
    requires { opening ≤ length bytes.now }
    ensures value { result ≡ enclosed kind opening cause (closed_len place (drop opening bytes.now)) }
    ensures within { IfOk result (λ x. (0 < x.1) × (x.1 ≤ length bytes.now)) }
{
    match closed_len(place, &bytes[opening..]) {
        Some(len) => Ok((kind, opening + len)),
        None => Err(cause),
    }
}

fn number_front(digits: &[u8]) -> Result<(Kind, usize), Cause>
    ensures value { result ≡ number_front (length digits.now) (number_of digits.now) }
    ensures within { IfOk result (λ x. x.1 ≡ length digits.now) }
{
    match number(digits) {
        Some(n) => Ok((Kind::Token(TokenKind::Number(n)), digits.len())),
        None => Err(Cause::NumberTooLarge),
    }
}

fn mark_front(longer: Option<Mark>, short: Option<Mark>) -> Result<(Kind, usize), Cause>
    ensures { result ≡ longest_mark longer short }
{
    if let Some(mark) = longer {
        return Ok((Kind::Token(TokenKind::Mark(mark)), 2));
    }
    match short {
        Some(mark) => Ok((Kind::Token(TokenKind::Mark(mark)), 1)),
        None => Err(Cause::BadByte),
    }
}

/// What stands at the front, and how long it is.
#[tactic(auto, unfolding(crate::specs::Front::front))]
pub fn front(bytes: &[u8]) -> Result<(Kind, usize), Cause>
    ensures { result ≡ front bytes.now }
{
    let [first, rest @ ..] = bytes else {
        return Err(Cause::BadByte);
    };
    let first = *first;
    if is_blank(first) {
        return Ok((Kind::Blank, 1 + blank_len(rest)));
    }
    if is_letter(first) {
        let len = 1 + word_len(rest);
        return Ok((Kind::Token(TokenKind::Ident(word_of(&bytes[..len]))), len));
    }
    if is_digit(first) {
        return number_front(&bytes[..1 + digits_len(rest)]);
    }
    if first == b'"' {
        return enclosed(
            Kind::Token(TokenKind::Str),
            bytes,
            1,
            Place::Text,
            Cause::OpenString,
        );
    }
    if first == b'/' && begins(rest, b'/') {
        return Ok((Kind::LineComment, 1 + line_len(rest)));
    }
    if first == b'/' && begins(rest, b'*') {
        return enclosed(
            Kind::BlockComment,
            bytes,
            2,
            Place::Comment,
            Cause::OpenComment,
        );
    }
    if first == b'[' && begins_string(rest) {
        return enclosed(
            Kind::Documentation,
            bytes,
            1,
            Place::Between,
            Cause::OpenString,
        );
    }
    if first == b'\'' && begins_two(rest, b'\'', b'\'') {
        return enclosed(
            Kind::Token(TokenKind::Block),
            bytes,
            3,
            Place::Block,
            Cause::OpenString,
        );
    }
    mark_front(pair_of(first, first_or_zero(rest)), mark_of(first))
}
