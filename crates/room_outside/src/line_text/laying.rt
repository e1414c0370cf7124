//! Parts of a line that are laid into a piece in which there is room for them.
ghost use Rattle.std.specs.Prelude.{◌≡◌, ◌+◌, ◌<◌, ◌≤◌, [], ◌∷◌, ◌++◌, length, take, decimal};
ghost use Rattle.std.specs.Fmt.{signed_decimal};
ghost use Rattle.room_outside.specs.line_text.Lines.{numbers_text};
ghost use Rattle.room_outside.specs.line_text.Parts.{part_text};

use crate::line_text::part::Part;
use crate::line_text::short_numbers::{five_digits, four_digits, three_digits, two_digits};
use itoa::Buffer;

/// The most bytes that are written in one piece.
pub(crate) const PIECE: usize = 4096;

/// The bytes of a piece.
pub(crate) type Piece = [u8; PIECE];

// Each function lays bytes from a place on, and gives the place behind them. That place is passed
// along rather than kept beside the piece, so that it stays in a register.

#[inline(always)]
fn lay_byte(piece: &mut Piece, at: usize, byte: u8) -> usize
    requires { at < 4096 }
    ensures behind { result ≡ at + 1 }
    ensures laid { take result piece.new ≡ take at piece.old ++ byte ∷ [] }
{
    piece[at] = byte;
    at + 1
}

#[inline(always)]
fn lay_pair(piece: &mut Piece, at: usize, pair: [u8; 2]) -> usize
    requires { at + 2 ≤ 4096 }
    ensures behind { result ≡ at + 2 }
    ensures laid { take result piece.new ≡ take at piece.old ++ pair }
{
    let [first, second] = pair;
    let at = lay_byte(piece, at, first);
    lay_byte(piece, at, second)
}

#[inline(always)]
fn lay_quad(piece: &mut Piece, at: usize, quad: [u8; 4]) -> usize
    requires { at + 4 ≤ 4096 }
    ensures behind { result ≡ at + 4 }
    ensures laid { take result piece.new ≡ take at piece.old ++ quad }
{
    let [first, second, third, fourth] = quad;
    let at = lay_pair(piece, at, [first, second]);
    lay_pair(piece, at, [third, fourth])
}

/// Lays at most three bytes.
#[inline(always)]
fn lay_few(piece: &mut Piece, at: usize, text: &[u8]) -> usize
    requires room { at + length text.now ≤ 4096 }
    requires few { length text.now < 4 }
    ensures behind { result ≡ at + length text.now }
    ensures laid { take result piece.new ≡ take at piece.old ++ text.now }
{
    match *text {
        [first, second, third] => {
            let at = lay_pair(piece, at, [first, second]);
            lay_byte(piece, at, third)
        }
        [first, second] => lay_pair(piece, at, [first, second]),
        [only] => lay_byte(piece, at, only),
        _ => at,
    }
}

/// Lays a text. Names and words are short: a call that copies them would cost more than they do.
#[inline(always)]
pub(crate) fn lay_text(piece: &mut Piece, at: usize, text: &[u8]) -> usize
    requires { at + length text.now ≤ 4096 }
    ensures behind { result ≡ at + length text.now }
    ensures laid { take result piece.new ≡ take at piece.old ++ text.now }
{
    let mut end = at;
    let mut rest = text;
    while let [first, second, third, fourth, tail @ ..] = rest {
        end = lay_quad(piece, end, [*first, *second, *third, *fourth]);
        rest = tail;
    }
    lay_few(piece, end, rest)
}

/// Lays the digits of a number.
#[inline(always)]
#[tactic(auto, using(crate::proofs::line_text::Digits::one_digit))]
pub(crate) fn lay_number(piece: &mut Piece, at: usize, number: u64) -> usize
    requires { at + length (decimal number) ≤ 4096 }
    ensures behind { result ≡ at + length (decimal number) }
    ensures laid { take result piece.new ≡ take at piece.old ++ decimal number }
{
    if number < 10 {
        return lay_byte(piece, at, b'0' + number as u8);
    }
    lay_digits(piece, at, number)
}

/// Lays a number of more than one digit. The stamps of a run have few.
#[inline(never)]
fn lay_digits(piece: &mut Piece, at: usize, number: u64) -> usize
    requires many { 10 ≤ number }
    requires room { at + length (decimal number) ≤ 4096 }
    ensures behind { result ≡ at + length (decimal number) }
    ensures laid { take result piece.new ≡ take at piece.old ++ decimal number }
{
    if number >= 100_000 {
        return lay_many_digits(piece, at, number);
    }
    let number = number as u32;
    if number < 100 {
        return lay_text(piece, at, &two_digits(number));
    }
    if number < 1_000 {
        return lay_text(piece, at, &three_digits(number));
    }
    if number < 10_000 {
        return lay_text(piece, at, &four_digits(number));
    }
    lay_text(piece, at, &five_digits(number))
}

#[inline(never)]
fn lay_many_digits(piece: &mut Piece, at: usize, number: u64) -> usize
    requires { at + length (decimal number) ≤ 4096 }
    ensures behind { result ≡ at + length (decimal number) }
    ensures laid { take result piece.new ≡ take at piece.old ++ decimal number }
{
    let mut digits = Buffer::new();
    lay_text(piece, at, digits.format(number).as_bytes())
}

/// Lays a number with its sign.
#[inline(always)]
pub(crate) fn lay_signed(piece: &mut Piece, at: usize, number: i64) -> usize
    requires { at + length (signed_decimal number) ≤ 4096 }
    ensures behind { result ≡ at + length (signed_decimal number) }
    ensures laid { take result piece.new ≡ take at piece.old ++ signed_decimal number }
{
    if number >= 0 {
        return lay_number(piece, at, number as u64);
    }
    lay_negative(piece, at, number)
}

#[inline(never)]
fn lay_negative(piece: &mut Piece, at: usize, number: i64) -> usize
    requires { at + length (signed_decimal number) ≤ 4096 }
    ensures behind { result ≡ at + length (signed_decimal number) }
    ensures laid { take result piece.new ≡ take at piece.old ++ signed_decimal number }
{
    let mut digits = Buffer::new();
    lay_text(piece, at, digits.format(number).as_bytes())
}

/// Lays a number with a blank before it.
#[inline(always)]
fn lay_after_blank(piece: &mut Piece, at: usize, number: i64) -> usize
    requires { at + (1 + length (signed_decimal number)) ≤ 4096 }
    ensures behind { result ≡ at + (1 + length (signed_decimal number)) }
    ensures laid { take result piece.new ≡ take at piece.old ++ 32 ∷ signed_decimal number }
{
    let at = lay_byte(piece, at, b' ');
    lay_signed(piece, at, number)
}

/// Lays numbers, each with a blank before it.
#[inline(always)]
fn lay_numbers(piece: &mut Piece, at: usize, numbers: &[i64]) -> usize
    requires { at + length (numbers_text numbers.now) ≤ 4096 }
    ensures behind { result ≡ at + length (numbers_text numbers.now) }
    ensures laid { take result piece.new ≡ take at piece.old ++ numbers_text numbers.now }
{
    let mut end = at;
    for number in numbers {
        end = lay_after_blank(piece, end, *number);
    }
    end
}

/// Lays a part of a line.
#[inline(always)]
pub(crate) fn lay_part(piece: &mut Piece, at: usize, part: Part) -> usize
    requires { at + length (part_text part) ≤ 4096 }
    ensures behind { result ≡ at + length (part_text part.entry) }
    ensures laid { take result piece.new ≡ take at piece.old ++ part_text part.entry }
{
    match part {
        Part::Text(text) => lay_text(piece, at, text),
        Part::Number(number) => lay_number(piece, at, number),
        Part::Signed(number) => lay_signed(piece, at, number),
        Part::Numbers(numbers) => lay_numbers(piece, at, numbers),
    }
}

/// Lays two parts.
#[inline(always)]
pub(crate) fn lay_two(piece: &mut Piece, at: usize, a: Part, b: Part) -> usize
    requires { at + (length (part_text a) + length (part_text b)) ≤ 4096 }
    ensures behind { result ≡ at + (length (part_text a.entry) + length (part_text b.entry)) }
    ensures laid { take result piece.new
        ≡ take at piece.old ++ (part_text a.entry ++ part_text b.entry) }
{
    let at = lay_part(piece, at, a);
    lay_part(piece, at, b)
}

/// Lays three parts.
#[inline(always)]
pub(crate) fn lay_three(piece: &mut Piece, at: usize, a: Part, b: Part, c: Part) -> usize
    requires { at + (length (part_text a) + (length (part_text b) + length (part_text c))) ≤ 4096 }
    ensures behind { result ≡ at + (length (part_text a.entry)
        + (length (part_text b.entry) + length (part_text c.entry))) }
    ensures laid { take result piece.new
        ≡ take at piece.old ++ (part_text a.entry ++ (part_text b.entry ++ part_text c.entry)) }
{
    let at = lay_part(piece, at, a);
    lay_two(piece, at, b, c)
}

/// Lays four parts.
#[inline(always)]
pub(crate) fn lay_four(piece: &mut Piece, at: usize, a: Part, b: Part, c: Part, d: Part) -> usize
    requires { at + (length (part_text a) + (length (part_text b)
        + (length (part_text c) + length (part_text d)))) ≤ 4096 }
    ensures behind { result ≡ at + (length (part_text a.entry) + (length (part_text b.entry)
        + (length (part_text c.entry) + length (part_text d.entry)))) }
    ensures laid { take result piece.new ≡ take at piece.old ++ (part_text a.entry
        ++ (part_text b.entry ++ (part_text c.entry ++ part_text d.entry))) }
{
    let at = lay_part(piece, at, a);
    lay_three(piece, at, b, c, d)
}
