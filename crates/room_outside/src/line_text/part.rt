//! The parts of which lines are written.
ghost use Rattle.std.specs.Prelude.{◌≡◌, ◌≤◌, length, decimal};
ghost use Rattle.std.specs.Fmt.{signed_decimal};
ghost use Rattle.room_outside.specs.line_text.Parts.{part_text};

use crate::line_text::laying::PIECE;

/// The most bytes that a number takes, its sign with it.
const LONGEST_NUMBER: usize = 20;

/// A part of a line.
#[derive(Clone, Copy)]
pub enum Part<'a> {
    Text(&'a [u8]),
    Number(u64),
    Signed(i64),
    /// Numbers, each with a blank before it.
    Numbers(&'a [i64]),
}

/// How many bytes a number takes at most.
#[inline(always)]
#[tactic(auto, using(crate::proofs::line_text::Lengths::number_length))]
pub(crate) fn most_of_number(_number: u64) -> usize
    ensures is { result ≡ 20 }
    ensures covers { length (decimal _number) ≤ result }
{
    LONGEST_NUMBER
}

/// How many bytes a number takes at most, its sign with it.
#[inline(always)]
pub(crate) fn most_of_signed(_number: i64) -> usize
    ensures is { result ≡ 20 }
    ensures covers { length (signed_decimal _number) ≤ result }
{
    LONGEST_NUMBER
}

impl Part<'_> {
    /// No less than the bytes of its text, unless it is more than a piece. It looks at no digit, and
    /// takes several numbers for more than a piece.
    #[inline(always)]
    pub(crate) fn most(self) -> usize
        ensures small { result ≤ 4097 }
        ensures covers { result ≤ 4096 → length (part_text self.entry) ≤ result }
    {
        match self {
            Part::Text(text) => text.len().min(PIECE + 1),
            Part::Number(number) => most_of_number(number),
            Part::Signed(number) => most_of_signed(number),
            Part::Numbers([]) => 0,
            Part::Numbers([only]) => 1 + most_of_signed(*only),
            Part::Numbers(_) => PIECE + 1,
        }
    }
}
