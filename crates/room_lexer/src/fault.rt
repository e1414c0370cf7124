//! Why a text has no tokens.
ghost use Rattle.std.specs.Prelude.{◌≡◌};
ghost use Rattle.room_lexer.specs.declared.fault.LexFault.TheVariants.{Memory};

use std::alloc::{AllocError, AllocFailed};

/// Why a text has no tokens. Each fault but `Memory` names the place of the first byte of the
/// first offender, counted from 0.
#[derive(Clone, Copy, Debug, PartialEq, Eq)]
pub enum LexFault {
    /// No token, blank, comment or documentation begins with this byte and the ones behind it.
    BadByte(usize),
    /// A string meets the end of its line, or a string, block or documentation isn't closed.
    OpenString(usize),
    /// A block comment isn't closed.
    OpenComment(usize),
    /// A number is above 9223372036854775807.
    NumberTooLarge(usize),
    /// Memory ran out.
    Memory,
}

impl From<AllocError> for LexFault {
    ghost from_gives = { λ _ e. e ≡ Memory };

    fn from(_e: AllocError) -> LexFault {
        LexFault::Memory
    }
}

impl<T: Drop> From<AllocFailed<T>> for LexFault {
    ghost from_gives = { λ _ e. e ≡ Memory };

    fn from(_e: AllocFailed<T>) -> LexFault {
        LexFault::Memory
    }
}
