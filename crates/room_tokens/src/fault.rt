//! Why nothing could be read.
ghost use Rattle.std.specs.Prelude.{◌≡◌};
ghost use Rattle.room_tokens.specs.declared.fault.ReadFault.TheVariants.{Memory};

use std::alloc::{AllocError, AllocFailed};

/// Why nothing could be read.
#[derive(Clone, Copy, PartialEq, Eq)]
pub enum ReadFault {
    /// What comes does not fit. It begins at this byte, counted from 0.
    Syntax(usize),
    /// Memory ran out, the memory of the stack among it.
    Memory,
}

impl From<AllocError> for ReadFault {
    ghost from_gives = { λ _ e. e ≡ Memory };

    fn from(_e: AllocError) -> ReadFault {
        ReadFault::Memory
    }
}

impl<T: Drop> From<AllocFailed<T>> for ReadFault {
    ghost from_gives = { λ _ e. e ≡ Memory };

    fn from(_e: AllocFailed<T>) -> ReadFault {
        ReadFault::Memory
    }
}
