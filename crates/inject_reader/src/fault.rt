//! Why injections are refused.
ghost use Rattle.std.specs.Prelude.{◌≡◌};
ghost use Rattle.inject_reader.specs.declared.fault.InjectFault.TheVariants.{Memory};

use crate::line_fault::LineFault;
use std::alloc::{AllocError, AllocFailed};

/// Why a text of injections is refused.
#[derive(Clone, Copy, Drop, PartialEq, Eq)]
pub enum InjectFault {
    /// The number of the first faulty line and the fault of it with the lowest code.
    Code { line: u32, fault: LineFault },
    Memory,
}

impl From<AllocError> for InjectFault {
    ghost from_gives = { λ _ e. e ≡ Memory };

    fn from(_: AllocError) -> Self {
        InjectFault::Memory
    }
}

impl<T: Drop> From<AllocFailed<T>> for InjectFault {
    ghost from_gives = { λ _ e. e ≡ Memory };

    fn from(_: AllocFailed<T>) -> Self {
        InjectFault::Memory
    }
}
