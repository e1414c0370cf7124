//! What can be wrong with a program.
ghost use Rattle.std.specs.Prelude.{◌≡◌};
ghost use Rattle.action_program.specs.declared.fault.ActionFault.TheVariants.{Memory};

use std::alloc::{AllocError, AllocFailed};

/// Why a program was refused.
#[derive(Clone, Copy, Drop, PartialEq, Eq)]
pub enum ActionFault {
    /// The bytes are no program, or no condition.
    Syntax,
    /// The class has no such attribute, port or reference, or the attribute isn't one number, or
    /// the reference is of another kind than the statement needs.
    UnknownName,
    /// Nothing can be sent at the port, or not this message, or the port takes no name.
    WrongPort,
    /// The message has another number of numbers.
    WrongArgs,
    /// A repetition is too often or too deep, or blocks, parentheses and signs nest too deep.
    NestTooDeep,
    /// Memory ran out.
    Memory,
}

impl From<AllocError> for ActionFault {
    ghost from_gives = { λ _ fault. fault ≡ Memory };

    fn from(_: AllocError) -> ActionFault {
        ActionFault::Memory
    }
}

impl<T: Drop> From<AllocFailed<T>> for ActionFault {
    ghost from_gives = { λ _ fault. fault ≡ Memory };

    fn from(_: AllocFailed<T>) -> ActionFault {
        ActionFault::Memory
    }
}
