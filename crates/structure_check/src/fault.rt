//! Why a model was refused.

ghost use Rattle.std.specs.Prelude.{◌≡◌};
ghost use Rattle.structure_check.specs.declared.fault.CheckFault.TheVariants.{Memory};

use crate::flat_rule::FlatRule;
use std::alloc::AllocError;

/// Why a model was refused.
#[derive(Drop)]
pub enum CheckFault {
    /// The model breaks this rule, and none of a lower number.
    Rule(FlatRule),
    /// There was no memory.
    Memory,
}

impl From<AllocError> for CheckFault {
    ghost from_gives = { λ _ e. e ≡ Memory };

    fn from(_e: AllocError) -> CheckFault {
        CheckFault::Memory
    }
}
