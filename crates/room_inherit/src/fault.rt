//! Why a model was not flattened.
ghost use Rattle.std.specs.Prelude.{◌≡◌};
ghost use Rattle.room_inherit.specs.declared.fault.InheritFault.TheVariants.{Memory};

use crate::base_rule::BaseRule;
use std::alloc::AllocError;

/// Why a model was not flattened.
#[derive(Drop)]
pub enum InheritFault {
    /// The model breaks this rule, and none of a lower number among those on bases.
    Rule(BaseRule),
    /// There was no memory.
    Memory,
}

impl From<AllocError> for InheritFault {
    ghost from_gives = { λ _ e. e ≡ Memory };

    fn from(_e: AllocError) -> InheritFault {
        InheritFault::Memory
    }
}
