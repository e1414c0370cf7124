//! Why a model has no slots.

ghost use Rattle.std.specs.Prelude.{◌≡◌};
ghost use Rattle.wiring_slots.specs.declared.model_slots.fault.SlotFault.TheVariants.{Memory};

use std::alloc::AllocError;

/// Why the slots of a model were refused.
#[derive(Drop)]
pub enum SlotFault {
    /// There are more than 4,096.
    TooManySlots,
    /// They have more than 65,536 places of service access points and of ports with a number or none.
    TooManyPlaces,
    /// There was no memory.
    Memory,
}

impl From<AllocError> for SlotFault {
    ghost from_gives = { λ _ e. e ≡ Memory };

    fn from(_e: AllocError) -> SlotFault {
        SlotFault::Memory
    }
}
