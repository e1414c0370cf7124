//! Why a model has no wiring.

ghost use Rattle.std.specs.Prelude.{◌≡◌};
ghost use Rattle.binding_expand.specs.Faults.{number};
ghost use Rattle.binding_expand.specs.declared.fault.ExpandFault.TheVariants.{Memory};

use std::alloc::AllocError;

/// A fault of the wiring of a model, in the order in which they are told.
#[derive(Clone, Copy, Drop, PartialEq, Eq)]
pub enum WiringFault {
    /// There are more than 4,096 slots.
    TooManySlots,
    /// The slots have more than 65,536 places of service access points and of ports with a number or
    /// none.
    TooManyPlaces,
    /// A binding of some container pairs nothing.
    NoFreePlace,
    /// Two sockets are joined to each other.
    SocketPair,
    /// An end place is joined to a socket whose slot has another owner.
    SocketAway,
}

impl WiringFault {
    /// The number by which a fault is told: 1 to 5.
    pub fn number(self) -> u8
        ensures { result ≡ number self }
    {
        match self {
            WiringFault::TooManySlots => 1,
            WiringFault::TooManyPlaces => 2,
            WiringFault::NoFreePlace => 3,
            WiringFault::SocketPair => 4,
            WiringFault::SocketAway => 5,
        }
    }
}

/// Why a model has no wiring.
#[derive(Clone, Copy, Drop, PartialEq, Eq)]
pub enum ExpandFault {
    /// The lowest fault that its wiring has.
    Wiring(WiringFault),
    /// There was no memory.
    Memory,
}

impl From<AllocError> for ExpandFault {
    ghost from_gives = { λ _ e. e ≡ Memory };

    fn from(_e: AllocError) -> ExpandFault {
        ExpandFault::Memory
    }
}
