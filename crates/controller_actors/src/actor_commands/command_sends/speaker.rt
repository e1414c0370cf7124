//! Who speaks, and what is said.
ghost use Rattle.std.specs.Prelude.{◌≡◌, IfOk};

use room_kinds::{ControllerId, Incarnation, Payload, Priority};
use room_wiring::Wiring;
use std::alloc::{AllocError, Global};

/// An actor that speaks, and the controller that runs it.
#[derive(Clone, Copy)]
pub struct Speaker<'a> {
    pub wiring: &'a Wiring,
    pub me: ControllerId,
    pub who: Incarnation,
}

/// What is sent.
#[derive(Drop)]
pub struct Content {
    pub signal: u16,
    pub payload: Payload,
    pub prio: Priority,
}

impl Content {
    /// The same once more, for another place.
    pub(crate) fn copy(&self, alloc: Global) -> Result<Content, AllocError>
        ensures { IfOk result (λ c. c ≡ self.now) }
    {
        let payload = self.payload.copy(alloc)?;
        Ok(Content {
            signal: self.signal,
            payload,
            prio: self.prio,
        })
    }
}
