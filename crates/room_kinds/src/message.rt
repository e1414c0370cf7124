//! Messages between actors.
ghost use Rattle.std.specs.Prelude.{◌≡◌, ◌↔◌, IfOk, IsTrue};
ghost use Rattle.room_kinds.specs.Messages.{SameSending, SameContent};

use crate::numbers::{ControllerId, Endpoint, Priority, Stamp};
use crate::payload::Payload;
use crate::sequence::Sequence;
use std::alloc::{AllocError, Global};

/// A message from a party to a controller. The environment's messages have no source. At priority
/// 0, the system level, the signal is the number of a `SysKind`.
#[derive(Drop, Debug)]
pub struct Msg {
    pub from: ControllerId,
    pub to: ControllerId,
    pub prio: Priority,
    pub stamp: Stamp,
    pub source: Option<Endpoint>,
    pub target: Endpoint,
    pub signal: u16,
    pub payload: Payload,
}

impl Msg {
    /// A message equal to this one.
    pub fn copy(&self, alloc: Global) -> Result<Msg, AllocError>
        ensures { IfOk result (λ m. m ≡ self.now) }
    {
        let payload = self.payload.copy(alloc)?;
        Ok(Msg {
            from: self.from,
            to: self.to,
            prio: self.prio,
            stamp: self.stamp,
            source: self.source,
            target: self.target,
            signal: self.signal,
            payload,
        })
    }

    /// Whether this message and another one are the same in all that they say.
    pub fn is_same(&self, other: &Msg) -> bool
        ensures { IsTrue result ↔ (self.now ≡ other.now) }
    {
        self.is_same_sending(other) && self.is_same_content(other)
    }

    /// Whether both were sent by the same party to the same one, as urgent, at the same time.
    fn is_same_sending(&self, other: &Msg) -> bool
        ensures { IsTrue result ↔ SameSending self.now other.now }
    {
        self.from == other.from
            && self.to == other.to
            && self.prio == other.prio
            && self.stamp == other.stamp
    }

    /// Whether both say the same from the same place to the same one.
    fn is_same_content(&self, other: &Msg) -> bool
        ensures { IsTrue result ↔ SameContent self.now other.now }
    {
        self.source == other.source
            && self.target == other.target
            && self.signal == other.signal
            && self.payload.is_same(&other.payload)
    }
}

/// Messages that wait to be posted, oldest first.
pub type Outbox = Sequence<Msg>;
