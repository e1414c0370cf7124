//! What a queue carries of a message.
ghost use Rattle.std.specs.Prelude.{◌≡◌};
ghost use Rattle.mail_seg.specs.Addressed.{addressed};

use room_kinds::{ControllerId, Endpoint, Msg, Payload, Priority, Stamp};

/// A message without its receiver and its priority, which its queue says.
#[derive(Drop, Debug)]
pub struct Contents {
    pub(crate) from: ControllerId,
    pub(crate) stamp: Stamp,
    pub(crate) source: Option<Endpoint>,
    pub(crate) target: Endpoint,
    pub(crate) signal: u16,
    pub(crate) payload: Payload,
}

impl Contents {
    pub(crate) fn new(m: Msg) -> Contents
        ensures same { addressed m.to.0 m.prio.0 result ≡ m }
        ensures from { result.from.0 ≡ m.from.0 }
    {
        Contents {
            from: m.from,
            stamp: m.stamp,
            source: m.source,
            target: m.target,
            signal: m.signal,
            payload: m.payload,
        }
    }

    pub(crate) fn address(self, to: u8, prio: u8) -> Msg
        ensures { result ≡ addressed to prio self }
    {
        Msg {
            from: self.from,
            to: ControllerId(to),
            prio: Priority(prio),
            stamp: self.stamp,
            source: self.source,
            target: self.target,
            signal: self.signal,
            payload: self.payload,
        }
    }
}
