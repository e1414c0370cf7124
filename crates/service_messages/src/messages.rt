//! The messages of the services.
ghost use Rattle.std.specs.Prelude.{◌≡◌};
ghost use Rattle.actor_duties.specs.Messages.{system, frame_message, signal_number, code_number, is_code};
ghost use Rattle.service_messages.specs.Shown.{signal_of, code_of};

use room_kinds::{ControllerId, Endpoint, Msg, Payload, Priority, Stamp, SysKind};

/// The signals of the port `frame`, by which an actor is told what came of its requests.
#[derive(Clone, Copy, Drop, PartialEq, Eq)]
pub enum FrameSignal {
    Created,
    Destroyed,
    Imported,
    Ended,
    Deported,
    Refused,
    Registered,
    Withdrawn,
    NameRefused,
}

impl FrameSignal {
    /// The signal's number, from 0 in the order above.
    pub fn number(self) -> u16
        ensures { result ≡ signal_number (signal_of self) }
    {
        u16::from(self as u8)
    }
}

/// Why a request was refused.
#[derive(Clone, Copy, Drop, PartialEq, Eq)]
pub enum Code {
    Occupied = 1,
    NoSlot = 2,
    NotHere = 3,
    StaleId = 4,
    PortTaken = 5,
    Busy = 6,
    WrongClass = 7,
    NameTaken = 8,
    NotRegistered = 9,
}

impl Code {
    /// The code's number, from 1 to 9.
    pub fn number(self) -> u8
        ensures { result ≡ code_number (code_of self) }
    {
        self as u8
    }

    /// Whether a number is this code.
    pub fn is(self, number: i64) -> bool
        ensures { result ≡ is_code (code_of self) number }
    {
        number == i64::from(self.number())
    }
}

/// A message of priority 0 between the services of two controllers. Its stamp is 0 until it is posted.
pub fn system(
    from: ControllerId,
    to: ControllerId,
    kind: SysKind,
    source: Endpoint,
    target: Endpoint,
    payload: Payload,
) -> Msg
    ensures { result ≡ system from.0 to.0 kind source target payload }
{
    Msg {
        from,
        to,
        prio: Priority(0),
        stamp: Stamp(0),
        source: Some(source),
        target,
        signal: kind.number(),
        payload,
    }
}

/// A message of priority 3 by which a service tells an actor of its own controller what came of a
/// request.
pub fn frame_message(
    me: ControllerId,
    signal: FrameSignal,
    source: Endpoint,
    target: Endpoint,
    payload: Payload,
) -> Msg
    ensures { result ≡ frame_message me.0 (signal_of signal) source target payload }
{
    Msg {
        from: me,
        to: me,
        prio: Priority(3),
        stamp: Stamp(0),
        source: Some(source),
        target,
        signal: signal.number(),
        payload,
    }
}
