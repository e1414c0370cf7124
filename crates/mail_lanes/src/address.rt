//! Messages as they go in a lane.
ghost use Rattle.std.specs.Prelude.{◌≡◌};
ghost use Rattle.mail_lanes.specs.Addressed.{addressed};

use room_kinds::{ControllerId, Msg, Priority};

/// A message with the ends and the priority of its lane. Its deque says them, so that whatever comes
/// out of a lane is a message of that lane.
pub(crate) fn addressed(m: Msg, from: u8, to: u8, prio: u8) -> Msg
    ensures { result ≡ addressed from to prio m }
{
    let mut message = m;
    message.from = ControllerId(from);
    message.to = ControllerId(to);
    message.prio = Priority(prio);
    message
}
