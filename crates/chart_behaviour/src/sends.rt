//! Where messages go: what an actor or a service sends goes to a controller that there is, at a priority
//! that there is. A reply goes back to the sender of a message of the system level, so that must be a
//! controller.
//!
//! No code: laws of the definitions.

ghost use Rattle.chart_behaviour.specs.sends.Sends.{StartsSendWithin, TurnsSendWithin};

/// What the turn of a message sends, and what a start sends, goes to controllers that there are, at
/// priorities that there are.
pub fn sends_are_within<M>()
    ensures turns { TurnsSendWithin M }
    ensures starts { StartsSendWithin M }
{}
