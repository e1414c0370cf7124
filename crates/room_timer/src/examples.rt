//! Worked examples: what lines come to over the journals of a small model, as the definitions give
//! it. Each function is a law without a body; its proof computes the definitions.

ghost use Rattle.room_timer.specs.Examples.{TimerExpires, TimerIsNotYetDue, ArmedInBetween, MomentNotReached, Disarmed, EndedWithItsActor};

/// A timer of 5 expires in the second of two lines, `advance 4` and `advance 3`.
pub fn timer_expires()
    ensures { TimerExpires }
{}

/// A timer of 5 isn't due after `advance 4`.
pub fn timer_is_not_yet_due()
    ensures { TimerIsNotYetDue }
{}

/// A timer that is armed by who hears a timeout expires within the same line.
pub fn armed_in_between()
    ensures { ArmedInBetween }
{}

/// A moment that isn't reached is the last of an expansion.
pub fn moment_not_reached()
    ensures { MomentNotReached }
{}

/// A timer that is disarmed doesn't expire.
pub fn disarmed_in_time()
    ensures { Disarmed }
{}

/// A timer ends with its actor.
pub fn ended_with_its_actor()
    ensures { EndedWithItsActor }
{}
