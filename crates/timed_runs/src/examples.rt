//! Worked examples: where a source of timed lines comes when all is quiet. Each function is a law
//! without a body; its proof computes the definitions.

ghost use Rattle.timed_runs.specs.Examples.{ComesToAMoment, ComesToTheEnd, IsNotYetDue, ComesToMessages};

/// A timer of 5 is due in the second of two lines, `advance 4` and `advance 3`, of which 2 are left.
pub fn comes_to_a_moment()
    ensures { ComesToAMoment }
{}

/// From there on no timer is due, and all lines are passed.
pub fn comes_to_the_end()
    ensures { ComesToTheEnd }
{}

/// A timer of 5 isn't due after `advance 4`.
pub fn is_not_yet_due()
    ensures { IsNotYetDue }
{}

/// Behind an `advance` come all messages up to the next line that is none.
pub fn comes_to_messages()
    ensures { ComesToMessages }
{}
