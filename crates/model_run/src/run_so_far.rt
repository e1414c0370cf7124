//! A run between two rounds, and the law that it goes on by a round.
//!
//! The law is a function without a body, whose contract is the law.

ghost use Rattle.model_run.specs.run_so_far.SoFar.{RoundGoesOn};

/// A run in which the environment posts lines and all controllers then join in a round, is a run so far
/// again, whatever items come: its journals are a history, its turns were prompt, and its controllers kept to
/// their fuel.
pub fn round_goes_on()
    ensures { RoundGoesOn }
{}
