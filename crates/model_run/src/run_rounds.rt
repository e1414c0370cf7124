//! Laws of a run that goes round by round: what the parties do in a round, each by itself, is a round of
//! the world; turns stay prompt from one list of entries to the next; and lines are posted part by part.
//!
//! The laws hold over any kind of state. They are functions without a body, whose contract is the law.

ghost use Rattle.model_run.specs.run_rounds.Rounds.{PartsAreARound};

/// If in a round each controller works with its end of the mail, fetches what is left for it, and takes a
/// turn or none, and no lane held a message before, then their journals are a round of the world, after
/// which no lane holds a message.
pub fn parts_are_a_round<B>()
    ensures { PartsAreARound B }
{}
