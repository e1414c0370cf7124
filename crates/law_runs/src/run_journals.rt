//! What the journals of every run are, over definitions alone: tied, so that a text can tell a fetch by the
//! post that it names; and in place, each entry in the journal where it belongs, and what is left in order.
//! These hold of every plant and all lines. Over lines that name what the wiring has, the environment's journal
//! fits it. What controllers' journals that fit a wiring name besides is not said here.
//!
//! No code: the laws, as functions without a body.

ghost use Rattle.law_runs.specs.run_journals.InPlace.{RunsAreInPlace};
ghost use Rattle.law_runs.specs.run_journals.Outside.{EnvironmentFits, FitLinesName};
ghost use Rattle.law_runs.specs.run_journals.Reaching.{RunsReachControllers};
ghost use Rattle.law_runs.specs.run_journals.Tying.{RunsAreTied};

/// The journals of every run are tied: a fetched message is that of the only post of its sender with its
/// stamp, and a fetch directly after a fetch is stamped one more than the greater of the stamp before it and
/// the stamp of its message.
pub fn runs_are_tied()
    ensures { RunsAreTied }
{}

/// The journals of every run have each entry in its place. There is one journal for each controller; a
/// controller fetches what parties sent to it; who posts is the message's sender, and its stamp that of the
/// post; the environment posts alone; and what is left stands under its receiver, in order.
pub fn runs_are_in_place()
    ensures { RunsAreInPlace }
{}

/// What the environment of a run posts fits the wiring, in the sense in which a reader of journals judges it,
/// where the lines name what the wiring has; and so do lines that fit.
pub fn environment_fits()
    ensures environment { EnvironmentFits }
    ensures lines { FitLinesName }
{}

/// What the controllers of a run post goes to controllers, at one of the six priorities, where the programs
/// send at no other and the lines name what the wiring has.
pub fn runs_reach_controllers()
    ensures { RunsReachControllers }
{}
