//! The text of a run's journals tells the run: no two runs of a model over the same lines have one text.
//!
//! No code: the laws.

ghost use Rattle.law_runs.specs.run_texts.Events.{EventsTellRuns};
ghost use Rattle.law_runs.specs.run_texts.Fetches.{RunsFetchWhatFits};
ghost use Rattle.law_runs.specs.run_texts.Texts.{TextsTellRuns};

/// A run of the world is told by which events each party does, in its own order: where they are the same
/// in two runs, so are all entries, with their stamps and messages, and the worlds to which they lead.
pub fn events_tell_runs<B>()
    ensures { EventsTellRuns B }
{}

/// Two runs of a plant over the same lines whose journals have one text have the same journals, at a wiring
/// whose names tell things apart.
pub fn texts_tell_runs()
    ensures { TextsTellRuns }
{}

/// What the controllers of a run fetch comes from a party, to the controller that fetches it, at one of the
/// six priorities.
pub fn runs_fetch_what_fits()
    ensures { RunsFetchWhatFits }
{}
