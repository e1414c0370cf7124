//! Laws about merges and runs of the world: journals have one merge, a run leads to one world, whose
//! clocks bound its stamps, and what has happened when all is quiet is told by what the environment
//! has posted by then.
//!
//! They hold over any kind of state `B`, and are functions without a body, whose contract is the
//! law.
#![tactic(auto)]

ghost use Rattle.law_merges.specs.Merges.{MergesAreOne, RisenJournalsMerge};
ghost use Rattle.law_merges.specs.Runs.{RunsAreBounded, EndsAreOne};
ghost use Rattle.law_merges.specs.Cuts.{QuietRunsHoldAll, QuietRunsAreOne};

/// Two merges of the same journals are one.
pub fn merges_are_one()
    ensures { MergesAreOne }
{}

/// Journals in which stamps rise have a merge.
pub fn risen_journals_merge()
    ensures { RisenJournalsMerge }
{}

/// No stamp of a run is above the greatest clock of the world to which it leads.
pub fn runs_are_bounded<B>()
    ensures { RunsAreBounded B }
{}

/// The entries of a run tell the world to which it leads.
pub fn ends_are_one<B>()
    ensures { EndsAreOne B }
{}

/// Two runs over lines that may differ, where each controller's entries in one are the first of
/// those in the other. `all`: where one ends in a quiet world, it has all that happens in the other,
/// if that has no more posts of the environment. `one`: so two that end in quiet worlds, with the
/// same posts of the environment, have the same entries.
pub fn quiet_cuts<B>()
    ensures all { QuietRunsHoldAll B }
    ensures one { QuietRunsAreOne B }
{}
