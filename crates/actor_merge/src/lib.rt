//! Laws about journals: merged by stamp, the journals of controllers that run side by side are one
//! run of a world in which one event happens at a time.
//!
//! A controller fetches messages from its lanes, takes turns, and posts what its actors send. Each
//! event has a stamp of the controller's logical clock (Lamport 1978). The laws hold over any kind
//! of state: `B` is what a controller keeps besides its mail, and what a turn does to it is any
//! function. They are functions without a body, whose contract is the law.
#![tactic(auto)]

ghost use Rattle.actor_merge.specs.Merge.{MergeExists, MergeIsARun, ReplaysRise, RunsProject};
ghost use Rattle.actor_merge.specs.History.{StartIsHistory, HistoryGoesOn, HistoryIsLawful};

/// In a replay stamps rise strictly, from above the clock before it, and each fetch is stamped above
/// the post of its message.
pub fn replays_rise<B>()
    ensures { ReplaysRise B }
{}

/// If each party's journal is its own replay, and per lane what was fetched is a prefix of what was
/// posted, then the merge of the journals by stamp and party is one run of the world.
pub fn merge_is_a_run<B>()
    ensures exists { MergeExists B }
    ensures run { MergeIsARun B }
{}

/// In a run of the world each controller's entries are its own replay, and each lane is a queue.
pub fn runs_project<B>()
    ensures { RunsProject B }
{}

/// The journals of a run so far, as they grow round by round, are lawful: merged, they are one run
/// from the start. This is what stays true from one round to the next.
pub fn history_goes_on<B>()
    ensures start { StartIsHistory B }
    ensures goes_on { HistoryGoesOn B }
    ensures lawful { HistoryIsLawful B }
{}
