//! What a run promises: the sentences that a reader of its journals may rely on, each stated on the
//! journals alone, and the law that every run keeps them. `run_texts`: the text of its journals tells a
//! run. `run_journals`: each entry is in the journal where it belongs, and each fetch is tied to its post.
//! `bounded_growth`: the numbers of the services rise by at most one at a message.
//!
//! No code: the laws.
#![tactic(auto)]

pub mod bounded_growth;
pub mod run_journals;
pub mod run_texts;

ghost use Rattle.law_runs.specs.Promises.{RunsKeepPromises};

pub use run_texts::{events_tell_runs, runs_fetch_what_fits, texts_tell_runs};

/// The journals of every run keep their promises. Messages between two ports at a priority arrive in
/// order and once; stamps rise; each actor lives once, on the controller of its slot, and no message is
/// dispatched to it before or after; each turn takes the most urgent message that waits, and of its
/// priority the oldest; the environment posts the lines in order; and where a run is done, all that was
/// posted was fetched and had a turn, and nothing is left.
pub fn runs_keep_their_promises()
    ensures { RunsKeepPromises }
{}
