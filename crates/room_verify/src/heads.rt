//! The merge of journals by stamp and party.
ghost use Rattle.std.specs.Prelude.{◌≡◌, ◌+◌, ◌≤◌, drop, length};
ghost use Rattle.actor_merge.specs.Mail.{stamp_of};
ghost use Rattle.law_runs.specs.Stamps.{is_event};
ghost use Rattle.model_run.specs.run_ends.Runs.{journal_of};
ghost use Rattle.room_verify.specs.Heads.{FirstOf, HeadOf, earlier, left_of_party};

use journal::{Entry, Journals};

/// The first entry that is left of a party's journal, by its stamp.
#[derive(Clone, Copy)]
pub struct Head {
    pub(crate) party: usize,
    pub(crate) stamp: u64,
}

/// The stamp of an entry; a start stands at 0.
pub(crate) fn stamp_of(entry: &Entry) -> u64
    ensures { result ≡ stamp_of entry.now }
{
    match entry {
        Entry::Start { .. } => 0,
        Entry::Fetch { stamp, .. } => stamp.0,
        Entry::Turn { stamp, .. } => stamp.0,
        Entry::Post { stamp, .. } => stamp.0,
    }
}

/// Whether an entry is something that happened, and not a start.
pub(crate) fn is_event(entry: &Entry) -> bool
    ensures { result ≡ is_event entry.now }
{
    match entry {
        Entry::Start { .. } => false,
        Entry::Fetch { .. } | Entry::Turn { .. } | Entry::Post { .. } => true,
    }
}

/// The journal of a party: of a controller, or of the environment behind the last of them.
pub(crate) fn journal_of(j: &Journals, party: usize) -> &[Entry]
    requires { party ≤ length j.now.controllers }
    ensures { result.now ≡ journal_of j.now party }
{
    let controllers = j.controllers.as_slice();
    if party < controllers.len() {
        controllers[party].as_slice()
    } else {
        j.environment.as_slice()
    }
}

/// The head of what is left of a party's journal behind so many entries, if anything is.
fn head_of(j: &Journals, party: usize, passed: usize) -> Option<Head>
    requires { party ≤ length j.now.controllers }
    ensures { HeadOf (drop passed (journal_of j.now party)) party result }
{
    let journal = journal_of(j, party);
    if passed < journal.len() {
        let stamp = stamp_of(&journal[passed]);
        Some(Head { party, stamp })
    } else {
        None
    }
}

/// Of two heads the one that goes first, where the second is a higher party's.
fn earlier(head: Option<Head>, other: Option<Head>) -> Option<Head>
    ensures { result ≡ earlier head other }
{
    match head {
        None => other,
        Some(one) => match other {
            None => Some(one),
            Some(another) => {
                if another.stamp < one.stamp {
                    Some(another)
                } else {
                    Some(one)
                }
            }
        },
    }
}

/// The head that goes next in the merge of journals, of which so many entries are passed: that of the least stamp,
/// and at one stamp of the lowest party.
pub(crate) fn next_head(j: &Journals, passed: &[usize]) -> Option<Head>
    requires { length passed.now ≤ length j.now.controllers + 1 }
    ensures { FirstOf (left_of_party j.now passed.now) (length passed.now) result }
{
    let mut next = None;
    for party in 0..passed.len() {
        next = earlier(next, head_of(j, party, passed[party]));
    }
    next
}
