//! What journals say by themselves: whether their stamps rise, and whether they begin with their starts.
ghost use Rattle.std.specs.Prelude.{◌≡◌, ◌+◌, ◌<◌, ◌≤◌, ◌↔◌, length, map, slice_index_or, IsTrue, []};
ghost use Rattle.std.specs.List.{list_all, range_with_len};
ghost use Rattle.law_merges.specs.Merges.{Rise};
ghost use Rattle.law_runs.specs.Stamps.{events, is_event};
ghost use Rattle.model_run.specs.run_ends.Runs.{journal_of};
ghost use Rattle.room_verify.specs.Checks.{BeginsWithStarts, IsInOrder, LowestWithout, is_later};

use crate::heads::{is_event, journal_of, stamp_of};
use journal::{Entry, Journal, Journals};
use room_kinds::ControllerId;

/// Whether a stamp is later than the last one, if there is any.
fn is_later(last: Option<u64>, stamp: u64) -> bool
    ensures { result ≡ is_later last stamp }
{
    match last {
        Some(before) => before < stamp,
        None => true,
    }
}

/// Whether each stamp of the environment's journal is above the one before it.
fn rises(journal: &[Entry]) -> bool
    ensures { IsTrue result ↔ Rise journal.now }
{
    let mut last = None;
    for entry in journal {
        let stamp = stamp_of(entry);
        if !is_later(last, stamp) {
            return false;
        }
        last = Some(stamp);
    }
    true
}

/// Whether each stamp of what happened by a controller's journal is above the one before it.
fn events_rise(journal: &[Entry]) -> bool
    ensures { IsTrue result ↔ Rise (events journal.now) }
{
    let mut last = None;
    for entry in journal {
        if is_event(entry) {
            let stamp = stamp_of(entry);
            if !is_later(last, stamp) {
                return false;
            }
            last = Some(stamp);
        }
    }
    true
}

/// Whether what happened to a party is stamped in order.
fn is_in_order(j: &Journals, party: usize) -> bool
    requires { party ≤ length j.now.controllers }
    ensures { IsTrue result ↔ IsInOrder j.now party }
{
    if party < j.controllers.len() {
        events_rise(journal_of(j, party))
    } else {
        rises(journal_of(j, party))
    }
}

/// The lowest party whose stamps don't rise.
pub(crate) fn first_out_of_order(j: &Journals) -> Option<ControllerId>
    requires { length j.now.controllers < 256 }
    ensures { LowestWithout (IsInOrder j.now) (length j.now.controllers + 1) result }
{
    for party in 0..j.controllers.len() + 1 {
        if !is_in_order(j, party) {
            return Some(ControllerId(party as u8));
        }
    }
    None
}

/// Whether both are the same entries in the same order.
fn same_entries(a: &[Entry], b: &[Entry]) -> bool
    ensures { IsTrue result ↔ (a.now ≡ b.now) }
{
    if a.len() != b.len() {
        return false;
    }
    for i in 0..a.len() {
        if !a[i].is_same(&b[i]) {
            return false;
        }
    }
    true
}

/// Whether each of these entries is something that happened.
fn are_events(entries: &[Entry]) -> bool
    ensures { result ≡ list_all is_event entries.now }
{
    entries.iter().all(|entry| is_event(entry))
}

/// Whether a journal begins with these entries and has no start behind them.
fn begins_with_starts(journal: &[Entry], starts: &[Entry]) -> bool
    ensures { IsTrue result ↔ BeginsWithStarts starts.now journal.now }
{
    if journal.len() < starts.len() {
        return false;
    }
    let (front, after) = journal.split_at(starts.len());
    if !same_entries(front, starts) {
        return false;
    }
    are_events(after)
}

/// The lowest controller whose journal doesn't begin with its starts, or has a start elsewhere.
pub(crate) fn first_wrong_start(j: &Journals, starts: &[Journal]) -> Option<ControllerId>
    requires count { length starts.now ≡ length j.now.controllers }
    requires few { length j.now.controllers < 256 }
    ensures { LowestWithout
        (λ c. BeginsWithStarts (slice_index_or starts.now c []) (journal_of j.now c))
        (length j.now.controllers) result }
{
    for c in 0..starts.len() {
        if !begins_with_starts(journal_of(j, c), starts[c].as_slice()) {
            return Some(ControllerId(c as u8));
        }
    }
    None
}
