//! Journals.
ghost use Rattle.std.specs.Prelude.{◌≡◌, ◌<◌, ◌+◌, ◌*◌, ◌↔◌, if◌then◌else◌, length, IsTrue};
ghost use Rattle.std.specs.List.{list_all};
ghost use Rattle.room_wiring.specs.Consistent.{IsConsistent};
ghost use Rattle.journal.specs.Fits.{sender_rank, left_rank, Fits};
ghost use Rattle.journal_reader.specs.journal_fits.Judge.{fits_post, fits_entry, fits_environment, fits_left, fits_journal, fits_journals, in_order, fits};

use crate::journal_fits::actors::{fits_standing, is_party};
use crate::journal_fits::messages::{fits_did, fits_message, fits_notes};
use journal::{Entry, Journal, Journals, Left};
use room_kinds::{ControllerId, Msg, Priority, Stamp};
use room_wiring::Wiring;

/// A post of this party, stamped when it was posted.
fn fits_post(wiring: &Wiring, party: usize, stamp: Stamp, msg: &Msg) -> bool
    ensures { result ≡ fits_post wiring.now party stamp.0 msg.now }
{
    fits_message(wiring, msg) && usize::from(msg.from.0) == party && msg.stamp.0 == stamp.0
}

/// An entry in the journal of this controller.
#[tactic(auto, unfolding(crate::specs::journal_fits::Judge::fits_entry))]
fn fits_entry(wiring: &Wiring, c: usize, entry: &Entry) -> bool
    ensures { result ≡ fits_entry wiring.now c entry.now }
{
    match entry {
        Entry::Start { who, state, notes } => {
            fits_standing(wiring, *who, *state)
                && fits_notes(wiring, false, Some(who.slot), notes.as_slice())
        }
        Entry::Fetch { msg, .. } => usize::from(msg.to.0) == c && fits_message(wiring, msg),
        Entry::Turn {
            from,
            did,
            notes,
            ..
        } => {
            is_party(wiring, *from)
                && fits_did(wiring, *did)
                && fits_notes(wiring, did.is_duty(), did.speaker(), notes.as_slice())
        }
        Entry::Post { stamp, msg } => fits_post(wiring, c, *stamp, msg),
    }
}

/// An entry in the environment's journal: it only posts.
#[tactic(auto, unfolding(crate::specs::journal_fits::Judge::fits_environment))]
fn fits_environment(wiring: &Wiring, entry: &Entry) -> bool
    ensures { result ≡ fits_environment wiring.now entry.now }
{
    match entry {
        Entry::Post { stamp, msg } => {
            fits_post(wiring, usize::from(wiring.controller_count()), *stamp, msg)
        }
        Entry::Start { .. } => false,
        Entry::Fetch { .. } => false,
        Entry::Turn { .. } => false,
    }
}

/// A message left to its receiver, at a priority that has a list.
#[tactic(auto, unfolding(crate::specs::journal_fits::Judge::fits_left))]
fn fits_left(wiring: &Wiring, left: &Left) -> bool
    ensures { result ≡ fits_left wiring.now left.now }
{
    fits_message(wiring, &left.msg) && left.msg.to.0 == left.to.0 && left.msg.prio.0 <= 5
}

fn fits_journal(wiring: &Wiring, c: usize, entries: &[Entry]) -> bool
    ensures { result ≡ fits_journal wiring.now c entries.now }
{
    entries.iter().all(|entry| fits_entry(wiring, c, entry))
}

fn fits_journals(wiring: &Wiring, journals: &[Journal]) -> bool
    ensures { result ≡ fits_journals wiring.now 0 journals.now }
{
    for (c, journal) in journals.iter().enumerate() {
        if !fits_journal(wiring, c, journal.as_slice()) {
            return false;
        }
    }
    true
}

fn fits_posts(wiring: &Wiring, entries: &[Entry]) -> bool
    ensures { result ≡ list_all (fits_environment wiring.now) entries.now }
{
    entries.iter().all(|entry| fits_environment(wiring, entry))
}

fn fits_all_left(wiring: &Wiring, left: &[Left]) -> bool
    ensures { result ≡ list_all (fits_left wiring.now) left.now }
{
    left.iter().all(|one| fits_left(wiring, one))
}

/// Among the lanes of one priority the environment's is first, then the controllers' ascending.
fn sender_rank(wiring: &Wiring, from: ControllerId) -> u64
    ensures rank { result ≡ sender_rank wiring.now from.0 }
    ensures small { result < 1000 }
{
    if from.0 < wiring.controller_count() {
        1 + u64::from(from.0)
    } else {
        0
    }
}

/// Pending messages come before the lanes, and those lane by lane.
fn list_rank(wiring: &Wiring, pending: bool, from: ControllerId) -> u64
    ensures rank { result ≡ (if pending
        then 0
        else (6 * (1 + length wiring.now.controllers) + sender_rank wiring.now from.0)) }
    ensures small { result < 4096 }
{
    if pending {
        0
    } else {
        6 * (1 + u64::from(wiring.controller_count())) + sender_rank(wiring, from)
    }
}

/// By receiver, then by priority, then by list, where there are so many controllers.
fn rank(count: u8, to: ControllerId, prio: Priority, list: u64) -> u64
    requires { list < 4096 }
    ensures { result ≡ 2 * (6 * (1 + count)) * to.0 + (1 + count) * prio.0 + list }
{
    let parties = 1 + u64::from(count);
    2 * (6 * parties) * u64::from(to.0) + parties * u64::from(prio.0) + list
}

/// The place of a message among those that were left: by receiver; pending ones first, then the
/// lanes; by priority; lanes by sender.
fn left_rank(wiring: &Wiring, left: &Left) -> u64
    ensures { result ≡ left_rank wiring.now left.now }
{
    let list = list_rank(wiring, left.pending, left.msg.from);
    rank(wiring.controller_count(), left.to, left.msg.prio, list)
}

/// What was left is in order.
fn in_order(wiring: &Wiring, left: &[Left]) -> bool
    ensures { result ≡ in_order wiring.now left.now }
{
    let mut last = 0;
    for one in left {
        let rank = left_rank(wiring, one);
        if rank < last {
            return false;
        }
        last = rank;
    }
    true
}

/// Whether the journals fit the wiring. It takes no memory, and time in proportion to the journals.
#[tactic(auto, unfolding(crate::specs::journal_fits::Judge::fits))]
fn judged(wiring: &Wiring, journals: &Journals) -> bool
    ensures judged { result ≡ fits wiring.now journals.now }
    ensures consistent { IsConsistent wiring.now }
{
    journals.controllers.len() == usize::from(wiring.controller_count())
        && fits_journals(wiring, journals.controllers.as_slice())
        && fits_posts(wiring, journals.environment.as_slice())
        && fits_all_left(wiring, journals.left.as_slice())
        && in_order(wiring, journals.left.as_slice())
}

/// Whether journals fit a wiring: one journal for each controller, names that the wiring has, posts
/// under their own stamps, an environment that only posts, and what was left in order. It takes no
/// memory, and time in proportion to the journals.
pub fn fits(wiring: &Wiring, journals: &Journals) -> bool
    ensures fits { IsTrue result ↔ Fits wiring.now journals.now }
    ensures consistent { IsConsistent wiring.now }
{
    judged(wiring, journals)
}
