//! What happened since one looked last, in the order of the merge of the journals.
ghost use Rattle.std.specs.Prelude.{◌≡◌, ◌+◌, ◌<◌, [], true, false, map, length, slice_get, slice_index_or, option_copied, IfOk, OnOk};
ghost use Rattle.actor_merge.specs.Mail.{stamp_of};
ghost use Rattle.controller.specs.View.{Controller as Shown};
ghost use Rattle.model_run.specs.part_source.Calls.{seen};
ghost use Rattle.timed_runs.specs.Unseen.{journal_at, entry_at, stamp_at, earlier, earliest_of, seen_more};
ghost use Rattle.timed_runs.specs.Looks.{SeesOne, SeesNone, SeesAll};

use controller::{Controller, Environment};
use journal::Entry;
use room_kinds::ControllerId;
use room_timer::TimerTable;
use room_wiring::Wiring;
use std::alloc::AllocError;

/// The time of an entry by its party's clock. A start stands at 0.
fn stamp_of(entry: &Entry) -> u64
    ensures { result ≡ stamp_of entry.now }
{
    match entry {
        Entry::Start { .. } => 0,
        Entry::Fetch { stamp, .. } => stamp.0,
        Entry::Turn { stamp, .. } => stamp.0,
        Entry::Post { stamp, .. } => stamp.0,
    }
}

/// An entry of a controller's journal, by how many are older.
#[tactic(auto, using(crate::proofs::Journals::journal_there, crate::proofs::Journals::no_journal))]
fn entry_of(controllers: &[Controller], party: usize, at: usize) -> Option<&Entry>
    ensures { option_copied result
        ≡ slice_get (slice_index_or (map (λ (k : Shown). k.mail.journal) controllers.now) party []) at }
{
    match controllers.get(party) {
        Some(controller) => controller.entry(at),
        None => None,
    }
}

/// An entry of a party's journal, by how many are older. The environment is the party after the last
/// controller.
fn entry_in<'s>(
    wiring: &Wiring,
    controllers: &'s [Controller],
    environment: &'s Environment,
    party: u8,
    at: usize,
) -> Option<&'s Entry>
    ensures { option_copied result
        ≡ slice_get (journal_at wiring.now (seen controllers.now environment.now) party) at }
{
    if party < wiring.controller_count() {
        entry_of(controllers, usize::from(party), at)
    } else if party == wiring.controller_count() {
        environment.entries().get(at)
    } else {
        None
    }
}

/// A party's entry behind those that were seen of it.
fn next_entry<'s>(
    wiring: &Wiring,
    controllers: &'s [Controller],
    environment: &'s Environment,
    counts: &[usize],
    party: u8,
) -> Option<&'s Entry>
    ensures { option_copied result
        ≡ entry_at (journal_at wiring.now (seen controllers.now environment.now)) counts.now party }
{
    match counts.get(usize::from(party)) {
        Some(count) => entry_in(wiring, controllers, environment, party, *count),
        None => None,
    }
}

/// When it happened.
fn next_stamp(
    wiring: &Wiring,
    controllers: &[Controller],
    environment: &Environment,
    counts: &[usize],
    party: u8,
) -> Option<u64>
    ensures { result
        ≡ stamp_at (journal_at wiring.now (seen controllers.now environment.now)) counts.now party }
{
    match next_entry(wiring, controllers, environment, counts, party) {
        Some(entry) => Some(stamp_of(entry)),
        None => None,
    }
}

/// The earlier of the first stamp of parties before this one, with the party that it is of, and of
/// this one's stamp.
fn earlier(first: Option<(u64, u8)>, party: u8, stamp: Option<u64>) -> Option<(u64, u8)>
    ensures { result ≡ earlier first party stamp }
{
    let Some(stamp) = stamp else {
        return first;
    };
    match first {
        None => Some((stamp, party)),
        Some((least, other)) => {
            if stamp < least {
                Some((stamp, party))
            } else {
                Some((least, other))
            }
        }
    }
}

/// The earliest stamp of what wasn't seen, and the party that it is of; of parties with one stamp,
/// the lowest.
#[tactic(auto, using(crate::proofs::Earliest::earliest_more))]
fn earliest(
    wiring: &Wiring,
    controllers: &[Controller],
    environment: &Environment,
    counts: &[usize],
) -> Option<(u64, u8)>
    ensures { result
        ≡ earliest_of (stamp_at (journal_at wiring.now (seen controllers.now environment.now))
        counts.now) (length wiring.now.controllers + 1) }
{
    let mut first: Option<(u64, u8)> = None;
    let count = wiring.controller_count();
    for party in 0..count {
        let stamp = next_stamp(wiring, controllers, environment, counts, party);
        first = earlier(first, party, stamp);
    }
    let posted = next_stamp(wiring, controllers, environment, counts, count);
    earlier(first, count, posted)
}

/// One entry more of a party was seen. Numbers that are used up are want of memory.
fn count_one(counts: &mut Vec<usize>, party: u8) -> Result<(), AllocError>
    requires { party < length counts.old.items }
    ensures { OnOk result (counts.new.items ≡ seen_more counts.old.items party) }
{
    let place = usize::from(party);
    let Some(count) = counts[place].checked_add(1) else {
        return Err(AllocError);
    };
    counts[place] = count;
    Ok(())
}

/// Lets the timers see the earliest entry that wasn't seen. False where none is left.
fn see_one(
    wiring: &Wiring,
    controllers: &[Controller],
    environment: &Environment,
    counts: &mut Vec<usize>,
    timers: &mut TimerTable,
) -> Result<bool, AllocError>
    ensures some { IfOk result (λ more. more ≡ true
        → SeesOne wiring.now (journal_at wiring.now (seen controllers.now environment.now))
        counts.old.items counts.new.items timers.old timers.new) }
    ensures none { IfOk result (λ more. more ≡ false
        → SeesNone wiring.now (journal_at wiring.now (seen controllers.now environment.now))
        counts.old.items counts.new.items timers.old timers.new) }
{
    let Some((_stamp, party)) = earliest(wiring, controllers, environment, counts.as_slice()) else {
        return Ok(false);
    };
    let Some(entry) = next_entry(wiring, controllers, environment, counts.as_slice(), party) else {
        unreachable!()
    };
    timers.see(wiring, ControllerId(party), entry)?;
    count_one(counts, party)?;
    Ok(true)
}

/// Lets the timers see all that wasn't seen, the earliest first. It takes time in proportion to that,
/// and to the number of parties.
pub(crate) fn see_all(
    wiring: &Wiring,
    controllers: &[Controller],
    environment: &Environment,
    counts: &mut Vec<usize>,
    timers: &mut TimerTable,
) -> Result<(), AllocError>
    ensures { OnOk result (SeesAll wiring.now
        (journal_at wiring.now (seen controllers.now environment.now)) counts.old.items
        counts.new.items timers.old timers.new) }
{
    let mut more = true;
    while more {
        more = see_one(wiring, controllers, environment, counts, timers)?;
    }
    Ok(())
}
