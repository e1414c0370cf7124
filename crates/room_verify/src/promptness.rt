//! Whether turns were prompt.
ghost use Rattle.std.specs.Prelude.{◌≡◌, ◌+◌, ◌<◌, ◌^◌, length};
ghost use Rattle.actor_world.specs.Journals.{is_turn};
ghost use Rattle.room_verify.specs.Promptness.{FirstAgainst, FirstUnprompt, MayByAllCounts, MayByCounts, after_fetch, after_post, counts_after, is_early, may_by_counts, no_counts, sooner};

use crate::heads::{journal_of, stamp_of};
use journal::{Entry, Journals};
use room_kinds::{ControllerId, Priority, Stamp};

/// After so many fetches at a priority a turn may be taken, whatever else is on its way.
const QUOTA: u64 = 64;

/// How many priorities there are.
const PRIORITIES: u8 = 6;

/// How many messages a controller has sent itself at a priority, how many of them it has fetched, and how many
/// messages it has fetched at that priority since its last turn.
#[derive(Clone, Copy)]
pub struct OwnCounts {
    given: u64,
    taken: u64,
    since: u64,
}

/// Whether an entry is a turn.
fn is_turn(entry: &Entry) -> bool
    ensures { result ≡ is_turn entry.now }
{
    match entry {
        Entry::Turn { .. } => true,
        Entry::Start { .. } | Entry::Fetch { .. } | Entry::Post { .. } => false,
    }
}

impl OwnCounts {
    /// Nothing is counted yet.
    fn new() -> OwnCounts
        ensures { result ≡ no_counts }
    {
        OwnCounts {
            given: 0,
            taken: 0,
            since: 0,
        }
    }

    /// Whether the controller may take a turn.
    fn may_turn(self) -> bool
        ensures { result ≡ may_by_counts self }
    {
        self.given == self.taken || QUOTA <= self.since
    }

    /// The counts after one entry more of controller `c`.
    fn after(self, c: ControllerId, prio: Priority, entry: &Entry) -> OwnCounts
        requires given { self.given + 1 < 2 ^ 64 }
        requires taken { self.taken + 1 < 2 ^ 64 }
        requires since { self.since + 1 < 2 ^ 64 }
        ensures { result ≡ counts_after c.0 prio.0 self entry.now }
    {
        match entry {
            Entry::Fetch { msg, .. } => self.after_fetch(c, prio, msg.from, msg.prio),
            Entry::Post { msg, .. } => self.after_post(c, prio, msg.to, msg.prio),
            Entry::Turn { .. } => OwnCounts {
                given: self.given,
                taken: self.taken,
                since: 0,
            },
            Entry::Start { .. } => self,
        }
    }

    /// The counts after a message from this party was fetched at a priority.
    fn after_fetch(
        self,
        c: ControllerId,
        prio: Priority,
        from: ControllerId,
        at: Priority,
    ) -> OwnCounts
        requires taken { self.taken + 1 < 2 ^ 64 }
        requires since { self.since + 1 < 2 ^ 64 }
        ensures { result ≡ after_fetch c.0 prio.0 from.0 at.0 self }
    {
        if at.0 != prio.0 {
            return self;
        }
        let taken = if from.0 == c.0 {
            self.taken + 1
        } else {
            self.taken
        };
        OwnCounts {
            given: self.given,
            taken,
            since: self.since + 1,
        }
    }

    /// The counts after a message to this party was posted at a priority.
    fn after_post(
        self,
        c: ControllerId,
        prio: Priority,
        to: ControllerId,
        at: Priority,
    ) -> OwnCounts
        requires { self.given + 1 < 2 ^ 64 }
        ensures { result ≡ after_post c.0 prio.0 to.0 at.0 self }
    {
        if at.0 == prio.0 && to.0 == c.0 {
            return OwnCounts {
                given: self.given + 1,
                taken: self.taken,
                since: self.since,
            };
        }
        self
    }
}

/// Whether an entry is a turn that may not be taken after these counts.
fn is_early(counts: OwnCounts, entry: &Entry) -> bool
    ensures { result ≡ is_early counts entry.now }
{
    is_turn(entry) && !counts.may_turn()
}

/// The place of the first turn of controller `c` that was taken too early at a priority, if one was.
fn first_early(journal: &[Entry], c: ControllerId, prio: Priority) -> Option<usize>
    ensures { FirstAgainst (MayByCounts c.0 prio.0) journal.now result }
{
    let mut counts = OwnCounts::new();
    for i in 0..journal.len() {
        let entry = &journal[i];
        if is_early(counts, entry) {
            return Some(i);
        }
        counts = counts.after(c, prio, entry);
    }
    None
}

/// The place of the first turn of controller `c` that was taken too early at some priority, if one was.
fn first_early_turn(journal: &[Entry], c: ControllerId) -> Option<usize>
    ensures { FirstAgainst (MayByAllCounts c.0 6) journal.now result }
{
    let mut first: Option<usize> = None;
    for prio in 0..PRIORITIES {
        let early = first_early(journal, c, Priority(prio));
        first = sooner(first, early);
    }
    first
}

/// The lesser of two places, if there are any.
fn sooner(place: Option<usize>, other: Option<usize>) -> Option<usize>
    ensures { result ≡ sooner place other }
{
    match place {
        None => other,
        Some(one) => match other {
            None => Some(one),
            Some(another) => Some(one.min(another)),
        },
    }
}

/// A turn that was taken too early.
#[derive(Clone, Copy)]
pub struct EarlyTurn {
    pub(crate) controller: ControllerId,
    pub(crate) stamp: Stamp,
}

/// The first turn that was taken too early, by controller and then in order, if one was.
pub(crate) fn first_unprompt(j: &Journals) -> Option<EarlyTurn>
    requires { length j.now.controllers < 256 }
    ensures { FirstUnprompt j.now result }
{
    for c in 0..j.controllers.len() {
        let journal = journal_of(j, c);
        let controller = ControllerId(c as u8);
        if let Some(at) = first_early_turn(journal, controller) {
            let stamp = Stamp(stamp_of(&journal[at]));
            return Some(EarlyTurn { controller, stamp });
        }
    }
    None
}
