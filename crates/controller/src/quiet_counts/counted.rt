//! Counts of entries.
ghost use Rattle.std.specs.Prelude.{◌≡◌, ◌<◌, ◌^◌};
ghost use Rattle.std.specs.List.{count_by};
ghost use Rattle.controller.specs.quiet_counts.Counts.{is_counted, counted_in_all};

use crate::{Controller, Environment};
use journal::Entry;
use room_kinds::ControllerId;

/// Which entries of journals are counted.
#[derive(Clone, Copy)]
pub(crate) enum Counted {
    /// Those that post a message.
    Posts,
    /// Those that post a message to this controller.
    PostsTo(ControllerId),
    /// Those that fetch a message.
    Fetches,
}

impl Counted {
    fn has(self, entry: &Entry) -> bool
        ensures { result ≡ is_counted self entry.now }
    {
        match entry {
            Entry::Post { msg, .. } => match self {
                Counted::Posts => true,
                Counted::PostsTo(controller) => msg.to.0 == controller.0,
                Counted::Fetches => false,
            },
            Entry::Fetch { .. } => matches!(self, Counted::Fetches),
            Entry::Start { .. } => false,
            Entry::Turn { .. } => false,
        }
    }

    /// How many of these entries are counted.
    pub(crate) fn in_journal(self, entries: &[Entry]) -> u128
        ensures is { result ≡ count_by (is_counted self) entries.now }
        ensures bound { result < 2 ^ 64 }
    {
        entries.iter().filter(|entry| self.has(entry)).count() as u128
    }

    /// How many entries in the journals of all parties are counted. 64 bits might not hold the sum of so many
    /// journals.
    pub(crate) fn in_all(self, all: &[Controller], environment: &Environment) -> u128
        ensures { result ≡ counted_in_all self all.now environment.now }
    {
        let mut count = self.in_journal(environment.entries());
        for controller in all {
            count += self.in_journal(controller.entries());
        }
        count
    }
}
