//! What a summary counts of the journals of a run.
ghost use Rattle.std.specs.Prelude.{◌≡◌, ◌<◌, ◌^◌};
ghost use Rattle.std.specs.List.{count_by, sum_by};
ghost use Rattle.made_model.specs.Counts.{is_counted, in_all, number_of, counts_of};

use journal::{Did, Entry, Journal, Journals};

/// How often each happened in a run, by all its parties. No bound of theirs is kept in a journal's type.
#[derive(Clone, Copy, PartialEq, Eq)]
pub struct Counts {
    /// Messages that went into a mailbox, the environment's with them.
    pub posts: u128,
    /// Messages that came out of a mailbox.
    pub fetches: u128,
    /// Turns in which an actor handled its message.
    pub handled: u128,
    /// Turns in which no transition was enabled.
    pub unhandled: u128,
}

/// What is counted.
#[derive(Clone, Copy)]
enum Counted {
    Post,
    Fetch,
    Handled,
    Unhandled,
}

fn is_counted(what: Counted, entry: &Entry) -> bool
    ensures { result ≡ is_counted what entry.now }
{
    match what {
        Counted::Post => matches!(entry, Entry::Post { .. }),
        Counted::Fetch => matches!(entry, Entry::Fetch { .. }),
        Counted::Handled => matches!(
            entry,
            Entry::Turn {
                did: Did::Handled { .. },
                ..
            }
        ),
        Counted::Unhandled => matches!(
            entry,
            Entry::Turn {
                did: Did::Unhandled { .. },
                ..
            }
        ),
    }
}

/// How many entries of a journal are so.
fn in_journal(what: Counted, entries: &[Entry]) -> usize
    ensures { result ≡ count_by (is_counted what) entries.now }
{
    entries
        .iter()
        .filter(|entry| is_counted(what, entry))
        .count()
}

/// How many entries of these journals are so.
fn in_all(what: Counted, journals: &[Journal]) -> u128
    ensures total { result ≡ in_all what journals.now }
    ensures bound { result < 2 ^ 127 }
{
    let mut total = 0;
    for journal in journals {
        total += in_journal(what, journal.as_slice()) as u128;
    }
    total
}

fn number_of(what: Counted, journals: &Journals) -> u128
    ensures { result ≡ number_of what journals.now }
{
    let environment = in_journal(what, journals.environment.as_slice());
    in_all(what, journals.controllers.as_slice()) + environment as u128
}

/// What a summary counts of the journals of a run.
pub fn counts_of(journals: &Journals) -> Counts
    ensures { result ≡ counts_of journals.now }
{
    Counts {
        posts: number_of(Counted::Post, journals),
        fetches: number_of(Counted::Fetch, journals),
        handled: number_of(Counted::Handled, journals),
        unhandled: number_of(Counted::Unhandled, journals),
    }
}
