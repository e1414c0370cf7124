//! The journals of a run.
ghost use Rattle.std.specs.Prelude.{All, List};
ghost use Rattle.journal.specs.declared.entry.Entry.{Entry as Kept};
ghost use Rattle.journal_reader.specs.journal_texts.InRange.{InRangeEntry, InRangeLeft, Is32Bit, IsInRange};

use crate::ranges::messages::look_at_message;
use crate::ranges::turns::{look_at_notes, look_at_standing, look_at_turn};
use journal::{Entry, Journal, Journals, Left};

/// An entry.
fn look_at_entry(entry: &Entry)
    ensures { InRangeEntry entry.now }
{
    match entry {
        Entry::Start { who, state, notes } => {
            look_at_standing(*who, *state);
            look_at_notes(notes.as_slice());
        }
        Entry::Fetch { stamp, msg } => {
            let _stamp = stamp.0;
            look_at_message(msg);
        }
        Entry::Turn {
            stamp,
            from,
            sent,
            did,
            notes,
        } => look_at_turn(*stamp, *from, *sent, *did, notes.as_slice()),
        Entry::Post { stamp, msg } => {
            let _stamp = stamp.0;
            look_at_message(msg);
        }
    }
}

/// The entries of one party.
fn look_at_journal(entries: &[Entry])
    ensures { All InRangeEntry entries.now }
{
    for entry in entries {
        look_at_entry(entry);
    }
}

/// The journals of the controllers.
fn look_at_controllers(journals: &[Journal])
    ensures { All (λ (es : List Kept). All InRangeEntry es) journals.now }
{
    for journal in journals {
        look_at_journal(journal.as_slice());
    }
}

/// What was left.
fn look_at_left(left: &[Left])
    ensures { All InRangeLeft left.now }
{
    for one in left {
        let _receiver = one.to.0;
        look_at_message(&one.msg);
    }
}

/// The numbers of lines that weren't posted.
fn look_at_unposted(numbers: &[u32])
    ensures { All Is32Bit numbers.now }
{
    for number in numbers {
        let _number = *number;
    }
}

/// Looks at each number of the journals of a run, so that it is known to be in the range of its type.
pub fn look_through(journals: &Journals)
    ensures { IsInRange journals.now }
{
    look_at_controllers(journals.controllers.as_slice());
    look_at_journal(journals.environment.as_slice());
    look_at_left(journals.left.as_slice());
    look_at_unposted(journals.unposted.as_slice());
}
