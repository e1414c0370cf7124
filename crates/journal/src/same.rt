//! Whether what two journals keep is the same.
ghost use Rattle.std.specs.Prelude.{◌≡◌, ◌↔◌, IsTrue};
ghost use Rattle.journal.specs.declared.entry.Entry.TheVariants as entries;

use crate::entry::{Did, Entry, Left};
use room_kinds::{ControllerId, Incarnation, Msg, Note, Notes, Stamp};

/// Whether both are the same notes in the same order.
pub fn same_notes(a: &Notes, b: &Notes) -> bool
    ensures { IsTrue result ↔ (a.now ≡ b.now) }
{
    is_same_list(a.as_slice(), b.as_slice())
}

fn is_same_list(a: &[Note], b: &[Note]) -> bool
    ensures { IsTrue result ↔ (a.now ≡ b.now) }
{
    a == b
}

impl Entry {
    /// Whether this entry and another one are the same in all that they say.
    pub fn is_same(&self, other: &Entry) -> bool
        ensures { IsTrue result ↔ (self.now ≡ other.now) }
    {
        match self {
            Entry::Start { who, state, notes } => other.is_start(*who, *state, notes),
            Entry::Fetch { stamp, msg } => other.is_fetch(*stamp, msg),
            Entry::Turn {
                stamp,
                from,
                sent,
                did,
                notes,
            } => other.is_turn(*stamp, *from, *sent, *did, notes),
            Entry::Post { stamp, msg } => other.is_post(*stamp, msg),
        }
    }

    fn is_start(&self, who: Incarnation, state: u16, notes: &Notes) -> bool
        ensures { IsTrue result ↔ (entries.Start who state notes.now ≡ self.now) }
    {
        match self {
            Entry::Start {
                who: own,
                state: reached,
                notes: told,
            } => who == *own && state == *reached && same_notes(notes, told),
            Entry::Fetch { .. } | Entry::Turn { .. } | Entry::Post { .. } => false,
        }
    }

    fn is_fetch(&self, stamp: Stamp, msg: &Msg) -> bool
        ensures { IsTrue result ↔ (entries.Fetch stamp msg.now ≡ self.now) }
    {
        match self {
            Entry::Fetch {
                stamp: time,
                msg: fetched,
            } => stamp == *time && msg.is_same(fetched),
            Entry::Start { .. } | Entry::Turn { .. } | Entry::Post { .. } => false,
        }
    }

    fn is_turn(
        &self,
        stamp: Stamp,
        from: ControllerId,
        sent: Stamp,
        did: Did,
        notes: &Notes,
    ) -> bool
        ensures { IsTrue result ↔ (entries.Turn stamp from sent did notes.now ≡ self.now) }
    {
        match self {
            Entry::Turn {
                stamp: time,
                from: sender,
                sent: posted,
                did: done,
                notes: told,
            } => {
                stamp == *time
                    && from == *sender
                    && sent == *posted
                    && did == *done
                    && same_notes(notes, told)
            }
            Entry::Start { .. } | Entry::Fetch { .. } | Entry::Post { .. } => false,
        }
    }

    fn is_post(&self, stamp: Stamp, msg: &Msg) -> bool
        ensures { IsTrue result ↔ (entries.Post stamp msg.now ≡ self.now) }
    {
        match self {
            Entry::Post {
                stamp: time,
                msg: posted,
            } => stamp == *time && msg.is_same(posted),
            Entry::Start { .. } | Entry::Fetch { .. } | Entry::Turn { .. } => false,
        }
    }
}

impl Left {
    /// Whether this message and another one were left for the same party in the same way.
    pub fn is_same(&self, other: &Left) -> bool
        ensures { IsTrue result ↔ (self.now ≡ other.now) }
    {
        self.to == other.to && self.pending == other.pending && self.msg.is_same(&other.msg)
    }
}
