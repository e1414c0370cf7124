//! Earlier entries, from which later ones follow.
use crate::judged::entries_of;
use crate::places::Spot;
use journal::{Did, Entry, Journals};
use room_kinds::{ControllerId, Incarnation, Msg, Note, Stamp};

/// Journals, of which so many entries of each party are meant.
#[derive(Clone, Copy)]
pub(crate) struct Front<'a> {
    pub journals: &'a Journals,
    pub passed: &'a [usize],
}

/// Whether an entry is the post of a stamp.
fn is_post(entry: &Entry, sent: Stamp) -> bool {
    match entry {
        Entry::Post { stamp, .. } => *stamp == sent,
        Entry::Start { .. } | Entry::Fetch { .. } | Entry::Turn { .. } => false,
    }
}

/// Whether an entry fetches a message of this name.
fn is_fetch(entry: &Entry, from: ControllerId, sent: Stamp) -> bool {
    match entry {
        Entry::Fetch { msg, .. } => msg.from == from && msg.stamp == sent,
        Entry::Start { .. } | Entry::Turn { .. } | Entry::Post { .. } => false,
    }
}

/// Whether an entry is a turn with a message of this name.
fn is_turn_with(entry: &Entry, from: ControllerId, sent: Stamp) -> bool {
    match entry {
        Entry::Turn {
            from: sender,
            sent: posted,
            ..
        } => *sender == from && *posted == sent,
        Entry::Start { .. } | Entry::Fetch { .. } | Entry::Post { .. } => false,
    }
}

fn is_turn(entry: &Entry) -> bool {
    matches!(entry, Entry::Turn { .. })
}

/// Whether an actor came up with a note.
fn came_up(note: &Note, who: Incarnation) -> bool {
    match note {
        Note::Up { who: up, .. } => *up == who,
        _ => false,
    }
}

/// Whether an entry tells how an actor stands behind it.
fn tells_of(entry: &Entry, who: Incarnation) -> bool {
    match entry {
        Entry::Start { who: started, .. } => *started == who,
        Entry::Turn { did, notes, .. } => match did {
            Did::Handled { who: other, .. }
            | Did::Deferred { who: other, .. }
            | Did::Unhandled { who: other, .. } => *other == who,
            Did::Duty => notes.as_slice().iter().any(|note| came_up(note, who)),
            Did::Stale { .. } | Did::Empty { .. } => false,
        },
        Entry::Fetch { .. } | Entry::Post { .. } => false,
    }
}

/// Whether an entry is the start of the actor that sends a message.
fn is_start_of_sender(entry: &Entry, msg: &Msg) -> bool {
    match (entry, msg.source) {
        (Entry::Start { who, .. }, Some(source)) => who.slot == source.slot,
        _ => false,
    }
}

impl<'a> Front<'a> {
    /// The entries of a party that are meant.
    pub(crate) fn of(self, party: usize) -> &'a [Entry] {
        let entries = entries_of(self.journals, party);
        let count = self.passed.get(party).copied().unwrap_or(0);
        entries.get(..count).unwrap_or(entries)
    }

    /// The post of a message, by its name.
    pub(crate) fn post_of(self, from: ControllerId, sent: Stamp) -> Option<Spot> {
        let party = usize::from(from.0);
        let at = self
            .of(party)
            .iter()
            .position(|entry| is_post(entry, sent))?;
        Some(Spot { party, at })
    }

    /// Where a party fetched a message, by its name.
    pub(crate) fn fetch_of(self, party: usize, from: ControllerId, sent: Stamp) -> Option<Spot> {
        let entries = self.of(party);
        let at = entries
            .iter()
            .rposition(|entry| is_fetch(entry, from, sent))?;
        Some(Spot { party, at })
    }

    /// The last turn of a message, by its name.
    pub(crate) fn turn_with(self, party: usize, from: ControllerId, sent: Stamp) -> Option<Spot> {
        let entries = self.of(party);
        let at = entries
            .iter()
            .rposition(|entry| is_turn_with(entry, from, sent))?;
        Some(Spot { party, at })
    }

    /// The last turn of a party.
    pub(crate) fn last_turn(self, party: usize) -> Option<Spot> {
        let at = self.of(party).iter().rposition(|entry| is_turn(entry))?;
        Some(Spot { party, at })
    }

    /// The last turn or start by which it is known how an actor stands.
    pub(crate) fn standing(self, party: usize, who: Incarnation) -> Option<Spot> {
        let at = self
            .of(party)
            .iter()
            .rposition(|entry| tells_of(entry, who))?;
        Some(Spot { party, at })
    }

    /// The turn or the start in which a party sent a message that it posts next.
    pub(crate) fn sent_in(self, party: usize, msg: &Msg) -> Option<Spot> {
        if let Some(turn) = self.last_turn(party) {
            return Some(turn);
        }
        let entries = self.of(party);
        let at = entries
            .iter()
            .position(|entry| is_start_of_sender(entry, msg))?;
        Some(Spot { party, at })
    }

    /// The last entry of a party.
    pub(crate) fn last(self, party: usize) -> Option<Spot> {
        let at = self.of(party).len().checked_sub(1)?;
        Some(Spot { party, at })
    }
}

/// The post of a message, by its name, anywhere in journals.
pub(crate) fn post_anywhere(journals: &Journals, from: ControllerId, sent: Stamp) -> Option<Spot> {
    let party = usize::from(from.0);
    let at = entries_of(journals, party)
        .iter()
        .position(|entry| is_post(entry, sent))?;
    Some(Spot { party, at })
}
