//! Where messages were posted.
use journal::{Entry, Journals};
use room_kinds::{ControllerId, Msg};
use room_wiring::Wiring;

fn is_post_at(entry: &Entry, stamp: u64) -> bool {
    match entry {
        Entry::Post { stamp: at, .. } => at.0 == stamp,
        Entry::Start { .. } | Entry::Fetch { .. } | Entry::Turn { .. } => false,
    }
}

/// The entries of a party.
pub fn entries_of<'a>(wiring: &Wiring, journals: &'a Journals, party: ControllerId) -> &'a [Entry] {
    if party.0 >= wiring.controller_count() {
        return journals.environment.as_slice();
    }
    match journals.controllers.as_slice().get(usize::from(party.0)) {
        Some(journal) => journal.as_slice(),
        None => &[],
    }
}

/// The place of the post with a stamp.
pub fn place_of_post(entries: &[Entry], stamp: u64) -> Option<usize> {
    entries.iter().position(|entry| is_post_at(entry, stamp))
}

/// The message that is posted at a place.
pub fn posted_at(entries: &[Entry], place: usize) -> Option<&Msg> {
    match entries.get(place) {
        Some(Entry::Post { msg, .. }) => Some(msg),
        _ => None,
    }
}

/// The place of the last turn before a place.
pub fn turn_before(entries: &[Entry], place: usize) -> Option<usize> {
    entries
        .get(..place)
        .unwrap_or(&[])
        .iter()
        .rposition(|entry| matches!(entry, Entry::Turn { .. }))
}

/// The stamp of the first of the messages that the environment posted together with the one at a place. In between their
/// stamps there is none.
pub fn first_together(entries: &[Entry], place: usize) -> u64 {
    let mut first = 0u64;
    let mut next = None;
    for entry in entries.get(..place.saturating_add(1)).unwrap_or(&[]) {
        if let Entry::Post { stamp, .. } = entry {
            if next != Some(stamp.0) {
                first = stamp.0;
            }
            next = Some(stamp.0.saturating_add(1));
        }
    }
    first
}
