//! The turns of all controllers in one order: by stamp, and those of one stamp by controller.
use crate::fetched::{Fetched, Name};
use crate::redone::{Redone, Said, Sayings};
use journal::{Did, Entry, Journals};
use room_kinds::{ControllerId, Note, SlotId, Stamp};
use std::alloc::{AllocError, Global};

/// Where a turn stands: its stamp, its controller, and its place in that one's journal.
#[derive(Clone, Copy, Drop, PartialEq, Eq, PartialOrd, Ord)]
struct Place {
    stamp: u64,
    controller: usize,
    entry: usize,
}

/// A turn, with the entries that follow it in its journal.
#[derive(Clone, Copy, Drop)]
pub struct Turn<'a> {
    pub stamp: Stamp,
    pub controller: usize,
    pub from: ControllerId,
    pub sent: Stamp,
    pub did: Did,
    pub notes: &'a [Note],
    /// What was said with the notes `unbound`, where it is known.
    pub said: &'a [Said],
    pub behind: &'a [Entry],
}

impl<'a> Turn<'a> {
    /// What journals call the message of the turn.
    pub fn name(&self) -> Name {
        Name::new(self.from, self.sent)
    }

    /// The slot at which the turn was: that of its actor, or of who is meant by its message.
    pub fn slot(&self, fetched: &Fetched<'_>) -> Option<SlotId> {
        match self.did.speaker() {
            Some(slot) => Some(slot),
            None => match fetched.get(self.name()) {
                Some(msg) => Some(msg.target.slot),
                None => None,
            },
        }
    }
}

fn is_turn(entry: &Entry) -> bool {
    matches!(entry, Entry::Turn { .. })
}

/// The stamp of a turn.
fn turn_stamp(entry: &Entry) -> Option<u64> {
    match entry {
        Entry::Turn { stamp, .. } => Some(stamp.0),
        _ => None,
    }
}

/// The entries of a journal up to its next turn.
pub fn before_turn(entries: &[Entry]) -> &[Entry] {
    let end = entries
        .iter()
        .position(|entry| is_turn(entry))
        .unwrap_or(entries.len());
    entries.get(..end).unwrap_or(&[])
}

/// Adds the places of the turns of a controller's journal.
fn add_places(
    places: &mut Vec<Place>,
    controller: usize,
    entries: &[Entry],
) -> Result<(), AllocError> {
    for (entry, step) in entries.iter().enumerate() {
        if let Some(stamp) = turn_stamp(step) {
            places.push(Place {
                stamp,
                controller,
                entry,
            })?;
        }
    }
    Ok(())
}

/// The turn at a place.
fn turn_at<'a>(journals: &'a Journals, place: Place) -> Option<Turn<'a>> {
    let journal = journals.controllers.as_slice().get(place.controller)?;
    let (
        Entry::Turn {
            stamp,
            from,
            sent,
            did,
            notes,
        },
        behind,
    ) = journal.as_slice().get(place.entry..)?.split_first()?
    else {
        return None;
    };
    Some(Turn {
        stamp: *stamp,
        controller: place.controller,
        from: *from,
        sent: *sent,
        did: *did,
        notes: notes.as_slice(),
        said: &[],
        behind: before_turn(behind),
    })
}

/// The places of the turns of all controllers, in order.
fn places_of(alloc: Global, journals: &Journals) -> Result<Vec<Place>, AllocError> {
    let mut places = Vec::new(alloc);
    for (controller, journal) in journals.controllers.as_slice().iter().enumerate() {
        add_places(&mut places, controller, journal.as_slice())?;
    }
    places.sort()?;
    Ok(places)
}

/// The turns of all controllers, in order, with what was said in them as far as it was done again.
pub fn turns_of<'a>(
    alloc: Global,
    journals: &'a Journals,
    redone: &'a Redone,
) -> Result<Vec<Turn<'a>>, AllocError> {
    let places = places_of(alloc, journals)?;
    let mut sayings = Sayings::of(redone.in_turns.as_slice());
    let mut turns = Vec::new(alloc);
    for place in places.as_slice() {
        if let Some(mut turn) = turn_at(journals, *place) {
            turn.said = sayings.with_all(turn.notes);
            turns.push(turn)?;
        }
    }
    Ok(turns)
}
