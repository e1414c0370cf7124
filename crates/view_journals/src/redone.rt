//! What the actors of a run do by the charts of its model, done again: what journals don't tell, and where they first
//! tell something else.
use journal::Did;
use room_kinds::{Incarnation, Note, Payload, Priority, SlotId, Stamp};
use std::alloc::Global;

/// A message that an actor says at a place of one of its ports.
#[derive(Drop)]
pub struct Said {
    pub port: u16,
    pub place: i64,
    pub signal: u16,
    pub payload: Payload,
    pub prio: Priority,
    /// Whether it goes out of the model, so that its author means that nobody there hears it.
    pub goes_out: bool,
}

/// What an actor did, by the journals or by its chart.
#[derive(Drop)]
pub enum Deed {
    /// It came up, and stood in this state.
    Stands(u16),
    /// A turn came to this.
    Turns(Did),
    /// It said this.
    Says(Said),
    /// It said something at a place that is joined to nothing.
    Unbound { port: u16, place: i64 },
    /// It said nothing more.
    Silence,
    /// Nobody has come up there.
    Nobody,
}

/// Where journals first tell something else than the charts of a model do.
#[derive(Drop)]
pub struct Difference {
    /// The stamp of the turn; none at a start.
    pub stamp: Option<Stamp>,
    pub controller: usize,
    pub who: Incarnation,
    /// What the journals tell.
    pub told: Deed,
    /// What the chart does.
    pub done: Deed,
}

/// A run that was done again by the charts of a model, up to where the journals first tell something else.
#[derive(Drop)]
pub struct Redone {
    /// What was said to nobody at the starts, in their order: one for each note `unbound`.
    pub at_starts: Vec<Said>,
    /// What was said to nobody in the turns, in their order: one for each note `unbound`.
    pub in_turns: Vec<Said>,
    /// Where the journals first tell something else, if they do.
    pub differs: Option<Difference>,
    /// The numbers of the attributes of those who stand in the slots in the end, by the slots' numbers; none where
    /// nobody with a chart does, or where they aren't known.
    pub attributes: Vec<Option<Vec<i64>>>,
}

impl Redone {
    /// Nothing was done again. It takes no memory.
    pub fn nothing(alloc: Global) -> Redone {
        Redone {
            at_starts: Vec::new(alloc),
            in_turns: Vec::new(alloc),
            differs: None,
            attributes: Vec::new(alloc),
        }
    }

    /// The numbers of the attributes of the actor that stands in a slot in the end, where they are known.
    pub fn attributes_of(&self, slot: SlotId) -> Option<&[i64]> {
        match self.attributes.get(usize::from(slot.0)) {
            Some(Some(numbers)) => Some(numbers.as_slice()),
            _ => None,
        }
    }
}

/// Whether a note is of a send that leads to nobody.
fn is_unbound(note: &Note) -> bool {
    matches!(note, Note::Unbound { .. })
}

/// What was said with notes, one after another.
#[derive(Clone, Copy)]
pub struct Sayings<'a> {
    left: &'a [Said],
}

impl<'a> Sayings<'a> {
    pub fn of(said: &'a [Said]) -> Sayings<'a> {
        Sayings { left: said }
    }

    /// What was said with the next note; none where it is of no send that leads to nobody, or where that isn't known.
    pub fn with(&mut self, note: &Note) -> Option<&'a Said> {
        if !is_unbound(note) {
            return None;
        }
        let (first, left) = self.left.split_first()?;
        self.left = left;
        Some(first)
    }

    /// What was said with the next notes.
    pub fn with_all(&mut self, notes: &[Note]) -> &'a [Said] {
        let count = notes.iter().filter(|note| is_unbound(note)).count();
        let (own, left) = self.left.split_at(count.min(self.left.len()));
        self.left = left;
        own
    }
}
