//! Who stands where, and in which state, as far as the journals have told.
use crate::turns::before_turn;
use journal::{Did, Entry, Journals};
use room_kinds::{Generation, Incarnation, Note, SlotId};
use room_wiring::Wiring;
use std::alloc::{AllocError, Global};

/// An actor that stands in a slot: its generation and its state.
#[derive(Clone, Copy, Drop)]
pub struct Standing {
    pub generation: Generation,
    pub state: u16,
}

/// The actors that stand in the slots, by the slots' numbers.
#[derive(Drop)]
pub struct Actors {
    slots: Vec<Option<Standing>>,
}

impl Actors {
    /// Nobody in any slot of a wiring.
    pub fn nobody(alloc: Global, wiring: &Wiring) -> Result<Actors, AllocError> {
        let mut slots = Vec::new(alloc);
        for _slot in 0..wiring.slot_count() {
            slots.push(None)?;
        }
        Ok(Actors { slots })
    }

    /// Who stands where after the starts.
    pub fn started(
        alloc: Global,
        wiring: &Wiring,
        journals: &Journals,
    ) -> Result<Actors, AllocError> {
        let mut actors = Actors::nobody(alloc, wiring)?;
        for journal in journals.controllers.as_slice() {
            for entry in before_turn(journal.as_slice()) {
                if let Entry::Start { who, state, .. } = entry {
                    actors.stand(*who, *state);
                }
            }
        }
        Ok(actors)
    }

    /// Who stands in a slot.
    pub fn at(&self, slot: SlotId) -> Option<Standing> {
        match self.slots.get(usize::from(slot.0)) {
            Some(standing) => *standing,
            None => None,
        }
    }

    /// The state of an actor, where it stands in its slot.
    pub fn state_of(&self, who: Incarnation) -> Option<u16> {
        match self.at(who.slot) {
            Some(standing) if standing.generation == who.generation => Some(standing.state),
            _ => None,
        }
    }

    fn put(&mut self, slot: SlotId, standing: Option<Standing>) {
        if let Some(place) = self.slots.get_mut(usize::from(slot.0)) {
            *place = standing;
        }
    }

    /// An actor stands in a state.
    pub fn stand(&mut self, who: Incarnation, state: u16) {
        let standing = Standing {
            generation: who.generation,
            state,
        };
        self.put(who.slot, Some(standing));
    }

    /// What a note tells of who came up and went down.
    fn note(&mut self, note: &Note) {
        match note {
            Note::Up { who, state } => self.stand(*who, *state),
            Note::Down { who, .. } => self.put(who.slot, None),
            Note::Zero | Note::NoMessage | Note::Unbound { .. } | Note::Recall { .. } => (),
        }
    }

    /// What a turn and its notes tell.
    pub fn turn(&mut self, did: Did, notes: &[Note]) {
        match did {
            Did::Handled { who, state }
            | Did::Deferred { who, state }
            | Did::Unhandled { who, state } => { self.stand(who, state) }
            Did::Duty | Did::Stale { .. } | Did::Empty { .. } => (),
        }
        for note in notes {
            self.note(note);
        }
    }
}
