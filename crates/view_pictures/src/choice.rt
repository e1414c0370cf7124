//! What of a run is drawn: its messages and turns in the order in which they happen.
use crate::cast::Cast;
use indexmap::IndexMap;
use journal::Entry;
use room_kinds::{Msg, Note};
use std::alloc::{AllocError, Global};
use view_journals::{Name, Start, Told, Turn};

/// When something happens: its stamp, and at one stamp the controllers by number, the environment last.
#[derive(Clone, Copy, Drop, PartialEq, Eq, PartialOrd, Ord)]
struct Moment {
    stamp: u64,
    party: usize,
    happening: usize,
}

/// Something that is drawn.
#[derive(Clone, Copy, Drop)]
pub enum Happening {
    /// The message of this number is posted.
    Post(usize),
    /// The turn of this number.
    Turn(usize),
}

/// Who is passed over where more take part than can have lifelines of their own.
#[derive(Clone, Copy, PartialEq, Eq)]
pub enum Crowd {
    /// Nobody: there is room for all.
    Seated,
    /// Those to whom nothing happens once they have started.
    Idle,
    /// All but the one whose turns alone are wanted.
    Unnamed,
    /// Those who come last.
    Late,
}

/// What of a run is drawn.
#[derive(Drop)]
pub struct Choice<'a> {
    pub cast: Cast,
    pub crowd: Crowd,
    /// The messages that are drawn.
    pub messages: Vec<&'a Msg>,
    /// The number of each by what journals call it.
    pub numbers: IndexMap<Name, usize>,
    /// How many messages aren't drawn since neither of their ends has a lifeline of its own.
    pub undrawn: usize,
    /// What is drawn, in the order in which it was chosen.
    happenings: Vec<Happening>,
    moments: Vec<Moment>,
}

impl<'a> Choice<'a> {
    /// Nothing of a run, of which these are passed over, and so many slots can have lifelines of their own.
    pub fn nothing(
        alloc: Global,
        told: &Told<'a>,
        crowd: Crowd,
        most: usize,
    ) -> Result<Choice<'a>, AllocError> {
        Ok(Choice {
            cast: Cast::nobody(alloc, told.wiring, most)?,
            crowd,
            messages: Vec::new(alloc),
            numbers: IndexMap::new(alloc),
            undrawn: 0,
            happenings: Vec::new(alloc),
            moments: Vec::new(alloc),
        })
    }

    fn add(&mut self, stamp: u64, party: usize, happening: Happening) -> Result<(), AllocError> {
        self.moments.push(Moment {
            stamp,
            party,
            happening: self.happenings.len(),
        })?;
        Ok(self.happenings.push(happening)?)
    }

    /// Draws a message, once.
    pub fn add_message(&mut self, msg: &'a Msg) -> Result<(), AllocError> {
        let name = Name::new(msg.from, msg.stamp);
        if self.numbers.contains_key(&name) {
            return Ok(());
        }
        if !self.cast.admit_ends(msg) {
            self.undrawn = self.undrawn.saturating_add(1);
            return Ok(());
        }
        let number = self.messages.len();
        self.messages.push(msg)?;
        self.numbers.insert(name, number)?;
        self.add(
            msg.stamp.0,
            usize::from(msg.from.0),
            Happening::Post(number),
        )
    }

    /// Draws what entries post.
    fn add_posts(&mut self, entries: &'a [Entry]) -> Result<(), AllocError> {
        for entry in entries {
            if let Entry::Post { msg, .. } = entry {
                self.add_message(msg)?;
            }
        }
        Ok(())
    }

    /// Draws a start and what it sends, if its actor's slot has a lifeline. An actor without a chart has one only where
    /// something happens to it; so does any other one in a crowd.
    pub fn add_start(&mut self, told: &Told<'a>, start: &Start<'a>) -> Result<(), AllocError> {
        let has_chart = match told.wiring.class_of(start.who.slot) {
            Some(class) => !class.states.is_empty(),
            None => false,
        };
        let takes_part = match self.crowd {
            Crowd::Seated => has_chart,
            Crowd::Idle | Crowd::Unnamed | Crowd::Late => !start.notes.is_empty(),
        };
        if takes_part {
            let _has_line = self.cast.admit(start.who.slot);
        }
        self.add_posts(start.sends)
    }

    /// Draws a turn with its message and what it sends, if its slot has a lifeline.
    pub fn add_turn(
        &mut self,
        told: &Told<'a>,
        number: usize,
        turn: &Turn<'a>,
    ) -> Result<(), AllocError> {
        let is_drawn = match turn.slot(&told.fetched) {
            Some(slot) => self.cast.admit(slot),
            None => false,
        };
        if !is_drawn {
            return Ok(());
        }
        if let Some(msg) = told.fetched.get(turn.name()) {
            self.add_message(msg)?;
        }
        self.add(turn.stamp.0, turn.controller, Happening::Turn(number))?;
        self.admit_all(turn.notes);
        self.add_posts(turn.behind)
    }

    /// Admits those who come up or go down.
    fn admit_all(&mut self, notes: &[Note]) {
        for note in notes {
            if let Note::Up { who, .. } | Note::Down { who, .. } = note {
                let _has_line = self.cast.admit(who.slot);
            }
        }
    }

    /// What is drawn, in order.
    pub fn in_order(&mut self, alloc: Global) -> Result<Vec<Happening>, AllocError> {
        self.moments.sort()?;
        let mut ordered = Vec::new(alloc);
        for moment in self.moments.as_slice() {
            if let Some(happening) = self.happenings.as_slice().get(moment.happening) {
                ordered.push(*happening)?;
            }
        }
        Ok(ordered)
    }
}
