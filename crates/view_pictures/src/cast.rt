//! Who has a lifeline in the picture of a run.
use journal::naming;
use room_kinds::{Endpoint, Msg, SlotId};
use room_wiring::Wiring;
use std::alloc::{AllocError, Global};
use view_drawing::{Group, Lifeline, Sequence, tail_of};

/// The most slots that have lifelines of their own.
pub const MOST_LIFELINES: usize = 40;

/// Who takes part in what is drawn of a run.
#[derive(Drop)]
pub struct Cast {
    /// For each slot whether it has a lifeline of its own.
    slots: Vec<bool>,
    /// How many have, and how many can have.
    count: usize,
    most: usize,
    /// Whether more take part than can have lifelines of their own.
    pub is_crowded: bool,
    has_environment: bool,
    /// Whether messages of those who have none of their own are drawn.
    has_others: bool,
}

/// The lifelines of those who take part.
#[derive(Drop)]
pub struct Columns {
    /// The lifeline of each slot that has one of its own.
    slots: Vec<Option<usize>>,
    /// The one lifeline of all others.
    others: Option<usize>,
}

/// Where the lifeline of a slot stands among the others: by controller, and by number.
#[derive(Clone, Copy, Drop, PartialEq, Eq, PartialOrd, Ord)]
struct Seat {
    owner: u8,
    slot: u16,
}

impl Cast {
    /// Nobody, of whom so many can have lifelines of their own.
    pub fn nobody(alloc: Global, wiring: &Wiring, most: usize) -> Result<Cast, AllocError> {
        let mut slots = Vec::new(alloc);
        for _slot in 0..wiring.slot_count() {
            slots.push(false)?;
        }
        Ok(Cast {
            slots,
            count: 0,
            most,
            is_crowded: false,
            has_environment: false,
            has_others: false,
        })
    }

    /// Whether a slot has a lifeline of its own: from now on it has, where there is room.
    pub fn admit(&mut self, slot: SlotId) -> bool {
        let Some(is_admitted) = self.slots.as_mut_slice().get_mut(usize::from(slot.0)) else {
            return false;
        };
        if *is_admitted {
            return true;
        }
        if self.count >= self.most {
            self.is_crowded = true;
            return false;
        }
        *is_admitted = true;
        self.count = self.count.saturating_add(1);
        true
    }

    /// Whether a message is drawn: one of the slots between which it goes has a lifeline of its own.
    pub fn admit_ends(&mut self, msg: &Msg) -> bool {
        let sends = match msg.source {
            Some(source) => self.admit(source.slot),
            None => false,
        };
        let gets = self.admit(msg.target.slot);
        if !sends && !gets {
            return false;
        }
        let is_injected = msg.source.is_none();
        self.has_environment = self.has_environment || is_injected;
        self.has_others = self.has_others || !gets || !(sends || is_injected);
        true
    }

    /// Where the lifelines of those who take part stand.
    fn seats(&self, alloc: Global, wiring: &Wiring) -> Result<Vec<Seat>, AllocError> {
        let mut seats = Vec::new(alloc);
        for (number, takes_part) in self.slots.as_slice().iter().enumerate() {
            if *takes_part && let Some(seat) = seat_of(wiring, number) {
                seats.push(seat)?;
            }
        }
        seats.sort()?;
        Ok(seats)
    }

    /// Gives those who take part their lifelines: first the environment, then the slots by controller, then all others
    /// together. Where nobody takes part the environment has one.
    pub fn take_seats(
        &self,
        sequence: &mut Sequence,
        wiring: &Wiring,
    ) -> Result<Columns, AllocError> {
        let alloc = sequence.alloc;
        let seats = self.seats(alloc, wiring)?;
        if self.has_environment || self.count == 0 {
            add_group(sequence, b"", b"", None)?;
            add_lifeline(sequence, b"environment")?;
        }
        let mut columns = Columns {
            slots: vec![in alloc; None; self.slots.len()]?,
            others: None,
        };
        columns.sit_all(sequence, wiring, seats.as_slice())?;
        if self.has_others {
            columns.others = Some(sequence.lifelines.len());
            add_group(sequence, b"", b"", None)?;
            add_lifeline(sequence, b"others")?;
        }
        Ok(columns)
    }
}

impl Columns {
    fn sit(&mut self, slot: u16, lifeline: usize) {
        if let Some(place) = self.slots.as_mut_slice().get_mut(usize::from(slot)) {
            *place = Some(lifeline);
        }
    }

    /// Gives the slots their lifelines, those of a controller in a group.
    fn sit_all(
        &mut self,
        sequence: &mut Sequence,
        wiring: &Wiring,
        seats: &[Seat],
    ) -> Result<(), AllocError> {
        let mut owner = None;
        for seat in seats {
            if owner != Some(seat.owner) {
                add_controller(sequence, wiring, seat.owner)?;
                owner = Some(seat.owner);
            }
            self.sit(seat.slot, sequence.lifelines.len());
            let path = path_of(sequence.alloc, wiring, SlotId(seat.slot))?;
            add_lifeline(sequence, path.as_slice())?;
        }
        Ok(())
    }

    /// The lifeline of a slot's own, if it has one.
    pub fn of(&self, slot: SlotId) -> Option<usize> {
        match self.slots.as_slice().get(usize::from(slot.0)) {
            Some(lifeline) => *lifeline,
            None => None,
        }
    }

    /// The lifeline at which messages of a slot end: its own, or that of all others.
    pub fn at(&self, slot: SlotId) -> Option<usize> {
        match self.of(slot) {
            Some(lifeline) => Some(lifeline),
            None => self.others,
        }
    }

    /// The lifeline of who sends at an end; that of the environment is the first one.
    pub fn of_sender(&self, source: Option<Endpoint>) -> Option<usize> {
        match source {
            Some(source) => self.at(source.slot),
            None => Some(0),
        }
    }
}

/// Where the lifeline of the slot of this number stands.
fn seat_of(wiring: &Wiring, number: usize) -> Option<Seat> {
    let Ok(slot) = u16::try_from(number) else {
        return None;
    };
    let known = wiring.get_slot(SlotId(slot))?;
    Some(Seat {
        owner: known.owner.0,
        slot,
    })
}

/// Adds a group, which has no lifelines yet.
fn add_group(
    sequence: &mut Sequence,
    kind: &[u8],
    name: &[u8],
    colour: Option<u8>,
) -> Result<(), AllocError> {
    let mut title = Vec::from_slice(sequence.alloc, kind)?;
    title.extend_from_slice(tail_of(name))?;
    Ok(sequence.groups.push(Group { title, colour })?)
}

/// Adds the group of a controller.
fn add_controller(
    sequence: &mut Sequence,
    wiring: &Wiring,
    controller: u8,
) -> Result<(), AllocError> {
    let name = naming::controller_name(wiring, usize::from(controller));
    add_group(sequence, b"controller ", name, Some(controller))
}

/// The path of a slot.
fn path_of(alloc: Global, wiring: &Wiring, slot: SlotId) -> Result<Vec<u8>, AllocError> {
    match wiring.get_slot(slot) {
        Some(slot) => slot.path.to_vec(alloc),
        None => Ok(Vec::new(alloc)),
    }
}

/// Adds a lifeline to the group that was added last.
fn add_lifeline(sequence: &mut Sequence, title: &[u8]) -> Result<(), AllocError> {
    let group = sequence.groups.len().saturating_sub(1);
    let title = Vec::from_slice(sequence.alloc, tail_of(title))?;
    Ok(sequence.lifelines.push(Lifeline { title, group })?)
}
