//! The rows of the picture of a run, as they are drawn one after another.
use crate::cast::Columns;
use crate::choice::Choice;
use crate::run_texts::{message_label, note_label, state_label, turn_label};
use indexmap::IndexMap;
use journal::{Did, speaker_after};
use room_kinds::{Incarnation, Msg, Note, SlotId};
use room_wiring::Wiring;
use std::alloc::{AllocError, Global};
use view_drawing::{Event, Label, Lead, Row, Sequence, Way};
use view_journals::{Name, Said, Sayings, Start, Told, Turn, is_trouble_note};

/// The most rows that are drawn, but for those of the last turn and those that tell of the end.
const MOST_ROWS: usize = 4_000;

/// A message on its way: the row where it was last, and whether it is still to be treated for the first time.
#[derive(Clone, Copy, Drop)]
struct Journey<'a> {
    msg: &'a Msg,
    row: Option<usize>,
    is_open: bool,
}

/// Where a text of a run stands.
#[derive(Clone, Copy)]
struct Spot {
    lifeline: usize,
    stamp: Option<u64>,
    event: Event,
}

/// A run that is being drawn.
#[derive(Drop)]
pub struct Drawing<'a, 'b> {
    pub told: &'b Told<'a>,
    /// The number of the journey of each message.
    numbers: &'b IndexMap<Name, usize>,
    columns: Columns,
    journeys: Vec<Journey<'a>>,
    /// For each lifeline the slot and the state of the actor as it was drawn last.
    states: Vec<Option<(SlotId, u16)>>,
    sequence: Sequence,
}

/// The event of a turn.
fn event_of(did: Did) -> Event {
    match did {
        Did::Duty | Did::Handled { .. } => Event::Taken,
        Did::Deferred { .. } => Event::Deferred,
        Did::Unhandled { .. } => Event::Unhandled,
        Did::Stale { .. } | Did::Empty { .. } => Event::Discarded,
    }
}

/// The journeys of messages, none of which is drawn yet.
fn journeys_of<'a>(alloc: Global, messages: &[&'a Msg]) -> Result<Vec<Journey<'a>>, AllocError> {
    let mut journeys = Vec::new(alloc);
    for msg in messages {
        journeys.push(Journey {
            msg: *msg,
            row: None,
            is_open: true,
        })?;
    }
    Ok(journeys)
}

impl<'a, 'b> Drawing<'a, 'b> {
    pub fn of(
        alloc: Global,
        told: &'b Told<'a>,
        choice: &'b Choice<'a>,
    ) -> Result<Drawing<'a, 'b>, AllocError> {
        let journeys = journeys_of(alloc, choice.messages.as_slice())?;
        let mut sequence = Sequence::new(alloc);
        let columns = choice.cast.take_seats(&mut sequence, told.wiring)?;
        let states = vec![in alloc; None; sequence.lifelines.len()]?;
        Ok(Drawing {
            told,
            numbers: &choice.numbers,
            columns,
            journeys,
            states,
            sequence,
        })
    }

    /// What was drawn.
    pub fn into_sequence(self) -> Sequence {
        let Drawing { sequence, .. } = self;
        sequence
    }

    pub fn alloc(&self) -> Global {
        self.sequence.alloc
    }

    pub fn wiring(&self) -> &Wiring {
        self.told.wiring
    }

    pub fn is_full(&self) -> bool {
        self.sequence.rows.len() >= MOST_ROWS
    }

    fn add_row(&mut self, spot: Spot, text: Label) -> Result<usize, AllocError> {
        self.sequence.add_row(Row {
            is_beside: false,
            stamp: spot.stamp,
            lifeline: spot.lifeline,
            event: spot.event,
            text,
            lead: None,
        })
    }

    pub fn add_divider(&mut self, text: Label) -> Result<(), AllocError> {
        let spot = Spot {
            lifeline: 0,
            stamp: None,
            event: Event::Divider,
        };
        let _row = self.add_row(spot, text)?;
        Ok(())
    }

    /// Keeps the state of an actor on its lifeline; whether it isn't the one that was drawn last.
    fn keep_state(&mut self, lifeline: usize, slot: SlotId, state: u16) -> bool {
        match self.states.as_mut_slice().get_mut(lifeline) {
            Some(last) => {
                let is_new = *last != Some((slot, state));
                *last = Some((slot, state));
                is_new
            }
            None => false,
        }
    }

    /// Draws the state of an actor, where it isn't the one that was drawn last.
    fn add_state(&mut self, who: Incarnation, state: u16) -> Result<(), AllocError> {
        let Some(lifeline) = self.columns.of(who.slot) else {
            return Ok(());
        };
        if !self.keep_state(lifeline, who.slot, state) {
            return Ok(());
        }
        let spot = Spot {
            lifeline,
            stamp: None,
            event: Event::State,
        };
        if let Some(text) = state_label(self.alloc(), self.told.wiring, who.slot, state)? {
            let _row = self.add_row(spot, text)?;
        }
        Ok(())
    }

    /// Draws a note: where an actor comes up or goes down on its lifeline.
    fn add_note(
        &mut self,
        lifeline: usize,
        speaker: Option<SlotId>,
        note: &Note,
        said: Option<&Said>,
    ) -> Result<(), AllocError> {
        let spot = self.spot_of_note(lifeline, note, said);
        let text = note_label(self.alloc(), self.told.wiring, speaker, note, said)?;
        let _row = self.add_row(spot, text)?;
        match note {
            Note::Up { who, state } => self.add_state(*who, *state),
            _ => Ok(()),
        }
    }

    /// Where a note stands that was told at a lifeline.
    fn spot_of_note(&self, lifeline: usize, note: &Note, said: Option<&Said>) -> Spot {
        let own = match note {
            Note::Up { who, .. } | Note::Down { who, .. } => self.columns.at(who.slot),
            _ => None,
        };
        Spot {
            lifeline: own.unwrap_or(lifeline),
            stamp: None,
            event: if is_trouble_note(note, said) {
                Event::Trouble
            } else {
                Event::Note
            },
        }
    }

    /// Draws the notes of a start or a turn, as far as there is room.
    fn add_notes(
        &mut self,
        lifeline: usize,
        is_duty: bool,
        speaker: Option<SlotId>,
        notes: &[Note],
        said: &[Said],
    ) -> Result<(), AllocError> {
        let mut speaking = speaker;
        let mut sayings = Sayings::of(said);
        for note in notes {
            if self.is_full() {
                break;
            }
            self.add_note(lifeline, speaking, note, sayings.with(note))?;
            speaking = speaker_after(is_duty, speaking, *note);
        }
        Ok(())
    }

    fn add_start(&mut self, start: &Start<'_>) -> Result<(), AllocError> {
        let slot = start.who.slot;
        let Some(lifeline) = self.columns.of(slot) else {
            return Ok(());
        };
        self.add_state(start.who, start.state)?;
        self.add_notes(lifeline, false, Some(slot), start.notes, start.said)
    }

    /// Draws the starts that are wanted, those without notes beside each other.
    pub fn add_starts(&mut self, starts: &[Start<'_>]) -> Result<(), AllocError> {
        for start in starts {
            if self.told.wants_start(start) && !self.is_full() {
                self.add_start(start)?;
            }
        }
        self.sequence.join_states();
        Ok(())
    }

    /// When a message is posted.
    pub fn stamp_of(&self, number: usize) -> Option<u64> {
        match self.journeys.as_slice().get(number) {
            Some(journey) => Some(journey.msg.stamp.0),
            None => None,
        }
    }

    pub fn add_post(&mut self, number: usize) -> Result<(), AllocError> {
        let Some(journey) = self.journeys.as_slice().get(number) else {
            return Ok(());
        };
        let msg = journey.msg;
        let Some(lifeline) = self.columns.of_sender(msg.source) else {
            return Ok(());
        };
        let spot = Spot {
            lifeline,
            stamp: Some(msg.stamp.0),
            event: Event::Post,
        };
        let text = message_label(self.alloc(), self.told.wiring, msg)?;
        let row = self.add_row(spot, text)?;
        if let Some(journey) = self.journeys.as_mut_slice().get_mut(number) {
            journey.row = Some(row);
        }
        Ok(())
    }

    /// Draws the way of the message of a turn to the row of the turn.
    fn arrive(&mut self, turn: &Turn<'_>, row: usize, lifeline: usize) {
        let Some(number) = self.numbers.get(&turn.name()).copied() else {
            return;
        };
        let Some(journey) = self.journeys.as_mut_slice().get_mut(number) else {
            return;
        };
        let way = if journey.is_open {
            Way::Sent
        } else {
            Way::PutOff
        };
        if let Some(from) = journey.row {
            self.sequence.lead(from, Lead { row, lifeline, way });
        }
        let is_kept = matches!(turn.did, Did::Deferred { .. });
        journey.row = if is_kept { Some(row) } else { None };
        journey.is_open = false;
    }

    /// The lifeline on which a turn is drawn.
    fn lifeline_of(&self, turn: &Turn<'a>) -> Option<usize> {
        self.columns.of(turn.slot(&self.told.fetched)?)
    }

    /// Draws a turn without its notes, and the way of its message.
    fn add_turn_row(&mut self, turn: &Turn<'a>, lifeline: usize) -> Result<(), AllocError> {
        let spot = Spot {
            lifeline,
            stamp: Some(turn.stamp.0),
            event: event_of(turn.did),
        };
        let msg = self.told.fetched.get(turn.name());
        let text = turn_label(self.alloc(), self.told.wiring, turn, msg)?;
        let row = self.add_row(spot, text)?;
        self.arrive(turn, row, lifeline);
        Ok(())
    }

    /// Draws the state in which a turn leaves its actor.
    fn add_state_after(&mut self, did: Did) -> Result<(), AllocError> {
        match did {
            Did::Handled { who, state }
            | Did::Deferred { who, state }
            | Did::Unhandled { who, state } => self.add_state(who, state),
            Did::Duty | Did::Stale { .. } | Did::Empty { .. } => Ok(()),
        }
    }

    pub fn add_turn(&mut self, turn: &Turn<'a>) -> Result<(), AllocError> {
        let Some(lifeline) = self.lifeline_of(turn) else {
            return Ok(());
        };
        self.add_turn_row(turn, lifeline)?;
        self.add_state_after(turn.did)?;
        let is_duty = turn.did.is_duty();
        let speaker = turn.did.speaker();
        self.add_notes(lifeline, is_duty, speaker, turn.notes, turn.said)
    }

    /// Draws the ways of the messages that no turn took that is drawn.
    pub fn open_ways(&mut self) {
        for journey in self.journeys.as_slice() {
            let lifeline = self.columns.at(journey.msg.target.slot);
            if journey.is_open
                && let (Some(row), Some(lifeline)) = (journey.row, lifeline)
            {
                let way = Way::Open;
                self.sequence.lead(row, Lead { row, lifeline, way });
            }
        }
    }
}
