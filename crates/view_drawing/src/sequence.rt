//! A run before it is drawn: lifelines side by side, what happens on them in rows below one another, and what leads
//! from one row to a later one.
use crate::plain::Label;
use std::alloc::{AllocError, Global};

/// Lifelines that stand side by side under a title.
#[derive(Drop)]
pub struct Group {
    pub title: Vec<u8>,
    /// The number of its colour.
    pub colour: Option<u8>,
}

/// The line of something that takes part in a run.
#[derive(Drop)]
pub struct Lifeline {
    pub title: Vec<u8>,
    /// The number of its group.
    pub group: usize,
}

/// What happens in a row.
#[derive(Clone, Copy, PartialEq, Eq)]
pub enum Event {
    /// A message begins its way.
    Post,
    /// A message is treated.
    Taken,
    /// A message is put off.
    Deferred,
    /// A message finds nothing that takes it.
    Unhandled,
    /// A message finds nobody.
    Discarded,
    /// A lifeline comes into a state, whose name is the text.
    State,
    /// Something that was meant.
    Note,
    /// Something that hardly was meant.
    Trouble,
    /// A line of text over all lifelines.
    Divider,
}

/// How a message goes from one row to another one.
#[derive(Clone, Copy, PartialEq, Eq)]
pub enum Way {
    /// From its post to its turn.
    Sent,
    /// From where it was put off to its next turn.
    PutOff,
    /// To a lifeline on which its turn isn't drawn.
    Open,
}

/// The row and the lifeline to which a message goes.
#[derive(Clone, Copy)]
pub struct Lead {
    pub row: usize,
    pub lifeline: usize,
    pub way: Way,
}

/// What happens on a lifeline.
#[derive(Drop)]
pub struct Row {
    /// Whether it stands beside the row before, and not below it.
    pub is_beside: bool,
    /// When it happens by the clock of its group; none where that is the time of the row before.
    pub stamp: Option<u64>,
    pub lifeline: usize,
    pub event: Event,
    pub text: Label,
    pub lead: Option<Lead>,
}

/// A run before it is drawn.
#[derive(Drop)]
pub struct Sequence {
    pub alloc: Global,
    /// What stands above the picture.
    pub title: Vec<u8>,
    pub groups: Vec<Group>,
    /// The lifelines, those of one group side by side.
    pub lifelines: Vec<Lifeline>,
    pub rows: Vec<Row>,
}

impl Sequence {
    /// A run in which nothing happens, without a title.
    pub fn new(alloc: Global) -> Sequence {
        Sequence {
            alloc,
            title: Vec::new(alloc),
            groups: Vec::new(alloc),
            lifelines: Vec::new(alloc),
            rows: Vec::new(alloc),
        }
    }

    /// Adds a row behind all others, and gives its number.
    pub fn add_row(&mut self, row: Row) -> Result<usize, AllocError> {
        let number = self.rows.len();
        self.rows.push(row)?;
        Ok(number)
    }

    /// Says where the message of a row goes.
    pub fn lead(&mut self, row: usize, lead: Lead) {
        if let Some(row) = self.rows.as_mut_slice().get_mut(row) {
            row.lead = Some(lead);
        }
    }

    /// Puts states that follow one another beside each other, so long as each has a lifeline of its own.
    pub fn join_states(&mut self) {
        let mut follows = None;
        for row in self.rows.as_mut_slice() {
            if row.event != Event::State {
                follows = None;
                continue;
            }
            row.is_beside = match follows {
                Some(lifeline) => lifeline != row.lifeline,
                None => false,
            };
            follows = Some(row.lifeline);
        }
    }

    /// The colour of the group of a lifeline.
    pub fn colour_of(&self, lifeline: &Lifeline) -> Option<u8> {
        match self.groups.as_slice().get(lifeline.group) {
            Some(group) => group.colour,
            None => None,
        }
    }
}
