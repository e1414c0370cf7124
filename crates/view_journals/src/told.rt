//! What a run is told of, and what of it is wanted.
use crate::fetched::Fetched;
use crate::filter::Wanted;
use crate::lines::is_trouble;
use crate::notes::have_trouble;
use crate::redone::{Redone, Said, Sayings};
use crate::turns::{Turn, before_turn};
use crate::unheard::said_signal;
use journal::{Entry, Journals, Left, speaker_after};
use room_kinds::{Incarnation, Note, SlotId};
use room_wiring::Wiring;
use std::alloc::{AllocError, Global};

/// A run that is told, and what of it is wanted.
#[derive(Drop)]
pub struct Told<'a> {
    pub wiring: &'a Wiring,
    pub journals: &'a Journals,
    /// What the charts of the model do.
    pub redone: &'a Redone,
    pub fetched: Fetched<'a>,
    pub wanted: Wanted<'a>,
}

/// An actor that has started.
#[derive(Clone, Copy, Drop)]
pub struct Start<'a> {
    pub controller: usize,
    pub who: Incarnation,
    pub state: u16,
    pub notes: &'a [Note],
    /// What was said with the notes `unbound`, where it is known.
    pub said: &'a [Said],
    /// The entries among which are its posts.
    pub sends: &'a [Entry],
}

/// Whether an entry is no post of another slot's actors.
fn is_no_other(entry: &Entry, slot: SlotId) -> bool {
    match entry {
        Entry::Post { msg, .. } => match msg.source {
            Some(source) => source.slot == slot,
            None => false,
        },
        Entry::Start { .. } | Entry::Fetch { .. } | Entry::Turn { .. } => true,
    }
}

/// The place behind the entries from a place on up to the next post of another slot's actors.
fn end_of_posts(entries: &[Entry], start: usize, slot: SlotId) -> usize {
    let rest = entries.get(start..).unwrap_or(&[]);
    let count = rest
        .iter()
        .take_while(|entry| is_no_other(entry, slot))
        .count();
    start.saturating_add(count)
}

/// Adds the starts of a controller, each with what it sent: the posts of its slot that come next.
fn add_starts<'a>(
    starts: &mut Vec<Start<'a>>,
    sayings: &mut Sayings<'a>,
    controller: usize,
    entries: &'a [Entry],
) -> Result<(), AllocError> {
    let mut sent = 0usize;
    for entry in entries {
        if let Entry::Start { who, state, notes } = entry {
            let end = end_of_posts(entries, sent, who.slot);
            starts.push(Start {
                controller,
                who: *who,
                state: *state,
                notes: notes.as_slice(),
                said: sayings.with_all(notes.as_slice()),
                sends: entries.get(sent..end).unwrap_or(&[]),
            })?;
            sent = end;
        }
    }
    Ok(())
}

/// The starts of all controllers, in order of these, with what was said at them as far as it was done again.
pub fn starts_of<'a>(
    alloc: Global,
    journals: &'a Journals,
    redone: &'a Redone,
) -> Result<Vec<Start<'a>>, AllocError> {
    let mut starts = Vec::new(alloc);
    let mut sayings = Sayings::of(redone.at_starts.as_slice());
    for (controller, journal) in journals.controllers.as_slice().iter().enumerate() {
        let entries = before_turn(journal.as_slice());
        add_starts(&mut starts, &mut sayings, controller, entries)?;
    }
    Ok(starts)
}

impl<'a> Told<'a> {
    /// A run with these journals, what was done of it again, and what of it is wanted.
    pub fn of(
        alloc: Global,
        wiring: &'a Wiring,
        journals: &'a Journals,
        redone: &'a Redone,
        wanted: Wanted<'a>,
    ) -> Result<Told<'a>, AllocError> {
        Ok(Told {
            wiring,
            journals,
            redone,
            fetched: Fetched::of(alloc, journals)?,
            wanted,
        })
    }

    /// Whether one of the messages that entries post is wanted, or none needs to be.
    fn wants_some(&self, entries: &[Entry]) -> bool {
        self.wanted.wants_no_message()
            || entries.iter().any(|entry| match entry {
                Entry::Post { msg, .. } => self.wanted.wants_message(self.wiring, msg),
                _ => false,
            })
    }

    /// Whether what is said with one of the notes is wanted, where nobody hears it.
    fn wants_said(
        &self,
        is_duty: bool,
        speaker: Option<SlotId>,
        notes: &[Note],
        said: &[Said],
    ) -> bool {
        let mut sayings = Sayings::of(said);
        let mut speaking = speaker;
        for note in notes {
            if let (Some(slot), Some(one)) = (speaking, sayings.with(note))
                && self
                    .wanted
                    .wants_signal(said_signal(self.wiring, slot, one))
            {
                return true;
            }
            speaking = speaker_after(is_duty, speaking, *note);
        }
        false
    }

    /// Whether something that is said at a start is wanted, or nothing needs to be.
    fn wants_start_saying(&self, start: &Start<'_>) -> bool {
        let speaker = Some(start.who.slot);
        self.wants_some(start.sends) || self.wants_said(false, speaker, start.notes, start.said)
    }

    /// Whether something that is said in a turn is wanted, or nothing needs to be.
    fn wants_turn_saying(&self, turn: &Turn<'_>) -> bool {
        let is_duty = turn.did.is_duty();
        self.wants_some(turn.behind)
            || self.wants_said(is_duty, turn.did.speaker(), turn.notes, turn.said)
    }

    /// Whether a start is wanted.
    pub fn wants_start(&self, start: &Start<'_>) -> bool {
        self.wanted.wants_starts()
            && self.wanted.wants_slot(Some(start.who.slot))
            && self
                .wanted
                .wants_trouble(have_trouble(start.notes, start.said))
            && self.wants_start_saying(start)
    }

    /// Whether a turn is wanted.
    pub fn wants_turn(&self, turn: &Turn<'_>) -> bool {
        let has_message = match self.fetched.get(turn.name()) {
            Some(msg) => self.wanted.wants_message(self.wiring, msg),
            None => false,
        };
        self.wanted.wants_stamp(turn.stamp.0)
            && self.wanted.wants_did(turn.did)
            && self.wanted.wants_slot(turn.slot(&self.fetched))
            && self.wanted.wants_trouble(is_trouble(turn))
            && (has_message || self.wants_turn_saying(turn))
    }

    /// Whether a message that no turn took is wanted.
    pub fn wants_left(&self, left: &Left) -> bool {
        self.wanted.wants_end()
            && self.wanted.wants_slot(Some(left.msg.target.slot))
            && self.wanted.wants_message(self.wiring, &left.msg)
    }

    /// Whether the lines are wanted that were not posted.
    pub fn wants_unposted(&self) -> bool {
        self.wanted.wants_end() && self.wanted.actor.is_none() && self.wanted.wants_no_message()
    }
}
