//! Why an entry is refused where it stands, and what happens there.
ghost use Rattle.std.specs.Prelude.{IfOk};
ghost use Rattle.inject_reader.specs.Fitting.{LinesFit};
ghost use Rattle.room_verify.specs.Worlds.{Replays};

use crate::judged::{entries_of, party_id};
use crate::open_events::{Event, entry_for, first_open, has_waiting, open_at};
use crate::places::Spot;
use crate::reached::{Reached, Stop, reach};
use controller_actors::Plant;
use inject_reader::{Line, What};
use journal::{Entry, Journals};
use room_kinds::ControllerId;
use room_verify::Replay;
use std::alloc::{AllocError, Global};

/// Why an entry is refused.
#[derive(Clone, Copy, PartialEq, Eq)]
pub(crate) enum Why {
    /// What it names happens, and makes another entry.
    Other,
    /// It fetches, and its lane is empty.
    EmptyLane,
    /// It takes a turn, and a message waits to be posted.
    Unposted,
    /// It takes a turn, and no message waits for one.
    NothingWaits,
    /// It posts, and nothing waits to be posted.
    NothingToPost,
    /// The environment posts, and all its lines are posted.
    AllPosted,
    /// The environment posts a line behind a `settle`, and not all is quiet.
    NotQuiet,
}

/// What happens at a party.
#[derive(Drop)]
pub(crate) struct Made {
    pub party: usize,
    pub entry: Entry,
}

/// Why an entry is refused, what happens there or could, how many entries of each party stand before it,
/// and the number of the line that the environment posts next.
#[derive(Drop)]
pub(crate) struct Refused {
    pub why: Why,
    pub made: Option<Made>,
    pub passed: Vec<usize>,
    pub line: Option<u32>,
}

/// An event of a party, which a replay lets happen.
#[derive(Clone, Copy)]
struct Next {
    party: usize,
    event: Event,
}

/// Whether a line asks for a message.
pub(crate) fn asks(line: &Line) -> bool {
    matches!(line.what, What::Message { .. })
}

/// The lines before which the environment of a replay stands.
pub(crate) fn lines_ahead<'l>(replay: &Replay, lines: &'l [Line]) -> &'l [Line] {
    lines.get(replay.lines_passed()..).unwrap_or(&[])
}

/// The number of the line that the environment posts next.
pub(crate) fn next_line(replay: &Replay, lines: &[Line]) -> Option<u32> {
    for line in lines_ahead(replay, lines) {
        if asks(line) {
            return Some(line.number);
        }
    }
    None
}

/// Why the environment can't post its next line, if it can't.
fn why_not_posted(replay: &Replay, lines: &[Line], controllers: u8) -> Why {
    let ahead = lines_ahead(replay, lines);
    match ahead.iter().position(|line| asks(line)) {
        None => Why::AllPosted,
        Some(0) => Why::Other,
        Some(_) if first_open(replay, controllers).is_some() => Why::NotQuiet,
        Some(_) => Why::Other,
    }
}

/// Why an entry of a controller can't happen, if it can't.
fn why_not_happened(replay: &Replay, c: ControllerId, entry: &Entry) -> Why {
    match entry {
        Entry::Start { .. } => Why::Other,
        Entry::Fetch { msg, .. } => match replay.on_its_way(msg.from, c, msg.prio, 0) {
            Some(_) => Why::Other,
            None => Why::EmptyLane,
        },
        Entry::Turn { .. } if replay.has_outbox(c) => Why::Unposted,
        Entry::Turn { .. } if has_waiting(replay, c) => Why::Other,
        Entry::Turn { .. } => Why::NothingWaits,
        Entry::Post { .. } if replay.has_outbox(c) => Why::Other,
        Entry::Post { .. } => Why::NothingToPost,
    }
}

/// The event of an entry.
fn event_of(entry: &Entry) -> Event {
    match entry {
        Entry::Fetch { msg, .. } => Event::Fetch(msg.from, msg.prio),
        Entry::Turn { .. } => Event::Turn,
        Entry::Start { .. } | Entry::Post { .. } => Event::Post,
    }
}

/// What is let happen where an entry of a party is refused: its own event, or else what can happen there.
fn next_where(
    replay: &Replay,
    controllers: u8,
    party: usize,
    entry: &Entry,
    why: Why,
) -> Option<Next> {
    if why == Why::Other {
        return Some(Next {
            party,
            event: event_of(entry),
        });
    }
    if party < usize::from(controllers) {
        let event = open_at(replay, controllers, party_id(party))?;
        return Some(Next { party, event });
    }
    let (c, event) = first_open(replay, controllers)?;
    Some(Next {
        party: usize::from(c.0),
        event,
    })
}

/// What happens at a party of a replay, by an event.
fn made_by(
    alloc: Global,
    plant: &Plant,
    lines: &[Line],
    mut replay: Replay,
    next: Next,
) -> Result<Option<Made>, AllocError>
    requires replays { Replays plant.now lines.now replay }
    requires fit { LinesFit plant.now.wiring lines.now }
{
    let asked = entry_for(alloc, next.event);
    let made = replay.happen(plant, lines, party_id(next.party), &asked)?;
    Ok(match made {
        Some(entry) => Some(Made {
            party: next.party,
            entry,
        }),
        None => None,
    })
}

/// The same, if there is an event.
fn made_if_any(
    alloc: Global,
    plant: &Plant,
    lines: &[Line],
    replay: Replay,
    next: Option<Next>,
) -> Result<Option<Made>, AllocError>
    requires replays { Replays plant.now lines.now replay }
    requires fit { LinesFit plant.now.wiring lines.now }
{
    match next {
        Some(next) => made_by(alloc, plant, lines, replay, next),
        None => Ok(None),
    }
}

/// What the environment posts next, or what happens by an event of a controller.
pub(crate) fn happens(
    alloc: Global,
    plant: &Plant,
    lines: &[Line],
    replay: Replay,
    next: Option<(ControllerId, Event)>,
) -> Result<Option<Made>, AllocError>
    requires replays { Replays plant.now lines.now replay }
    requires fit { LinesFit plant.now.wiring lines.now }
{
    let next = match next {
        Some((c, event)) => Next {
            party: usize::from(c.0),
            event,
        },
        None => Next {
            party: usize::from(plant.wiring.controller_count()),
            event: Event::Post,
        },
    };
    made_by(alloc, plant, lines, replay, next)
}

/// Why the entry at a place is refused that a replay comes to next.
fn why_refused(
    replay: &Replay,
    lines: &[Line],
    controllers: u8,
    party: usize,
    entry: &Entry,
) -> Why {
    if party < usize::from(controllers) {
        why_not_happened(replay, party_id(party), entry)
    } else {
        why_not_posted(replay, lines, controllers)
    }
}

/// Why an entry is refused to which a replay has come.
fn refused_at(
    alloc: Global,
    plant: &Plant,
    lines: &[Line],
    reached: Reached,
    party: usize,
    entry: &Entry,
) -> Result<Refused, AllocError>
    requires replays { Replays plant.now lines.now reached.replay }
    requires fit { LinesFit plant.now.wiring lines.now }
{
    let controllers = plant.wiring.controller_count();
    let Reached { replay, passed } = reached;
    let why = why_refused(&replay, lines, controllers, party, entry);
    let line = next_line(&replay, lines);
    let next = next_where(&replay, controllers, party, entry, why);
    let made = made_if_any(alloc, plant, lines, replay, next)?;
    Ok(Refused {
        why,
        made,
        passed,
        line,
    })
}

/// Why the entry at a place of journals is refused; none where it isn't the first that is.
pub(crate) fn first_refused(
    alloc: Global,
    plant: &Plant,
    lines: &[Line],
    journals: &Journals,
    spot: Spot,
) -> Result<Option<Refused>, AllocError>
    requires fit { LinesFit plant.now.wiring lines.now }
{
    let Some(entry) = entries_of(journals, spot.party).get(spot.at) else {
        return Ok(None);
    };
    match reach(alloc, plant, lines, journals, Stop::Before(spot))? {
        Some(reached) => Ok(Some(refused_at(alloc, plant, lines, reached, spot.party, entry)?)),
        None => Ok(None),
    }
}
