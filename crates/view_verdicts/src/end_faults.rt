//! What is told where a run hasn't ended as the text says.
ghost use Rattle.inject_reader.specs.Fitting.{LinesFit};

use crate::earlier::Front;
use crate::entry_faults::made_follows;
use crate::judged::{entries_of, turns_in};
use crate::open_events::{Event, first_open, open_at};
use crate::places::Part;
use crate::reached::{Reached, Stop, reach};
use crate::refused::{Made, asks, happens, lines_ahead, next_line};
use crate::sheet::{Sheet, Sources};
use crate::words::put_name_of;
use controller_actors::Plant;
use inject_reader::Line;
use journal::Journals;
use room_kinds::ControllerId;
use room_verify::Replay;
use std::alloc::{AllocError, Global};
use view_pages::Page;

/// Why a run hasn't ended as the text says.
#[derive(Clone, Copy)]
pub(crate) enum Open {
    /// A controller hasn't posted all that it sent.
    Unsent(ControllerId),
    /// It says `done`, and not all is quiet.
    NotQuiet,
    /// It says `done`, and tells messages that are left, or lines that weren't posted.
    Told,
    /// It says `done`, and a line wasn't posted.
    LineLeft,
    /// It says `spent`, and all is quiet.
    Quiet,
    /// It says `spent`, and this controller, which has a message, took no more turns than these.
    HasFuel(ControllerId, u64),
    /// It says `spent`, and a line is posted before the run is stopped.
    InPart,
    /// The lines that weren't posted are others; the number of the one that stands in this place, if one
    /// does.
    Unposted(usize, Option<u32>),
}

/// Why a run hasn't ended, what could happen next, how many entries of each party there are, and the number
/// of the line that the environment posts next.
#[derive(Drop)]
pub(crate) struct Unended {
    open: Open,
    made: Option<Made>,
    passed: Vec<usize>,
    line: Option<u32>,
}

/// What could go on: an event of a controller, or else a post of the environment; nothing where none is
/// asked for.
#[derive(Clone, Copy)]
struct GoesOn {
    open: Open,
    event: Option<(ControllerId, Event)>,
    asks: bool,
}

impl GoesOn {
    /// Nothing could.
    fn nothing(open: Open) -> GoesOn {
        GoesOn {
            open,
            event: None,
            asks: false,
        }
    }

    /// The environment's next post.
    fn post(open: Open) -> GoesOn {
        GoesOn {
            open,
            event: None,
            asks: true,
        }
    }

    /// An event of a controller.
    fn event(open: Open, c: ControllerId, event: Event) -> GoesOn {
        GoesOn {
            open,
            event: Some((c, event)),
            asks: true,
        }
    }
}

/// The lowest controller that hasn't posted all that it sent.
fn first_unsent(replay: &Replay, controllers: u8) -> Option<ControllerId> {
    for number in 0..controllers {
        if replay.has_outbox(ControllerId(number)) {
            return Some(ControllerId(number));
        }
    }
    None
}

/// The lowest controller that has a message and took fewer turns than the fuel, its turns, and what it
/// could do.
fn first_with_fuel(
    replay: &Replay,
    controllers: u8,
    journals: &Journals,
    fuel: u64,
) -> Option<(ControllerId, u64, Event)> {
    for number in 0..controllers {
        let c = ControllerId(number);
        let turns = turns_in(entries_of(journals, usize::from(number)));
        if turns < fuel
            && let Some(event) = open_at(replay, controllers, c)
        {
            return Some((c, turns, event));
        }
    }
    None
}

/// The first place at which other lines are told as not posted than these, and the number of the one of
/// these.
fn first_unlike(told: &[u32], lines: &[Line]) -> (usize, Option<u32>) {
    let count = told
        .iter()
        .zip(lines)
        .take_while(|both| *both.0 == both.1.number)
        .count();
    match lines.get(count) {
        Some(line) => (count, Some(line.number)),
        None => (count, None),
    }
}

/// Why a run isn't done that says so.
fn why_not_done(replay: &Replay, controllers: u8, journals: &Journals) -> GoesOn {
    if let Some((c, event)) = first_open(replay, controllers) {
        return GoesOn::event(Open::NotQuiet, c, event);
    }
    if !journals.left.is_empty() || !journals.unposted.is_empty() {
        return GoesOn::nothing(Open::Told);
    }
    GoesOn::post(Open::LineLeft)
}

/// Why a run isn't stopped by its fuel that says so.
fn why_not_spent(
    replay: &Replay,
    controllers: u8,
    lines: &[Line],
    journals: &Journals,
    fuel: u64,
) -> GoesOn {
    if first_open(replay, controllers).is_none() {
        return if next_line(replay, lines).is_some() {
            GoesOn::post(Open::Quiet)
        } else {
            GoesOn::nothing(Open::Quiet)
        };
    }
    if let Some((c, turns, event)) = first_with_fuel(replay, controllers, journals, fuel) {
        return GoesOn::event(Open::HasFuel(c, turns), c, event);
    }
    let ahead = lines_ahead(replay, lines);
    match ahead.first() {
        Some(line) if asks(line) => GoesOn::post(Open::InPart),
        _ => {
            let (at, number) = first_unlike(journals.unposted.as_slice(), ahead);
            GoesOn::nothing(Open::Unposted(at, number))
        }
    }
}

/// Why a run hasn't ended as the text says, where its merge leads to a replay.
fn why_not_ended(
    replay: &Replay,
    controllers: u8,
    lines: &[Line],
    journals: &Journals,
    fuel: u64,
) -> GoesOn {
    if let Some(c) = first_unsent(replay, controllers) {
        return GoesOn::event(Open::Unsent(c), c, Event::Post);
    }
    if journals.done {
        why_not_done(replay, controllers, journals)
    } else {
        why_not_spent(replay, controllers, lines, journals, fuel)
    }
}

/// Why the run of journals hasn't ended as they say; none where an entry is refused.
pub(crate) fn end_fault(
    alloc: Global,
    plant: &Plant,
    lines: &[Line],
    journals: &Journals,
    fuel: u64,
) -> Result<Option<Unended>, AllocError>
    requires fit { LinesFit plant.now.wiring lines.now }
{
    let Some(reached) = reach(alloc, plant, lines, journals, Stop::End)? else {
        return Ok(None);
    };
    let controllers = plant.wiring.controller_count();
    let Reached { replay, passed } = reached;
    let goes_on = why_not_ended(&replay, controllers, lines, journals, fuel);
    let line = next_line(&replay, lines);
    let made = if goes_on.asks {
        happens(alloc, plant, lines, replay, goes_on.event)?
    } else {
        None
    };
    Ok(Some(Unended {
        open: goes_on.open,
        made,
        passed,
        line,
    }))
}

impl<'a> Sheet<'a> {
    /// The part of the text that shows that a run hasn't ended so.
    fn part_of(self, open: Open) -> Part {
        let told = self.journals.unposted.len();
        match open {
            Open::Told if self.journals.left.is_empty() => Part::Unposted(0),
            Open::Told => Part::Left(0),
            Open::Unposted(at, _) if at < told => Part::Unposted(at),
            _ => Part::End,
        }
    }

    /// Which lines would be told as not posted.
    fn say_unposted(self, page: &mut Page, number: Option<u32>) {
        match number {
            Some(number) => {
                page.put(b"    here would stand: unposted ");
                page.put_number(u64::from(number));
                page.end_line();
            }
            None => self.say(page, b"all lines behind are told"),
        }
    }

    /// That a controller has fuel left.
    fn say_fuel(self, page: &mut Page, c: ControllerId, turns: u64) {
        page.put(b"    ");
        put_name_of(page, self.wiring, usize::from(c.0));
        page.put(b" has a message, and took ");
        page.put_number(turns);
        page.put(b" of the ");
        page.put_number(self.fuel);
        page.put_line(b" turns that the fuel allows");
    }

    /// Why a run hasn't ended so.
    fn say_open(self, page: &mut Page, open: Open) {
        match open {
            Open::Unsent(c) => {
                page.put(b"    ");
                put_name_of(page, self.wiring, usize::from(c.0));
                page.put_line(b" hasn't posted all that it sent");
            }
            Open::NotQuiet => self.say(page, b"not all is quiet, so the run isn't done"),
            Open::Told => self.say(
                page,
                b"where a run is done nothing is left, and all lines are posted",
            ),
            Open::LineLeft => self.say(page, b"a line isn't posted, so the run isn't done"),
            Open::Quiet => self.say(page, b"all is quiet, so no fuel has ended the run"),
            Open::HasFuel(c, turns) => self.say_fuel(page, c, turns),
            Open::InPart => self.say(page, b"the lines up to the next `settle` are posted before"),
            Open::Unposted(_, number) => self.say_unposted(page, number),
        }
    }

    /// Tells why a run hasn't ended as the text says.
    pub(crate) fn tell_unended(self, page: &mut Page, unended: &Unended) -> Result<(), AllocError> {
        self.show(page, self.part_of(unended.open));
        self.say_open(page, unended.open);
        let Some(made) = &unended.made else {
            return Ok(());
        };
        self.say_made(page, b"there could happen", made, usize::MAX);
        let front = Front {
            journals: self.journals,
            passed: unended.passed.as_slice(),
        };
        let mut sources = Sources::new(self.alloc);
        made_follows(&mut sources, front, made, unended.line)?;
        self.tell_sources(page, &sources);
        Ok(())
    }
}
