//! When the environment posted in virtual time, and for which lines of the injections: the lines are gone along as a run
//! goes along them (docs/INJECTIONS.md, Time).
use crate::injected::{Line, Says, lines_of};
use journal::{Entry, Journals};
use room_kinds::ControllerId;
use room_timer::TimerTable;
use room_wiring::Wiring;
use std::alloc::{AllocError, Global};

/// The latest time to which a table of timers goes.
const LATEST: u64 = 4_611_686_018_427_387_904;

/// The line of the injections for which the environment posted a message, and the virtual time then.
#[derive(Clone, Copy, Drop)]
pub struct Dated<'a> {
    pub line: Line<'a>,
    pub time: u64,
    /// Whether it is a timeout on the way of an `advance`, and not the message of a line.
    pub is_timeout: bool,
}

/// Where an entry stands among those of all parties: by stamp, and at one stamp the environment last.
#[derive(Clone, Copy, Drop, PartialEq, Eq, PartialOrd, Ord)]
struct Place {
    stamp: u64,
    party: u8,
    entry: usize,
}

/// The stamp of an entry that may change timers, or is the environment's; none of a start and of a fetch.
fn stamp_of(entry: &Entry) -> Option<u64> {
    match entry {
        Entry::Post { stamp, .. } | Entry::Turn { stamp, .. } => Some(stamp.0),
        Entry::Start { .. } | Entry::Fetch { .. } => None,
    }
}

/// Adds the places of the entries of a party.
fn add_places(places: &mut Vec<Place>, party: u8, entries: &[Entry]) -> Result<(), AllocError> {
    for (entry, step) in entries.iter().enumerate() {
        if let Some(stamp) = stamp_of(step) {
            places.push(Place {
                stamp,
                party,
                entry,
            })?;
        }
    }
    Ok(())
}

/// The places of the entries of all parties, in order.
fn places_of(
    alloc: Global,
    wiring: &Wiring,
    journals: &Journals,
) -> Result<Vec<Place>, AllocError> {
    let mut places = Vec::new(alloc);
    for (number, journal) in journals.controllers.as_slice().iter().enumerate() {
        if let Ok(party) = u8::try_from(number) {
            add_places(&mut places, party, journal.as_slice())?;
        }
    }
    let environment = journals.environment.as_slice();
    add_places(&mut places, wiring.controller_count(), environment)?;
    places.sort()?;
    Ok(places)
}

/// A walk along the lines: the entries that the timers haven't seen, how many of the environment's posts stand before them,
/// and what is known of the posts for the lines so far.
#[derive(Drop)]
struct Walk<'a, 'b> {
    alloc: Global,
    wiring: &'b Wiring,
    journals: &'b Journals,
    ahead: &'b [Place],
    passed: usize,
    table: TimerTable,
    dated: Vec<Dated<'a>>,
}

impl<'a, 'b> Walk<'a, 'b> {
    /// The timers see the entry of a controller at a place.
    fn see(&mut self, place: Place) -> Result<(), AllocError> {
        let journals = self.journals;
        let Some(journal) = journals
            .controllers
            .as_slice()
            .get(usize::from(place.party))
        else {
            return Ok(());
        };
        match journal.as_slice().get(place.entry) {
            Some(entry) => self
                .table
                .see(self.wiring, ControllerId(place.party), entry),
            None => Ok(()),
        }
    }

    /// The timers see all that stands before the environment's next post behind those for the lines so far.
    fn catch_up(&mut self) -> Result<(), AllocError> {
        let ahead = self.ahead;
        let mut count = 0usize;
        for place in ahead {
            if place.party < self.wiring.controller_count() {
                self.see(*place)?;
            } else if self.passed < self.dated.len() {
                self.passed = self.passed.saturating_add(1);
            } else {
                break;
            }
            count = count.saturating_add(1);
        }
        self.ahead = ahead.get(count..).unwrap_or(&[]);
        Ok(())
    }

    /// The environment posts for a line, at the time that it is.
    fn post(&mut self, line: Line<'a>, is_timeout: bool) -> Result<(), AllocError> {
        let time = self.table.time();
        self.dated.push(Dated {
            line,
            time,
            is_timeout,
        })?;
        Ok(())
    }

    /// The next moment on the way to a time; says whether there was one.
    fn go_on(&mut self, line: Line<'a>, until: u64) -> Result<bool, AllocError> {
        self.catch_up()?;
        if self.table.time() > until || until > LATEST {
            return Ok(false);
        }
        let Some(moment) = self.table.next(self.alloc, 0, until)? else {
            return Ok(false);
        };
        for _timeout in moment.as_slice() {
            self.post(line, true)?;
        }
        Ok(true)
    }

    /// The time moves on by so much for a line.
    fn advance(&mut self, line: Line<'a>, by: u64) -> Result<(), AllocError> {
        let until = self.table.time().saturating_add(by);
        for _post in 0..self.journals.environment.as_slice().len() {
            if !self.go_on(line, until)? {
                return Ok(());
            }
        }
        let _ = self.go_on(line, until)?;
        Ok(())
    }
}

/// For each post of the environment in order its line, and the virtual time then; of posts for which the lines have none,
/// nothing.
pub fn dated_posts<'a>(
    alloc: Global,
    wiring: &Wiring,
    journals: &Journals,
    text: &'a [u8],
) -> Result<Vec<Dated<'a>>, AllocError> {
    let places = places_of(alloc, wiring, journals)?;
    let mut walk = Walk {
        alloc,
        wiring,
        journals,
        ahead: places.as_slice(),
        passed: 0,
        table: TimerTable::new(alloc),
        dated: Vec::new(alloc),
    };
    let lines = lines_of(alloc, text)?;
    for spoken in lines.as_slice() {
        match spoken.says {
            Says::Nothing => (),
            Says::Message => walk.post(spoken.line, false)?,
            Says::Advance(by) => walk.advance(spoken.line, by)?,
        }
    }
    let Walk { dated, .. } = walk;
    Ok(dated)
}
