//! What is told of faults that journals show by themselves: stamps that don't rise, starts, too many turns,
//! and turns that came too early.
use crate::judged::entries_of;
use crate::places::{Part, Spot};
use crate::reached::stamp_of;
use crate::sheet::{Sheet, Sources};
use journal::{Entry, Journal};
use room_kinds::{ControllerId, Msg, Priority};
use std::alloc::AllocError;
use view_pages::Page;

/// After so many fetches at a priority a turn may be taken, whatever else is on its way.
const QUOTA: usize = 64;

fn is_start(entry: &Entry) -> bool {
    matches!(entry, Entry::Start { .. })
}

fn is_turn(entry: &Entry) -> bool {
    matches!(entry, Entry::Turn { .. })
}

/// Two entries: one whose stamp isn't above that of the other, which stands before it.
fn first_unrisen(entries: &[Entry]) -> Option<(usize, usize)> {
    let mut last: Option<(usize, u64)> = None;
    for (at, entry) in entries.iter().enumerate() {
        if is_start(entry) {
            continue;
        }
        let stamp = stamp_of(entry);
        if let Some((before, least)) = last
            && stamp <= least
        {
            return Some((before, at));
        }
        last = Some((at, stamp));
    }
    None
}

/// The first place at which a journal doesn't have the entries of its start, or has one more.
fn first_unlike(entries: &[Entry], starts: &[Entry]) -> Option<usize> {
    for (at, start) in starts.iter().enumerate() {
        let is_like = match entries.get(at) {
            Some(entry) => entry.is_same(start),
            None => false,
        };
        if !is_like {
            return Some(at);
        }
    }
    let behind = entries.get(starts.len()..).unwrap_or(&[]);
    let more = behind.iter().position(|entry| is_start(entry))?;
    Some(starts.len().saturating_add(more))
}

/// The place of the turn of a number, from 0.
fn turn_of_number(entries: &[Entry], number: u64) -> Option<usize> {
    let mut left = number;
    for (at, entry) in entries.iter().enumerate() {
        if is_turn(entry) {
            if left == 0 {
                return Some(at);
            }
            left = left.saturating_sub(1);
        }
    }
    None
}

/// Whether an entry fetches this message.
fn fetches(entry: &Entry, wanted: &Msg) -> bool {
    match entry {
        Entry::Fetch { msg, .. } => msg.from == wanted.from && msg.stamp == wanted.stamp,
        _ => false,
    }
}

/// Whether an entry fetches at a priority.
fn fetches_at(entry: &Entry, prio: Priority) -> bool {
    match entry {
        Entry::Fetch { msg, .. } => msg.prio == prio,
        _ => false,
    }
}

/// How many messages of a priority were fetched since the last turn.
fn since_turn(entries: &[Entry], prio: Priority) -> usize {
    let behind = match entries.iter().rposition(|entry| is_turn(entry)) {
        Some(turn) => entries.get(turn..).unwrap_or(&[]),
        None => entries,
    };
    behind
        .iter()
        .filter(|entry| fetches_at(entry, prio))
        .count()
}

/// The priority of a message that a controller posts to itself, and doesn't fetch among the entries behind.
fn open_priority(entry: &Entry, party: usize, behind: &[Entry]) -> Option<Priority> {
    match entry {
        Entry::Post { msg, .. }
            if usize::from(msg.to.0) == party && !behind.iter().any(|other| fetches(other, msg)) =>
            { Some(msg.prio) }
        _ => None,
    }
}

/// The place of the last post of a controller to itself that isn't fetched among these entries, at a
/// priority of which it has not fetched so many that it may take a turn.
fn open_post(entries: &[Entry], party: usize) -> Option<usize> {
    for (at, entry) in entries.iter().enumerate().rev() {
        let behind = entries.get(at..).unwrap_or(&[]);
        if let Some(prio) = open_priority(entry, party, behind)
            && since_turn(entries, prio) < QUOTA
        {
            return Some(at);
        }
    }
    None
}

impl<'a> Sheet<'a> {
    /// Tells where the stamps of a party don't rise.
    pub(crate) fn tell_order(self, page: &mut Page, party: usize) -> Result<(), AllocError> {
        let Some((before, at)) = first_unrisen(entries_of(self.journals, party)) else {
            self.show(page, Part::Head(party));
            return Ok(());
        };
        self.show(page, Part::Entry(Spot { party, at }));
        self.say(page, b"its stamp isn't above that of the entry before it");
        let mut sources = Sources::new(self.alloc);
        let spot = Spot { party, at: before };
        sources.add(Some(spot), b"this is the entry before")?;
        self.tell_sources(page, &sources);
        Ok(())
    }

    /// Tells where a journal doesn't begin with the lines of its start.
    pub(crate) fn tell_start(self, page: &mut Page, party: usize, starts: &[Journal]) {
        let entries = entries_of(self.journals, party);
        let starts = match starts.get(party) {
            Some(start) => start.as_slice(),
            None => &[],
        };
        let at = first_unlike(entries, starts).unwrap_or(0);
        if at < entries.len() {
            self.show(page, Part::Entry(Spot { party, at }));
        } else {
            self.show(page, Part::Head(party));
        }
        match starts.get(at) {
            Some(start) => self.say_entry(page, b"here would stand", start),
            None => self.say(page, b"behind the lines of the start no actor starts"),
        }
    }

    /// Tells the first turn for which a controller had no fuel.
    pub(crate) fn tell_fuel(self, page: &mut Page, party: usize) {
        let entries = entries_of(self.journals, party);
        let Some(at) = turn_of_number(entries, self.fuel) else {
            self.show(page, Part::Head(party));
            return;
        };
        self.show(page, Part::Entry(Spot { party, at }));
        page.put(b"    this is the controller's turn ");
        page.put_number(self.fuel.saturating_add(1));
        page.put(b", and the fuel allows ");
        page.put_number(self.fuel);
        page.end_line();
    }

    /// Tells what a controller had sent itself and not fetched when it took a turn.
    pub(crate) fn tell_prompt(
        self,
        page: &mut Page,
        c: ControllerId,
        stamp: u64,
    ) -> Result<(), AllocError> {
        let party = usize::from(c.0);
        let entries = entries_of(self.journals, party);
        let Some(at) = entries
            .iter()
            .position(|entry| is_turn(entry) && stamp_of(entry) == stamp)
        else {
            self.show(page, Part::Head(party));
            return Ok(());
        };
        self.show(page, Part::Entry(Spot { party, at }));
        self.say(
            page,
            b"what the controller sent itself is fetched before the next turn",
        );
        let before = entries.get(..at).unwrap_or(&[]);
        let mut sources = Sources::new(self.alloc);
        if let Some(post) = open_post(before, party) {
            let spot = Spot { party, at: post };
            sources.add(Some(spot), b"this message was not fetched")?;
        }
        self.tell_sources(page, &sources);
        Ok(())
    }
}
