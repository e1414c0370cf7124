//! What is told of the first entry that is refused.
use crate::earlier::{Front, post_anywhere};
use crate::judged::entries_of;
use crate::places::{Part, Spot};
use crate::reached::stamp_of;
use crate::refused::{Made, Refused, Why};
use crate::sheet::{Sheet, Sources};
use crate::words::{priority_word, put_name_of};
use journal::{Did, Entry};
use room_kinds::{ControllerId, Incarnation, Msg, Stamp};
use std::alloc::AllocError;
use view_pages::Page;

/// What a turn is about: its message, and its actor where it has one.
fn actor_of(did: Did) -> Option<Incarnation> {
    match did {
        Did::Handled { who, .. } | Did::Deferred { who, .. } | Did::Unhandled { who, .. } => Some(
            who,
        ),
        Did::Stale { target } | Did::Empty { target } => Some(target),
        Did::Duty => None,
    }
}

/// From what a turn follows that is taken: from the fetch of its message, and from how its actor stood.
fn turn_follows(
    sources: &mut Sources,
    front: Front<'_>,
    party: usize,
    name: (ControllerId, Stamp),
    did: Did,
) -> Result<(), AllocError> {
    let (from, sent) = name;
    sources.add(
        front.fetch_of(party, from, sent),
        b"here its message was fetched, which is the first to have its turn",
    )?;
    if let Some(who) = actor_of(did) {
        sources.add(front.standing(party, who), b"so its actor stood before")?;
    }
    Ok(())
}

/// From what an entry follows that happens at a party.
pub(crate) fn made_follows(
    sources: &mut Sources,
    front: Front<'_>,
    made: &Made,
    line: Option<u32>,
) -> Result<(), AllocError> {
    let party = made.party;
    match &made.entry {
        Entry::Fetch { msg, .. } => sources.add(
            front.post_of(msg.from, msg.stamp),
            b"this message is the first in its lane",
        ),
        Entry::Turn {
            from,
            sent,
            did,
            ..
        } => turn_follows(sources, front, party, (*from, *sent), *did),
        Entry::Post { .. } if party >= front.journals.controllers.len() => {
            sources.add_line(line, b"this line is posted next")
        }
        Entry::Post { msg, .. } => sources.add(front.sent_in(party, msg), b"here it was sent"),
        Entry::Start { .. } => Ok(()),
    }
}

/// Where a message is that a fetch names whose lane is empty.
fn lane_follows(
    sources: &mut Sources,
    front: Front<'_>,
    spot: Spot,
    msg: &Msg,
) -> Result<(), AllocError> {
    let taken = front.fetch_of(spot.party, msg.from, msg.stamp);
    if taken.is_some() {
        return sources.add(taken, b"here it was fetched already");
    }
    let posted = front.post_of(msg.from, msg.stamp);
    if posted.is_some() {
        return sources.add(
            posted,
            b"here it was posted, to another controller or at another priority",
        );
    }
    sources.add(
        post_anywhere(front.journals, msg.from, msg.stamp),
        b"here it is posted, and that comes later",
    )
}

/// Whether two entries have other stamps, though both aren't fetches of several messages.
fn differ_in_stamp(told: &Entry, made: &Entry) -> bool {
    let is_other = match (told, made) {
        (Entry::Fetch { msg: one, .. }, Entry::Fetch { msg: other, .. }) => {
            one.from != other.from || one.stamp != other.stamp
        }
        _ => false,
    };
    !is_other && stamp_of(told) != stamp_of(made)
}

impl<'a> Sheet<'a> {
    /// Why an entry can't happen.
    fn say_why(self, page: &mut Page, why: Why, spot: Spot, entry: &Entry) {
        match (why, entry) {
            (Why::Other, _) => {}
            (Why::EmptyLane, Entry::Fetch { msg, .. }) => {
                page.put(b"    from ");
                put_name_of(page, self.wiring, usize::from(msg.from.0));
                page.put(b" no message is on its way to ");
                put_name_of(page, self.wiring, spot.party);
                page.put(b" at the priority ");
                page.put_line(priority_word(msg.prio));
            }
            (Why::EmptyLane, _) => {}
            (Why::Unposted, _) => self.say(
                page,
                b"no turn is taken before all is posted that the last one sent",
            ),
            (Why::NothingWaits, _) => self.say(page, b"no message waits for a turn"),
            (Why::NothingToPost, _) => self.say(page, b"no message waits to be posted"),
            (Why::AllPosted, _) => self.say(page, b"the injections have no line for it"),
            (Why::NotQuiet, _) => self.say(
                page,
                b"a line behind `settle` is posted when all is quiet, and not before",
            ),
        }
    }

    /// From what it follows that an entry can't happen.
    fn why_follows(
        self,
        sources: &mut Sources,
        front: Front<'_>,
        spot: Spot,
        entry: &Entry,
        refused: &Refused,
    ) -> Result<(), AllocError> {
        match (refused.why, entry) {
            (Why::EmptyLane, Entry::Fetch { msg, .. }) => lane_follows(sources, front, spot, msg),
            (Why::NothingWaits, Entry::Turn { from, sent, .. }) => sources.add(
                front.turn_with(spot.party, *from, *sent),
                b"here the message had its turn already",
            ),
            (Why::NothingToPost, _) => sources.add(
                front.last_turn(spot.party),
                b"this is the last turn, and what it sent is posted",
            ),
            (Why::NotQuiet, _) => sources.add_line(
                refused.line,
                b"this line stands behind `settle`",
            ),
            _ => Ok(()),
        }
    }

    /// From what it follows that an entry is refused.
    fn sources_of(
        self,
        front: Front<'_>,
        spot: Spot,
        entry: &Entry,
        refused: &Refused,
    ) -> Result<Sources, AllocError> {
        let mut sources = Sources::new(self.alloc);
        self.why_follows(&mut sources, front, spot, entry, refused)?;
        if let Some(made) = &refused.made {
            if refused.why == Why::Other && differ_in_stamp(entry, &made.entry) {
                sources.add(front.last(spot.party), b"this is the entry before")?;
            }
            made_follows(&mut sources, front, made, refused.line)?;
        }
        Ok(sources)
    }

    /// Tells why the entry at a place is refused.
    pub(crate) fn tell_refused(
        self,
        page: &mut Page,
        spot: Spot,
        refused: &Refused,
    ) -> Result<(), AllocError> {
        self.show(page, Part::Entry(spot));
        let Some(entry) = entries_of(self.journals, spot.party).get(spot.at) else {
            return Ok(());
        };
        self.say_why(page, refused.why, spot, entry);
        let front = Front {
            journals: self.journals,
            passed: refused.passed.as_slice(),
        };
        if let Some(made) = &refused.made {
            let lead: &[u8] = if refused.why == Why::Other {
                b"there happens"
            } else {
                b"there could happen"
            };
            self.say_made(page, lead, made, spot.party);
        }
        let sources = self.sources_of(front, spot, entry, refused)?;
        self.tell_sources(page, &sources);
        Ok(())
    }
}
