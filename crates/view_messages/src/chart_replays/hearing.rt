//! What an actor says by its chart, compared with what the journals tell.
//!
//! Each send of an action is a message that is posted, or a note `unbound` (docs/ACTIONS.md); the journals have both in
//! the order of the sends.
use journal::Entry;
use room_kinds::{Command, Endpoint, Msg, Note, Payload, Priority, SlotId};
use room_wiring::Wiring;
use std::alloc::{AllocError, Global};
use view_journals::{Deed, Outlets, Said, place_count};

/// The number of the port `frame`, at which the controller speaks for an actor.
const FRAME: u16 = 0;

/// What an actor's action says at a place.
#[derive(Clone, Copy)]
struct Send<'a> {
    port: u16,
    place: i64,
    signal: u16,
    payload: &'a Payload,
    prio: Priority,
}

/// What the journals tell that actors say, as far as it isn't compared yet.
#[derive(Clone, Copy)]
pub(crate) struct Told<'a> {
    pub notes: &'a [Note],
    pub posts: &'a [Entry],
}

/// An actor that is heard: its slot, and what it says that nobody hears.
#[derive(Drop)]
pub(crate) struct Hearing<'a, 'b> {
    alloc: Global,
    wiring: &'a Wiring,
    outlets: &'a Outlets,
    slot: SlotId,
    told: Told<'b>,
    unheard: Vec<Said>,
}

/// The place at which an actor said a message by its action; none of a message that a controller posts for it.
fn said_at(entry: &Entry) -> Option<Endpoint> {
    match entry {
        Entry::Post { msg, .. } if msg.prio.0 != 0 => match msg.source {
            Some(source) if source.port != FRAME => Some(source),
            _ => None,
        },
        Entry::Post { .. } | Entry::Start { .. } | Entry::Fetch { .. } | Entry::Turn { .. } => None,
    }
}

fn is_unbound(note: &Note) -> bool {
    matches!(note, Note::Unbound { .. })
}

impl<'a> Told<'a> {
    /// The next message of an actor of a slot, and where it says it, if no other actor speaks before.
    fn next_post(&mut self, slot: SlotId) -> Option<(Endpoint, &'a Msg)> {
        let passed = self
            .posts
            .iter()
            .take_while(|entry| said_at(entry).is_none())
            .count();
        self.posts = self.posts.get(passed..).unwrap_or(&[]);
        let first = self.posts.first()?;
        match (said_at(first), first) {
            (Some(source), Entry::Post { msg, .. }) if source.slot == slot => Some((source, msg)),
            _ => None,
        }
    }

    /// The next place at which nobody hears what is said.
    fn next_unbound(&mut self) -> Option<(u16, i64)> {
        let passed = self
            .notes
            .iter()
            .take_while(|note| !is_unbound(note))
            .count();
        self.notes = self.notes.get(passed..).unwrap_or(&[]);
        match self.notes.first() {
            Some(Note::Unbound { port, place }) => Some((*port, *place)),
            _ => None,
        }
    }

    fn pass_post(&mut self) {
        self.posts = self.posts.get(1..).unwrap_or(&[]);
    }

    fn pass_note(&mut self) {
        self.notes = self.notes.get(1..).unwrap_or(&[]);
    }
}

impl<'a> Send<'a> {
    /// Whether a message that is said somewhere has what is sent.
    fn is_content(&self, msg: &Msg) -> bool {
        msg.signal == self.signal && msg.prio == self.prio && msg.payload.is_same(self.payload)
    }

    /// Whether a message that is said somewhere is this one.
    fn is(&self, source: Endpoint, msg: &Msg) -> bool {
        source.port == self.port && i64::from(source.place) == self.place && self.is_content(msg)
    }
}

/// What a message says, where an actor says it.
fn said_by(alloc: Global, source: Endpoint, msg: &Msg) -> Result<Said, AllocError> {
    Ok(Said {
        port: source.port,
        place: i64::from(source.place),
        signal: msg.signal,
        payload: msg.payload.copy(alloc)?,
        prio: msg.prio,
        goes_out: false,
    })
}

impl<'a, 'b> Hearing<'a, 'b> {
    pub(crate) fn of(
        alloc: Global,
        wiring: &'a Wiring,
        outlets: &'a Outlets,
        slot: SlotId,
        told: Told<'b>,
    ) -> Hearing<'a, 'b> {
        Hearing {
            alloc,
            wiring,
            outlets,
            slot,
            told,
            unheard: Vec::new(alloc),
        }
    }

    /// What the actor said that nobody hears, and what the journals tell behind it.
    pub(crate) fn into_parts(self) -> (Vec<Said>, Told<'b>) {
        let Hearing { unheard, told, .. } = self;
        (unheard, told)
    }

    /// What a send says.
    fn said(&self, send: Send<'_>) -> Result<Said, AllocError> {
        let outlets = self.outlets;
        Ok(Said {
            port: send.port,
            place: send.place,
            signal: send.signal,
            payload: send.payload.copy(self.alloc)?,
            prio: send.prio,
            goes_out: outlets.has(self.wiring, self.slot, send.port, send.place),
        })
    }

    /// Takes what the journals tell of a send; says whether they do.
    fn hear(&mut self, send: Send<'_>) -> Result<bool, AllocError> {
        if let Some((source, msg)) = self.told.next_post(self.slot)
            && send.is(source, msg)
        {
            self.told.pass_post();
            return Ok(true);
        }
        if let Some((port, place)) = self.told.next_unbound()
            && port == send.port
            && place == send.place
        {
            self.told.pass_note();
            let said = self.said(send)?;
            self.unheard.push(said)?;
            return Ok(true);
        }
        Ok(false)
    }

    /// Takes what the journals tell of a send to one who is joined by name, at one of the places from here on; answers
    /// from where on the next one is, where they do.
    fn hear_link(&mut self, send: Send<'_>, least: u32) -> Option<u32> {
        let (source, msg) = self.told.next_post(self.slot)?;
        if source.port == send.port && source.place >= least && send.is_content(msg) {
            self.told.pass_post();
            return Some(source.place.saturating_add(1));
        }
        None
    }

    /// Takes what the journals tell of a send to all who are joined by name, behind the places of the model. It goes
    /// to each of them once, in order of the places; what follows at a place before that is said by another send.
    fn hear_links(&mut self, send: Send<'_>, count: u32) {
        let mut least = count;
        for _post in 0..self.told.posts.len() {
            match self.hear_link(send, least) {
                Some(next) => least = next,
                None => return,
            }
        }
    }

    /// Takes what the journals tell of a send at all places; answers what is said where they don't.
    fn hear_all(&mut self, send: Send<'_>) -> Result<Option<Said>, AllocError> {
        let count = place_count(self.wiring, self.slot, usize::from(send.port));
        for place in 0..count {
            let at = Send {
                place: i64::from(place),
                ..send
            };
            if !self.hear(at)? {
                return Ok(Some(self.said(at)?));
            }
        }
        self.hear_links(send, count);
        Ok(None)
    }

    /// Takes what the journals tell of a send; answers what is said where they don't.
    fn hear_one(&mut self, send: Send<'_>) -> Result<Option<Said>, AllocError> {
        if self.hear(send)? {
            return Ok(None);
        }
        Ok(Some(self.said(send)?))
    }

    /// Takes what the journals tell of a command; answers what is said where they don't.
    fn hear_command(&mut self, command: &Command) -> Result<Option<Said>, AllocError> {
        let Command::Send {
            port,
            place,
            signal,
            payload,
            prio,
        } = command
        else {
            return Ok(None);
        };
        let send = Send {
            port: *port,
            place: place.unwrap_or(0),
            signal: *signal,
            payload,
            prio: *prio,
        };
        match place {
            Some(_) => self.hear_one(send),
            None => self.hear_all(send),
        }
    }

    /// What the journals tell next that the actor says.
    fn told_next(&mut self) -> Result<Deed, AllocError> {
        if let Some((source, msg)) = self.told.next_post(self.slot) {
            return Ok(Deed::Says(said_by(self.alloc, source, msg)?));
        }
        match self.told.next_unbound() {
            Some((port, place)) => Ok(Deed::Unbound { port, place }),
            None => Ok(Deed::Silence),
        }
    }

    /// Compares what the commands of the actor say with what the journals tell: what the journals tell and what is
    /// said, where they differ first.
    pub(crate) fn compare(
        &mut self,
        commands: &[Command],
    ) -> Result<Option<(Deed, Deed)>, AllocError> {
        for command in commands {
            if let Some(said) = self.hear_command(command)? {
                return Ok(Some((self.told_next()?, Deed::Says(said))));
            }
        }
        match self.told_next()? {
            Deed::Silence => Ok(None),
            more => Ok(Some((more, Deed::Silence))),
        }
    }
}
