//! Bells: how a party hears that others posted something to it, and how all know that nobody will post any more.
//!
//! Whoever posts to another party rings its bell, once for each message. A party that has taken as many messages of
//! others as its bell rang needs no look at their deques. No contract speaks of bells: a look may miss what another
//! party posts, and it is taken later, or comes back when the mail is closed.
//!
//! A party that has nothing to do rests: it says how many rings it has heard, and it has done all that came of them.
//! Each controller's bell rings once at the start, for what it has to do by itself. So a bell has rung more often
//! than its party said while the party works, and while a message is on its way to it. Only between the push of a
//! message and its ring that isn't so: the receiver may take it before. Then the sender is still at work, and has
//! taken all that it works on before; so of all who work at one moment, at least one is told by its bell. Where none
//! is, all rest, nothing is on its way, and no bell will ring again.

use room_kinds::{Msg, SharedSequence};
use std::alloc::{AllocError, Global};
use std::sync::atomic::{AtomicU64, Ordering};

/// A party that has left says so by this number. No bell rings so often.
const LEFT: u64 = u64::MAX;

/// How often a bell rang, and how many rings its party said to have heard. Each has a line of the cache of its own,
/// or whoever rings one would slow those who listen to the others.
#[derive(Drop)]
pub struct Bell {
    rung: AtomicU64,
    rung_apart: [u64; 7],
    rested: AtomicU64,
    rested_apart: [u64; 7],
}

/// The bells of all parties, and for how many rings of its own a party has taken the message.
#[derive(Drop)]
pub struct Bells {
    all: SharedSequence<Bell>,
    heard: u64,
}

impl Bell {
    /// A bell that has rung for the start.
    fn rung_once(rested: u64) -> Bell {
        Bell {
            rung: AtomicU64::new(1),
            rung_apart: [0; 7],
            rested: AtomicU64::new(rested),
            rested_apart: [0; 7],
        }
    }

    /// How often it rang, if its party has heard as much and rests, or has left.
    fn rings_at_rest(&self) -> Option<u64> {
        let rested = self.rested.load(Ordering::SeqCst);
        let rings = self.rung.load(Ordering::SeqCst);
        if rested == rings || rested == LEFT {
            Some(rings)
        } else {
            None
        }
    }
}

impl Bells {
    /// Bells for so many parties, which have rung for the start alone. The environment, the last party, takes
    /// nothing: it has left from the start.
    pub(crate) fn at_start(alloc: Global, parties: u8) -> Result<Bells, AllocError> {
        let mut all = Vec::new(alloc);
        for _controller in 1..parties {
            all.push(Bell::rung_once(0))?;
        }
        all.push(Bell::rung_once(LEFT))?;
        Ok(Bells {
            all: SharedSequence::of(alloc, all)?,
            heard: 1,
        })
    }

    /// The same bells for another party.
    pub(crate) fn share(&self) -> Result<Bells, AllocError> {
        Ok(Bells {
            all: self.all.share()?,
            heard: 1,
        })
    }

    /// Rings the bell of a party to which this one has posted, unless it is its own.
    #[inline(always)]
    pub(crate) fn ring(&self, from: u8, to: u8) {
        if from == to {
            return;
        }
        if let Some(bell) = self.all.as_slice().get(usize::from(to)) {
            bell.rung.fetch_add(1, Ordering::SeqCst);
        }
    }

    /// Whether the party has taken all for which its bell rang.
    #[inline(always)]
    pub(crate) fn are_quiet(&self, party: u8) -> bool {
        match self.all.as_slice().get(usize::from(party)) {
            Some(bell) => bell.rung.load(Ordering::SeqCst) == self.heard,
            None => false,
        }
    }

    /// What another party posted was taken, if something was found.
    #[inline(always)]
    pub(crate) fn hear(&mut self, found: &Option<Msg>) {
        if found.is_some() {
            self.heard = self.heard.wrapping_add(1);
        }
    }

    /// The party rests: it has done all that came of what it heard.
    pub(crate) fn rest(&self, party: u8) {
        self.say(party, self.heard);
    }

    /// The party takes nothing and posts nothing any more.
    pub(crate) fn leave(&self, party: u8) {
        self.say(party, LEFT);
    }

    fn say(&self, party: u8, rested: u64) {
        if let Some(bell) = self.all.as_slice().get(usize::from(party))
            && bell.rested.load(Ordering::SeqCst) != rested
        {
            bell.rested.store(rested, Ordering::SeqCst);
        }
    }

    /// Whether all parties rest and nothing is on its way to any. Bells can't be read at one moment. But if each
    /// party rests as far as its bell rang, and then, counted once more, no bell has rung since, so it was at the
    /// moment between.
    pub(crate) fn are_calm(&self) -> bool {
        match self.rings_at_rest() {
            Some(rings) => self.rings() == rings,
            None => false,
        }
    }

    /// How often all bells rang, if all parties rest.
    fn rings_at_rest(&self) -> Option<u64> {
        let mut rings = 0u64;
        for bell in self.all.as_slice() {
            rings = rings.wrapping_add(bell.rings_at_rest()?);
        }
        Some(rings)
    }

    /// How often all bells rang.
    fn rings(&self) -> u64 {
        let mut rings = 0u64;
        for bell in self.all.as_slice() {
            rings = rings.wrapping_add(bell.rung.load(Ordering::SeqCst));
        }
        rings
    }
}
