//! Which lines of a story are wanted.
use journal::{Did, naming};
use room_kinds::{Msg, SlotId};
use room_wiring::Wiring;

/// Which lines of a story are wanted: those that meet all that is asked for.
#[derive(Clone, Copy)]
pub struct Wanted<'a> {
    /// Lines of the actors of this slot.
    pub actor: Option<SlotId>,
    /// Lines in which a message with a signal of this name is taken or sent.
    pub signal: Option<&'a [u8]>,
    /// Turns from this stamp on.
    pub from: u64,
    /// Turns up to this stamp.
    pub to: u64,
    /// Lines that tell of something that their author hardly meant.
    pub only_trouble: bool,
    /// No duties of controllers.
    pub no_system: bool,
}

impl<'a> Wanted<'a> {
    /// Whether turns of a stamp are wanted.
    pub fn wants_stamp(&self, stamp: u64) -> bool {
        self.from <= stamp && stamp <= self.to
    }

    /// Whether what was before all turns is wanted.
    pub fn wants_starts(&self) -> bool {
        self.from == 0
    }

    /// Whether what was behind all turns is wanted.
    pub fn wants_end(&self) -> bool {
        self.to == u64::MAX
    }

    /// Whether lines of a slot are wanted.
    pub fn wants_slot(&self, slot: Option<SlotId>) -> bool {
        match self.actor {
            Some(_) => self.actor == slot,
            None => true,
        }
    }

    /// Whether lines with trouble, or without, are wanted.
    pub fn wants_trouble(&self, is_trouble: bool) -> bool {
        is_trouble || !self.only_trouble
    }

    /// Whether turns that come to this are wanted.
    pub fn wants_did(&self, did: Did) -> bool {
        !self.no_system || !did.is_duty()
    }

    /// Whether lines with a signal of this name are wanted.
    pub fn wants_signal(&self, signal: &[u8]) -> bool {
        match self.signal {
            Some(name) => signal == name,
            None => true,
        }
    }

    /// Whether lines with this message are wanted.
    pub fn wants_message(&self, wiring: &Wiring, msg: &Msg) -> bool {
        self.wants_signal(naming::signal_name(wiring, msg))
    }

    /// Whether lines are wanted that tell of no message.
    pub fn wants_no_message(&self) -> bool {
        self.signal.is_none()
    }
}
