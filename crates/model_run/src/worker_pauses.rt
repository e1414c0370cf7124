//! What a worker does between steps in which it found nothing to do.
//!
//! Workers on threads of their own wait for each other's messages. One that has found nothing pauses before it
//! looks again, first briefly, then for longer: so it is still there when a message comes round, and leaves
//! the processor to those that work. A pause ends at once when something is posted to the worker, and when all
//! workers rest and nothing is on its way: then there is nothing to wait for, and it pauses no more. Its steps are
//! the same with pauses and without: no clause speaks of them.

use mail_core::{Mail, Outlook};
use std::{hint, thread};

/// Steps behind which a pause spins; it yields behind later ones.
const SPINNING_STEPS: u32 = 8;

/// Behind so many idle steps in a row pauses grow faster.
const SHORT_STEPS: u32 = 24;

/// By so many yields a later pause is longer than the one before. All pauses of a worker together are some six
/// thousand yields: enough for a message to go round many workers on few processors, and not much longer than the
/// round that is lost where a worker waits in vain.
const LATER_GROWTH: u32 = 8;

/// What a worker does before a step.
pub trait Pauses {
    /// Whether nobody else works at the same time.
    fn is_alone(&self) -> bool;

    /// Behind so many steps in a row that fetched and turned nothing, of the worker with this end of the mail.
    fn before_step<M: Mail>(&mut self, idle: u32, end: &M);
}

/// No pauses: for a worker beside which nobody works.
#[derive(Drop)]
pub struct NoPauses;

impl Pauses for NoPauses {
    fn is_alone(&self) -> bool {
        true
    }

    fn before_step<M: Mail>(&mut self, _idle: u32, _end: &M) {}
}

/// The pauses of one of several workers.
#[derive(Drop)]
pub struct WorkerPauses {
    /// Whether there is only this one.
    is_alone: bool,
    /// Whether all have nothing to do any more.
    is_calm: bool,
}

impl WorkerPauses {
    pub fn new(is_alone: bool) -> WorkerPauses {
        WorkerPauses {
            is_alone,
            is_calm: false,
        }
    }
}

impl Pauses for WorkerPauses {
    fn is_alone(&self) -> bool {
        self.is_alone
    }

    fn before_step<M: Mail>(&mut self, idle: u32, end: &M) {
        if idle > 0 && !self.is_calm {
            self.is_calm = pause(idle, end);
        }
    }
}

/// A pause behind so many idle steps in a row, of a worker that rests. It answers whether all is calm.
fn pause<M: Mail>(idle: u32, end: &M) -> bool {
    for _ in 0..waits(idle) {
        match end.rest() {
            Outlook::Called => return false,
            Outlook::Calm => return true,
            Outlook::Open => give_way(idle),
        }
    }
    false
}

/// How many waits a pause has: 1 to 128 spins at first, then 1 to 8 yields, then 8 to 312.
fn waits(idle: u32) -> u32 {
    if idle <= SPINNING_STEPS {
        (1 << idle) / 2
    } else if idle <= SHORT_STEPS {
        (idle - SPINNING_STEPS + 1) / 2
    } else {
        (idle - SHORT_STEPS).saturating_mul(LATER_GROWTH)
    }
}

fn give_way(idle: u32) {
    if idle <= SPINNING_STEPS {
        hint::spin_loop();
    } else {
        thread::yield_now();
    }
}
