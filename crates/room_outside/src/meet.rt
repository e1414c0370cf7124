//! A gate at which two controllers meet.
//!
//! What atomics hold no clause can name, so what this gate notes is shown by tests alone.

use crate::gate::{ControllerNo, Gate};
use std::sync::atomic::{AtomicBool, Ordering};

/// One of the two controllers that meet.
#[derive(Drop)]
struct Guest {
    // It has entered its first turn.
    entered: AtomicBool,
    // While it was held there, the other one had entered, too.
    saw_other: AtomicBool,
}

impl Guest {
    fn new() -> Guest {
        Guest {
            entered: AtomicBool::new(false),
            saw_other: AtomicBool::new(false),
        }
    }

    /// Holds this one's first turn until the other has entered its own.
    fn wait_for(&self, other: &Guest, tries: u64) {
        self.entered.store(true, Ordering::SeqCst);
        for _ in 0..tries {
            if other.entered.load(Ordering::SeqCst) {
                self.saw_other.store(true, Ordering::SeqCst);
                return;
            }
        }
    }
}

/// A gate that holds the first turn of each of the controllers 0 and 1 until the other has entered
/// its first turn, for at most so many tries. All other turns pass.
///
/// It shows that two controllers run at once: one after another they would never meet.
#[derive(Drop)]
pub struct MeetGate {
    tries: u64,
    zero: Guest,
    one: Guest,
    second: AtomicBool,
}

impl MeetGate {
    pub fn new(tries: u64) -> MeetGate {
        MeetGate {
            tries,
            zero: Guest::new(),
            one: Guest::new(),
            second: AtomicBool::new(false),
        }
    }

    /// Whether each of the two was at its first turn while the other was.
    pub fn met(&self) -> bool {
        let zero = self.zero.saw_other.load(Ordering::SeqCst);
        let one = self.one.saw_other.load(Ordering::SeqCst);
        zero && one
    }

    /// Whether one of the two has entered its second turn.
    pub fn second(&self) -> bool {
        self.second.load(Ordering::SeqCst)
    }
}

impl Gate for MeetGate {
    fn enter(&self, c: ControllerNo, turn: u64) {
        match (c, turn) {
            (0, 0) => self.zero.wait_for(&self.one, self.tries),
            (1, 0) => self.one.wait_for(&self.zero, self.tries),
            (0 | 1, 1) => self.second.store(true, Ordering::SeqCst),
            _ => {}
        }
    }
}
