//! Calls that are made to fail.
ghost use Rattle.std.specs.Prelude.{◌≡◌};

use std::marker::Model;

/// Counts calls and knows the numbers, from 1, of those that fail. The count stands still at the
/// last value of a `u64`.
#[derive(Drop, Debug)]
pub(crate) struct Calls {
    made: u64,
    fail: Vec<u64>,
}

impl Model for Calls {
    ghost use Rattle.room_outside.specs.Calls.{Calls as CallsState};

    ghost Value = { CallsState };

    ghost view = { λ c. record { made = c.made; fail = c.fail.items } };
}

impl Calls {
    ghost use Rattle.room_outside.specs.Calls.{after_call, next_fails};

    pub(crate) fn new(fail: Vec<u64>) -> Calls
        ensures { result ≡ record { made = 0; fail = fail.items } }
    {
        Calls { made: 0, fail }
    }

    /// Counts one more call, and says whether it fails.
    pub(crate) fn next_fails(&mut self) -> bool
        ensures state { self.new ≡ after_call self.old }
        ensures answer { result ≡ next_fails self.old }
    {
        self.made = self.made.saturating_add(1);
        self.fail.contains(&self.made)
    }
}
