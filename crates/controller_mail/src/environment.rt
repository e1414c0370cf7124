//! The environment: it posts the lines of the injection text.
ghost use Rattle.std.specs.Prelude.{◌≡◌, ◌+◌, ◌<◌, max, [], IfOk, OnErr, length};
ghost use Rattle.actor_merge.specs.Parties.{stamped};
ghost use Rattle.controller_mail.specs.Steps.{environment_after, environment_before};

use crate::clock::{later, stamped};
use journal::{Entry, Journal};
use room_kinds::{ControllerId, Msg, Sequence, Stamp};
use std::alloc::{AllocError, Global};
use std::marker::Model;

/// The environment's clock and its journal. It posts alone.
#[derive(Drop)]
pub struct EnvironmentMail {
    alloc: Global,
    clock: u64,
    journal: Vec<Entry>,
}

impl Model for EnvironmentMail {
    ghost use Rattle.controller_mail.specs.MailState.{EnvironmentState};

    ghost Value = { EnvironmentState };

    ghost view = { λ k. record { clock = k.clock; journal = k.journal.items } };

    ghost use Rattle.std.specs.Prelude.{◌≤◌, vec_len};

    ghost invariant = { λ k. vec_len k.journal ≤ k.clock };
}

impl EnvironmentMail {
    /// Nothing is posted, and the clock is 0. It takes no memory.
    pub fn new(alloc: Global) -> EnvironmentMail
        ensures { result ≡ record { clock = 0; journal = [] } }
    {
        EnvironmentMail {
            alloc,
            clock: 0,
            journal: Vec::new(alloc),
        }
    }

    /// Raises the clock to another party's, before the first line of a part. Where it is done for each
    /// controller, the clock becomes the greatest of all parties. It takes no memory.
    pub fn catch_up(&mut self, clock: u64)
        ensures { self.new ≡ record self.old { clock = max clock self.old.clock } }
    {
        self.clock = clock.max(self.clock);
    }

    /// Posts a message as party `me`, the environment's number: it is given as it goes on its way. After
    /// want of memory nothing has changed.
    pub fn post(&mut self, me: ControllerId, m: Msg) -> Result<Msg, AllocError>
        ensures message { IfOk result (λ posted. posted ≡ stamped me.0 (self.old.clock + 1) m) }
        ensures ok { IfOk result (λ posted. self.new ≡ environment_after self.old posted) }
        ensures err { OnErr result (self.new ≡ self.old) }
    {
        let stamp = later(self.clock)?;
        let posted = stamped(m, me, stamp);
        let msg = posted.copy(self.alloc)?;
        self.journal.push(Entry::Post {
            stamp: Stamp(stamp),
            msg,
        })?;
        self.clock = stamp;
        Ok(posted)
    }

    /// Takes the last post back, whose message no mailbox took. It takes no memory.
    pub fn take_back(&mut self)
        requires { 0 < length self.old.journal }
        ensures { self.new ≡ environment_before self.old }
    {
        let _ = self.journal.pop();
        self.clock -= 1;
    }

    /// The entries so far, oldest first. It takes no memory.
    pub fn entries(&self) -> &[Entry]
        ensures { result.now ≡ self.now.journal }
    {
        self.journal.as_slice()
    }

    /// The journal.
    pub fn finish(self) -> Journal
        ensures { result ≡ self.journal }
    {
        Sequence::from(self.journal)
    }
}
