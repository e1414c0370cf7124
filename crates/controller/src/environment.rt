//! The environment of a run.
ghost use Rattle.std.specs.Prelude.{◌≡◌, ◌+◌, ◌<◌, ◌≤◌, [], length, OnOk, OnErr};
ghost use Rattle.actor_merge.specs.World.{latest};
ghost use Rattle.mail_core.specs.Tied.{IsTied, StaysTied};
ghost use Rattle.controller_actors.specs.declared.plant.Plant.{Plant as Stands};
ghost use Rattle.controller.specs.Controllers.{state_at};
ghost use Rattle.controller.specs.Calls.{PostsLine};

use crate::controller::Controller;
use controller_actors::Plant;
use controller_mail::EnvironmentMail;
use journal::{Entry, Journal};
use mail_core::Mail;
use room_kinds::{ControllerId, Msg};
use std::alloc::{AllocError, Global};
use std::marker::Model;

/// The environment's clock and its journal. It posts the lines of an injection text, and does nothing else.
#[derive(Drop)]
pub struct Environment {
    mail: EnvironmentMail,
}

impl Model for Environment {
    ghost use Rattle.controller_mail.specs.MailState.{EnvironmentState};

    ghost Value = { EnvironmentState };

    ghost view = { λ k. k.mail };
}

impl Environment {
    /// Nothing is posted, and the clock is 0. It takes no memory.
    pub fn new(alloc: Global) -> Environment
        ensures { result ≡ record { clock = 0; journal = [] } }
    {
        Environment {
            mail: EnvironmentMail::new(alloc),
        }
    }

    /// The clock becomes the greatest of all parties, as before the first line of a later part. `all` are the
    /// controllers of a plant, in order of number. It takes no memory.
    pub fn catch_up(&mut self, all: &[Controller])
        ensures { (plant : Stands)
            → self.new ≡ record self.old
            { clock = latest (state_at plant all.now) (length all.now) self.old.clock } }
    {
        for c in 0..all.len() {
            self.mail.catch_up(all[c].clock());
        }
    }

    /// Posts a message of a priority from 1 to 5, stamped with the clock and one more. After want of memory the journal, the clock and
    /// the end are as they were.
    pub fn post<M: Mail>(
        &mut self,
        plant: &Plant,
        office: &mut M::Office,
        end: &mut M,
        m: Msg,
    ) -> Result<(), AllocError>
        requires party { (M.log end.old).party ≡ length plant.now.wiring.controllers }
        requires parties { (M.log end.old).parties ≡ length plant.now.wiring.controllers + 1 }
        requires to { m.to.0 < length plant.now.wiring.controllers }
        requires least { 1 ≤ m.prio.0 }
        requires most { m.prio.0 ≤ 5 }
        requires tied { IsTied M.tied (M.log end.old).party office.old end.old }
        ensures ok { OnOk result (PostsLine (length plant.now.wiring.controllers) self.old self.new
            (M.log end.old) (M.log end.new) m) }
        ensures err { OnErr result ((self.new ≡ self.old) × (M.log end.new ≡ M.log end.old)) }
        ensures tied { StaysTied M.tied (M.log end.old).party office.old office.new end.old
            end.new }
    {
        let me = ControllerId(plant.wiring.controller_count());
        let posted = self.mail.post(me, m)?;
        match end.post(office, posted) {
            Ok(()) => Ok(()),
            Err(_refused) => {
                self.mail.take_back();
                Err(AllocError)
            }
        }
    }

    /// The entries of the journal so far, oldest first. It takes no memory.
    pub fn entries(&self) -> &[Entry]
        ensures { result.now ≡ self.now.journal }
    {
        self.mail.entries()
    }

    /// The journal. It takes no memory.
    pub fn finish(self) -> Journal
        ensures { result ≡ self.journal }
    {
        self.mail.finish()
    }
}
