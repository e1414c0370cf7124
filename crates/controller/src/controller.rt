//! A controller.
ghost use Rattle.std.specs.Prelude.{◌≡◌, ◌+◌, ◌<◌, ◌==◌, ◌↔◌, ◌≤◌, [], not, length, slice_get, option_copied, All, false, true, IsErr, IsTrue, IfOk, OnOk, OnErr, MatchOption};
ghost use Rattle.std.specs.List.{list_any};
ghost use Rattle.controller_mail.specs.MailState.{HasPriority, has_messages, messages_in};
ghost use Rattle.controller_mail.specs.Steps.{Fetches, Posts};
ghost use Rattle.controller_mail.specs.Within.{IsAnswerable, IsFor};
ghost use Rattle.mail_core.specs.Tied.{IsTied, StaysTied};
ghost use Rattle.controller.specs.Controllers.{IsOf, Begins};
ghost use Rattle.controller.specs.Calls.{PostsAll, Polls, IsCutOff, FetchesLeft, Turns};

use crate::controller_state::ControllerState;
use crate::moves::{fetch_all, poll_boxes, post_outbox};
use controller_actors::Plant;
use journal::{Entry, Journal};
use mail_core::Mail;
use room_kinds::{ControllerId, Msg, Sequence};
use std::alloc::{AllocError, Global};
use std::marker::Model;

/// A controller of a plant, with its fuel, which is the most turns that it takes, and its journal: each call
/// keeps the entries that the state gives. After a refusal for want of memory it gives no other answer.
#[derive(Drop)]
pub struct Controller {
    fuel: u64,
    failed: bool,
    state: ControllerState,
    journal: Vec<Entry>,
}

impl Model for Controller {
    ghost use Rattle.controller.specs.View.{Controller as Shown};
    ghost use Rattle.controller.specs.States.{mail_with};

    ghost Value = { Shown };

    ghost view = { λ k.
        record {
          me = k.state.me;
          fuel = k.fuel;
          failed = k.failed;
          mail = mail_with k.state k.journal.items;
          actors = k.state.actors;
        } };
}

impl Controller {
    /// Starts controller `me` of a plant: its actors that live from the start take their initial
    /// transitions in slot order, and what they send stands in the outbox.
    pub fn start(
        alloc: Global,
        plant: &Plant,
        me: ControllerId,
        fuel: u64,
    ) -> Result<Controller, AllocError>
        requires me { me.0 < length plant.now.wiring.controllers }
        ensures begins { IfOk result (λ k. Begins plant.now me fuel k) }
        ensures of { IfOk result (λ k. IsOf plant.now k) }
    {
        let begun = ControllerState::start(alloc, plant, me)?;
        Ok(Controller {
            fuel,
            failed: false,
            state: begun.state,
            journal: begun.entries.into_vec(),
        })
    }

    /// Takes the memory for the next message that is fetched, whichever it is: for its place, its entry and a
    /// copy of it.
    pub(crate) fn make_room(&mut self) -> Result<(), AllocError>
        ensures { self.new ≡ self.old }
    {
        self.journal.reserve(1)?;
        self.state.make_room()
    }

    /// Fetches a message, and keeps the entry. After want of memory nothing has changed.
    pub(crate) fn fetch(&mut self, m: Msg) -> Result<(), AllocError>
        requires { m.prio.0 < 6 }
        ensures ok { OnOk result (Fetches self.old.mail self.new.mail m) }
        ensures others { OnOk result (self.new ≡ record self.old { mail = self.new.mail }) }
        ensures err { OnErr result (self.new ≡ self.old) }
    {
        self.journal.reserve(1)?;
        match self.state.fetch(m) {
            Ok(entry) => {
                self.journal.push_reserved(entry);
                Ok(())
            }
            Err(refused) => Err(refused),
        }
    }

    /// Posts the front of the outbox, if there is one, and keeps the entry: the message is given as it goes on
    /// its way. After want of memory nothing has changed.
    pub(crate) fn post(&mut self) -> Result<Option<Msg>, AllocError>
        ensures ok { IfOk result (λ o.
            MatchOption o ((self.old.mail.outbox ≡ []) × (self.new ≡ self.old))
            (λ m. Posts self.old.me.0 self.old.mail self.new.mail m)) }
        ensures others { OnOk result (self.new ≡ record self.old { mail = self.new.mail }) }
        ensures err { OnErr result (self.new ≡ self.old) }
    {
        self.journal.reserve(1)?;
        match self.state.post() {
            Ok(Some(posted)) => {
                self.journal.push_reserved(posted.entry);
                Ok(Some(posted.message))
            }
            Ok(None) => Ok(None),
            Err(refused) => Err(refused),
        }
    }

    /// The controller has failed for want of memory: it gives no other answer from now on.
    fn fail(&mut self)
        ensures { self.new ≡ record self.old { failed = true } }
    {
        self.failed = true;
    }

    /// A controller that has failed answers want of memory again.
    fn refuse_if_failed(&self) -> Result<(), AllocError>
        ensures works { OnOk result (self.now.failed ≡ false) }
        ensures refused { OnErr result (self.now.failed ≡ true) }
    {
        if self.failed {
            return Err(AllocError);
        }
        Ok(())
    }

    /// Posts all that the outbox holds.
    pub fn post_all<M: Mail>(
        &mut self,
        plant: &Plant,
        office: &mut M::Office,
        end: &mut M,
    ) -> Result<(), AllocError>
        requires of { IsOf plant.now self.old }
        requires party { (M.log end.old).party ≡ self.old.me.0 }
        requires parties { (M.log end.old).parties ≡ length plant.now.wiring.controllers + 1 }
        requires tied { IsTied M.tied (M.log end.old).party office.old end.old }
        ensures ok { OnOk result (PostsAll plant.now self.old self.new (M.log end.old)
            (M.log end.new)) }
        ensures of { IsOf plant.now self.new }
        ensures failed { self.old.failed ≡ true → IsErr result }
        ensures err { OnErr result (self.new.failed ≡ true) }
        ensures tied { StaysTied M.tied (M.log end.old).party office.old office.new end.old
            end.new }
    {
        self.refuse_if_failed()?;
        match post_outbox(self, office, end) {
            Ok(()) => Ok(()),
            Err(refused) => {
                self.fail();
                Err(refused)
            }
        }
    }

    /// Looks at every mailbox once, in the order of a poll, and fetches from each until it gives nothing or
    /// has given 64. It answers how many messages were fetched. Before it takes a message it takes the memory
    /// for its entry, for its place and for a copy of 64 numbers.
    pub fn poll<M: Mail>(
        &mut self,
        plant: &Plant,
        office: &mut M::Office,
        end: &mut M,
    ) -> Result<usize, AllocError>
        requires of { IsOf plant.now self.old }
        requires party { (M.log end.old).party ≡ self.old.me.0 }
        requires parties { (M.log end.old).parties ≡ length plant.now.wiring.controllers + 1 }
        requires tied { IsTied M.tied (M.log end.old).party office.old end.old }
        ensures ok { IfOk result (λ count.
            Polls plant.now M.in_box (M.box_count (M.log end.old).party (M.log end.old).parties)
            self.old self.new (M.log end.old) (M.log end.new) count) }
        ensures of { IsOf plant.now self.new }
        ensures failed { self.old.failed ≡ true → IsErr result }
        ensures err { OnErr result (self.new.failed ≡ true) }
        ensures cut_off { OnErr result (IsCutOff self.old self.new (M.log end.old) (M.log end.new)) }
        ensures tied { StaysTied M.tied (M.log end.old).party office.old office.new end.old
            end.new }
    {
        self.refuse_if_failed()?;
        match poll_boxes(self, office, end) {
            Ok(count) => Ok(count),
            Err(refused) => {
                self.fail();
                Err(refused)
            }
        }
    }

    /// Fetches messages that were left in the mail for this controller, in order. Those of the system level,
    /// to which services reply, come from controllers.
    pub fn fetch_left(&mut self, plant: &Plant, left: Vec<Msg>) -> Result<(), AllocError>
        requires of { IsOf plant.now self.old }
        requires to { All (IsFor self.old.me.0) left.items }
        requires prio { All HasPriority left.items }
        requires answerable { All (IsAnswerable (length plant.now.wiring.controllers)) left.items }
        ensures ok { OnOk result (FetchesLeft plant.now self.old self.new left.items) }
        ensures of { IsOf plant.now self.new }
        ensures failed { self.old.failed ≡ true → IsErr result }
        ensures err { OnErr result (self.new.failed ≡ true) }
    {
        self.refuse_if_failed()?;
        match fetch_all(self, left) {
            Ok(()) => Ok(()),
            Err(refused) => {
                self.fail();
                Err(refused)
            }
        }
    }

    /// Takes a turn: of the pending lists from priority 0 to 5 the first that isn't empty gives its front,
    /// which is treated to completion. False exactly where all pending lists are empty.
    pub fn turn(&mut self, plant: &Plant) -> Result<bool, AllocError>
        requires of { IsOf plant.now self.old }
        requires outbox { self.old.mail.outbox ≡ [] }
        ensures ok { IfOk result (λ took. Turns plant.now self.old self.new took) }
        ensures of { IsOf plant.now self.new }
        ensures failed { self.old.failed ≡ true → IsErr result }
        ensures err { OnErr result (self.new.failed ≡ true) }
    {
        self.refuse_if_failed()?;
        match self.take_turn(plant) {
            Ok(took) => Ok(took),
            Err(refused) => {
                self.fail();
                Err(refused)
            }
        }
    }

    /// A turn of a controller that works, whose entry is kept. After want of memory only its number is what it
    /// was.
    fn take_turn(&mut self, plant: &Plant) -> Result<bool, AllocError>
        requires of { IsOf plant.now self.old }
        requires works { self.old.failed ≡ false }
        requires outbox { self.old.mail.outbox ≡ [] }
        ensures ok { IfOk result (λ took. Turns plant.now self.old self.new took) }
        ensures of { OnOk result (IsOf plant.now self.new) }
        ensures me { self.new.me ≡ self.old.me }
    {
        self.journal.reserve(1)?;
        match self.state.turn(plant) {
            Ok(Some(entry)) => {
                self.journal.push_reserved(entry);
                Ok(true)
            }
            Ok(None) => Ok(false),
            Err(refused) => Err(refused),
        }
    }

    /// The controller's number. It takes no memory.
    pub fn me(&self) -> ControllerId
        ensures { result ≡ self.now.me }
    {
        self.state.me
    }

    /// The number of turns taken. It takes no memory.
    pub fn turns(&self) -> u64
        ensures { result ≡ self.now.mail.turns }
    {
        self.state.mail.turns()
    }

    /// The greatest stamp so far. It takes no memory.
    pub fn clock(&self) -> u64
        ensures { result ≡ self.now.mail.clock }
    {
        self.state.mail.clock()
    }

    /// Whether a message waits for its turn, at one of the six priorities. It takes no memory.
    pub fn has_pending(&self) -> bool
        ensures waits { result ≡ list_any has_messages self.now.mail.pending }
        ensures six { length self.now.mail.pending ≡ 6 }
    {
        self.state.mail.has_pending()
    }

    /// Whether a message waits to be posted. It takes no memory.
    pub fn has_outbox(&self) -> bool
        ensures { result ≡ not (length self.now.mail.outbox == 0) }
    {
        self.state.mail.has_outbox()
    }

    /// Whether as many turns were taken as the fuel allows. It takes no memory.
    pub fn is_spent(&self) -> bool
        ensures { IsTrue result ↔ (self.now.fuel ≤ self.now.mail.turns) }
    {
        self.state.mail.is_spent(self.fuel)
    }

    /// The entries of the journal so far, oldest first. It takes no memory.
    pub fn entries(&self) -> &[Entry]
        ensures { result.now ≡ self.now.mail.journal }
    {
        self.journal.as_slice()
    }

    /// One of the entries of the journal so far, by how many are older. It takes no memory.
    pub fn entry(&self, k: usize) -> Option<&Entry>
        ensures { option_copied result ≡ slice_get self.now.mail.journal k }
    {
        self.journal.as_slice().get(k)
    }

    /// The journal, and the messages that wait for their turn: those of lower priorities first, and of one
    /// priority the oldest first. There are six priorities. After a refusal both are given up.
    pub fn finish(self) -> Result<(Journal, Vec<Msg>), AllocError>
        ensures journal { IfOk result (λ parts. parts.0 ≡ self.mail.journal) }
        ensures pending { IfOk result (λ parts. parts.1.items ≡ messages_in self.mail.pending) }
        ensures six { IfOk result (λ parts. length self.mail.pending ≡ 6) }
        ensures failed { self.failed ≡ true → IsErr result }
    {
        self.refuse_if_failed()?;
        let pending = self.state.into_pending()?;
        Ok((Sequence::from(self.journal), pending))
    }
}
