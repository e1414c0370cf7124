//! A controller without its journal.
ghost use Rattle.std.specs.Prelude.{◌≡◌, ◌<◌, [], length, option_map, None, IfOk, IfNone, IfSome, OnOk, OnErr, MatchOption};
ghost use Rattle.journal.specs.declared.entry.Entry.TheVariants as entry;
ghost use Rattle.actor_merge.specs.Parties.{next_of, fetch, post};
ghost use Rattle.actor_world.specs.Start.{first_state, start_entries};
ghost use Rattle.controller_mail.specs.MailState.{pending_of, messages_in};
ghost use Rattle.controller_mail.specs.Queues.{alone};
ghost use Rattle.controller_mail.specs.Within.{WaitsWithin};
ghost use Rattle.controller_actors.specs.Plants.{model_of};
ghost use Rattle.controller_actors.specs.declared.plant.Plant.{Plant as AnyPlant};
ghost use Rattle.controller.specs.States.{IsStateOf, Makes, TakesTurn, mail_with, shown_in};

use controller_actors::{Actors, Plant};
use controller_mail::{MailQueues, Posted};
use journal::{Entry, Journal};
use room_kinds::{ControllerId, Msg};
use std::alloc::{AllocError, Global};

/// A controller of a plant without its journal: its number, the queues of its mail, and its actors. Each call
/// is one event and gives the entry that it makes, so an entry that is read can be replayed.
#[derive(Drop)]
pub struct ControllerState {
    pub(crate) me: ControllerId,
    pub(crate) mail: MailQueues,
    actors: Actors,
}

/// A controller that has started, and the entries with which its journal begins.
#[derive(Drop)]
pub struct Started {
    pub state: ControllerState,
    pub entries: Journal,
}

impl ControllerState {
    /// Starts controller `me` of a plant: its actors that live from the start take their initial transitions
    /// in slot order, and what they send stands in the outbox.
    pub fn start(alloc: Global, plant: &Plant, me: ControllerId) -> Result<Started, AllocError>
        requires { me.0 < length plant.now.wiring.controllers }
        ensures me { IfOk result (λ s. s.state.me ≡ me) }
        ensures state { IfOk result (λ s.
            shown_in plant.now s.state ≡ first_state (model_of plant.now) plant.now.wiring me.0) }
        ensures entries { IfOk result (λ s.
            s.entries ≡ start_entries (model_of plant.now) plant.now.wiring me.0) }
        ensures of { IfOk result (λ s. IsStateOf plant.now s.state) }
        ensures waits { IfOk result (λ s.
            WaitsWithin (length plant.now.wiring.controllers) (mail_with s.state [])) }
    {
        let begun = Actors::start(alloc, plant, me)?;
        let mail = MailQueues::started(alloc, begun.sent)?;
        Ok(Started {
            state: ControllerState {
                me,
                mail,
                actors: begun.actors,
            },
            entries: begun.entries,
        })
    }

    /// Takes the memory for the next message that is fetched, whichever it is: for its place, and for the copy
    /// of its numbers in the entry.
    pub fn make_room(&mut self) -> Result<(), AllocError>
        ensures { self.new ≡ self.old }
    {
        self.mail.make_room()
    }

    /// Fetches a message. After want of memory nothing has changed.
    pub fn fetch(&mut self, m: Msg) -> Result<Entry, AllocError>
        requires { m.prio.0 < 6 }
        ensures ok { IfOk result (λ e. (plant : AnyPlant) → Makes plant self.old self.new e) }
        ensures mail { IfOk result (λ e. fetch (alone self.old.mail) m ≡ (alone self.new.mail, e)) }
        ensures others { self.new ≡ record self.old { mail = self.new.mail } }
        ensures of { (plant : AnyPlant) → IsStateOf plant self.old → IsStateOf plant self.new }
        ensures err { OnErr result (self.new ≡ self.old) }
    {
        self.mail.fetch(m)
    }

    /// Takes a turn: of the pending lists from priority 0 to 5 the first that isn't empty gives its front,
    /// which is treated to completion. None exactly where all pending lists are empty. After want of memory
    /// the state is unspecified.
    pub fn turn(&mut self, plant: &Plant) -> Result<Option<Entry>, AllocError>
        requires of { IsStateOf plant.now self.old }
        requires outbox { self.old.mail.outbox ≡ [] }
        ensures ok { IfOk result (λ o.
            MatchOption o
            ((next_of (pending_of self.old.mail.pending) ≡ None) × (self.new ≡ self.old))
            (λ e. Makes plant.now self.old self.new e)) }
        ensures turn { IfOk result (λ o.
            IfSome o (λ e. TakesTurn (length plant.now.wiring.controllers) self.old self.new e)) }
        ensures me { self.new.me ≡ self.old.me }
        ensures of { OnOk result (IsStateOf plant.now self.new) }
    {
        let Some(m) = self.mail.take_next() else {
            return Ok(None);
        };
        let (from, sent) = (m.from, m.stamp);
        match self.actors.treat(plant, self.me, m) {
            Ok(done) => match self.mail.end_turn(from, sent, done) {
                Ok(entry) => Ok(Some(entry)),
                Err(refused) => Err(refused),
            },
            Err(refused) => Err(refused),
        }
    }

    /// Posts the front of the outbox, if there is one. After want of memory nothing has changed.
    pub fn post(&mut self) -> Result<Option<Posted>, AllocError>
        ensures made { IfOk result (λ o.
            MatchOption o (self.old.mail.outbox ≡ [])
            (λ p. (plant : AnyPlant) → Makes plant self.old self.new p.entry)) }
        ensures mail { IfOk result (λ o.
            post self.old.me.0 (alone self.old.mail)
            ≡ option_map (λ p. (alone self.new.mail, p.entry)) o) }
        ensures others { self.new ≡ record self.old { mail = self.new.mail } }
        ensures entry { IfOk result (λ o.
            IfSome o (λ p. p.entry ≡ entry.Post p.message.stamp p.message)) }
        ensures none { IfOk result (λ o. IfNone o (self.new ≡ self.old)) }
        ensures of { (plant : AnyPlant) → IsStateOf plant self.old → IsStateOf plant self.new }
        ensures err { OnErr result (self.new ≡ self.old) }
    {
        self.mail.post(self.me)
    }

    /// The controller's number. It takes no memory.
    pub fn me(&self) -> ControllerId
        ensures { result ≡ self.now.me }
    {
        self.me
    }

    /// What waits in its mail, its clock and its number of turns. It takes no memory.
    pub fn mail(&self) -> &MailQueues
        ensures { result.now ≡ self.now.mail }
    {
        &self.mail
    }

    /// Its actors. It takes no memory.
    pub fn actors(&self) -> &Actors
        ensures { result.now ≡ self.now.actors }
    {
        &self.actors
    }

    /// The messages that wait for their turn: those of lower priorities first, and of one priority the oldest
    /// first. There are six priorities. After want of memory they are given up.
    pub fn into_pending(self) -> Result<Vec<Msg>, AllocError>
        ensures pending { IfOk result (λ all. all.items ≡ messages_in self.mail.pending) }
        ensures six { IfOk result (λ all. length self.mail.pending ≡ 6) }
    {
        self.mail.into_pending()
    }
}
