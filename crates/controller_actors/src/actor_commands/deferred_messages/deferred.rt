//! The messages that an actor keeps.
ghost use Rattle.std.specs.Prelude.{◌≡◌, ◌∷◌, ◌++◌, [], length, slice_get, option_copied, OnOk, MatchOption};
ghost use Rattle.actor_duties.specs.Commands.{defer, recall, recall_all};
ghost use Rattle.controller_actors.specs.actor_commands.deferred_messages.Steps.{Applies};

use crate::actor_commands::deferred_messages::queue::Recalled;
use room_kinds::{Msg, Note, Notes};
use std::alloc::{AllocError, Global};
use std::collections::VecDeque;
use std::marker::Model;

/// The messages that an actor keeps for later, oldest first.
///
/// After want of memory what is kept, what comes back and the notes are unspecified: the controller has
/// failed.
#[derive(Drop)]
pub struct DeferredMessages {
    messages: VecDeque<Msg>,
}

impl Model for DeferredMessages {
    ghost use Rattle.std.specs.Prelude.{List};
    ghost use Rattle.room_kinds.specs.declared.message.Msg.{Msg};

    ghost Value = { List Msg };

    ghost view = { λ d. d.messages.items };
}

impl DeferredMessages {
    /// Nothing is kept. It takes no memory.
    pub fn new(alloc: Global) -> DeferredMessages
        ensures { result ≡ [] }
    {
        DeferredMessages {
            messages: VecDeque::new(alloc),
        }
    }

    /// How many messages are kept: so many are lost where the actor ends. It takes no memory.
    pub fn len(&self) -> usize
        ensures { result ≡ length self.now }
    {
        self.messages.len()
    }

    /// One of the messages that are kept, by how many are older. It takes no memory.
    pub fn get(&self, i: usize) -> Option<&Msg>
        ensures { option_copied result ≡ slice_get self.now i }
    {
        self.messages.get(i)
    }

    fn keep(&mut self, m: Msg) -> Result<(), AllocError>
        ensures { OnOk result (self.new ≡ self.old ++ m ∷ []) }
    {
        self.messages.push_back(m)?;
        Ok(())
    }

    fn take_oldest(&mut self) -> Option<Msg>
        ensures { MatchOption result ((self.old ≡ []) × (self.new ≡ []))
            (λ m. self.old ≡ m ∷ self.new) }
    {
        self.messages.pop_front()
    }

    fn take_newest(&mut self) -> Option<Msg>
        ensures { MatchOption result ((self.old ≡ []) × (self.new ≡ []))
            (λ m. self.old ≡ self.new ++ m ∷ []) }
    {
        self.messages.pop_back()
    }

    /// `defer`: the message in hand goes to the end of what is kept. Where the chain has deferred it
    /// already (`kept`), nothing is done; without a message the note `nomessage` is made.
    #[tactic(auto, using(crate::proofs::actor_commands::deferred_messages::Kept::kept_now))]
    pub fn defer(
        &mut self,
        kept: bool,
        message: Option<Msg>,
        notes: &mut Notes,
    ) -> Result<(), AllocError>
        ensures { OnOk result (Applies (defer kept message self.old) self.new [] [] notes.old
            notes.new) }
    {
        if kept {
            return Ok(());
        }
        match message {
            Some(m) => self.keep(m),
            None => {
                notes.push(Note::NoMessage)?;
                Ok(())
            }
        }
    }

    /// `recall`: the oldest message that is kept comes back, with a note that says how many did, 1 or 0.
    pub fn recall(&mut self, back: &mut Recalled, notes: &mut Notes) -> Result<(), AllocError>
        ensures { OnOk result (Applies (recall self.old) self.new back.old back.new notes.old
            notes.new) }
    {
        match self.take_oldest() {
            Some(m) => {
                back.put_in_front(m)?;
                notes.push(Note::Recall { count: 1 })?;
                Ok(())
            }
            None => {
                notes.push(Note::Recall { count: 0 })?;
                Ok(())
            }
        }
    }

    /// Moves all that is kept before what came back earlier, in order.
    fn move_to(&mut self, back: &mut Recalled) -> Result<(), AllocError>
        ensures back { OnOk result (back.new ≡ self.old ++ back.old) }
        ensures none { OnOk result (self.new ≡ []) }
    {
        while let Some(m) = self.take_newest() {
            back.put_in_front(m)?;
        }
        Ok(())
    }

    /// `recallAll`: all messages that are kept come back, in order, with a note that says how many did.
    pub fn recall_all(&mut self, back: &mut Recalled, notes: &mut Notes) -> Result<(), AllocError>
        ensures { OnOk result (Applies (recall_all self.old) self.new back.old back.new notes.old
            notes.new) }
    {
        let count = self.len() as u64;
        self.move_to(back)?;
        notes.push(Note::Recall { count })?;
        Ok(())
    }
}
