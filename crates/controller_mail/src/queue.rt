//! Messages that wait.
ghost use Rattle.std.specs.Prelude.{◌≡◌, ◌==◌, ◌∷◌, ◌++◌, [], length, slice_get, option_copied, OnOk, OnErr, MatchOption};

use room_kinds::Msg;
use std::alloc::{AllocError, Global};
use std::collections::VecDeque;
use std::marker::Model;

/// Messages that wait, oldest first. Contracts see it as a list.
#[derive(Drop)]
pub struct Queue {
    messages: VecDeque<Msg>,
}

impl Model for Queue {
    ghost use Rattle.std.specs.Prelude.{List};
    ghost use Rattle.room_kinds.specs.declared.message.Msg.{Msg};

    ghost Value = { List Msg };

    ghost view = { λ q. q.messages.items };
}

impl Queue {
    ghost use Rattle.std.specs.Prelude.{IsSome, IfSome, ◌↔◌, ◌<◌, slice_index_or};

    /// No messages. It takes no memory.
    pub(crate) fn new(alloc: Global) -> Queue
        ensures { result ≡ [] }
    {
        Queue {
            messages: VecDeque::new(alloc),
        }
    }

    /// These messages, with no copy.
    pub(crate) fn of(messages: Vec<Msg>) -> Queue
        ensures { result ≡ messages.items }
    {
        Queue {
            messages: VecDeque::from_vec(messages),
        }
    }

    pub(crate) fn is_empty(&self) -> bool
        ensures { result ≡ (length self.now == 0) }
    {
        self.messages.is_empty()
    }

    /// The oldest message.
    pub(crate) fn front(&self) -> Option<&Msg>
        ensures some { IsSome result ↔ (0 < length self.now) }
        ensures first { IfSome result (λ m. m.now ≡ slice_index_or self.now 0 m.now) }
    {
        self.messages.front()
    }

    /// One of the messages, by how many are older.
    pub(crate) fn get(&self, i: usize) -> Option<&Msg>
        ensures { option_copied result ≡ slice_get self.now i }
    {
        self.messages.get(i)
    }

    /// Takes the memory for one message more.
    pub(crate) fn make_room(&mut self) -> Result<(), AllocError>
        ensures { self.new ≡ self.old }
    {
        self.messages.reserve(1)
    }

    pub(crate) fn push_back(&mut self, m: Msg) -> Result<(), AllocError>
        ensures ok { OnOk result (self.new ≡ self.old ++ m ∷ []) }
        ensures err { OnErr result (self.new ≡ self.old) }
    {
        self.messages.push_back(m)?;
        Ok(())
    }

    pub(crate) fn push_front(&mut self, m: Msg) -> Result<(), AllocError>
        ensures ok { OnOk result (self.new ≡ m ∷ self.old) }
        ensures err { OnErr result (self.new ≡ self.old) }
    {
        self.messages.push_front(m)?;
        Ok(())
    }

    pub(crate) fn pop_front(&mut self) -> Option<Msg>
        ensures { MatchOption result ((self.old ≡ []) × (self.new ≡ []))
            (λ m. self.old ≡ m ∷ self.new) }
    {
        self.messages.pop_front()
    }

    /// Moves the messages to the end of a list.
    pub(crate) fn move_to(mut self, all: &mut Vec<Msg>) -> Result<(), AllocError>
        ensures { OnOk result (all.new.items ≡ all.old.items ++ self) }
    {
        while let Some(m) = self.pop_front() {
            all.push(m)?;
        }
        Ok(())
    }
}
