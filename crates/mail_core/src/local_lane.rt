//! Mail on one thread.
ghost use Rattle.std.specs.Prelude.{ℕ, List, ◌≡◌, ◌+◌, ◌*◌, ◌<◌, ◌≤◌, ◌^◌, ◌++◌, ◌∷◌, [], map, length, vec_len, slice_get, slice_set, slice_index_or, OnOk, OnErr, IfOk, IfErr, IfSome, IfNone, MatchOption};

use room_kinds::Msg;
use std::alloc::{AllocError, Global};
use std::collections::{LinkedList, VecDeque};
use std::marker::Model;

/// A message on its way, with the copy that its receiver will keep.
#[derive(Drop)]
pub struct MessageWithCopy {
    message: Msg,
    copy: LinkedList<Msg>,
}

impl Model for MessageWithCopy {
    ghost use Rattle.std.specs.Prelude.{◌≡◌, List, ◌∷◌, []};
    ghost use Rattle.room_kinds.specs.declared.message.Msg.{Msg};

    ghost Value = { Msg };

    ghost view = { λ s. s.message };

    ghost invariant = { λ s. s.copy ≡ s.message ∷ [] };
}

impl MessageWithCopy {
    /// The message, and its copy.
    pub(crate) fn open(self) -> (Msg, LinkedList<Msg>)
        ensures message { result.0 ≡ self }
        ensures copy { result.1 ≡ self ∷ [] }
    {
        let MessageWithCopy { message, copy } = self;
        (message, copy)
    }

    pub(crate) fn new(alloc: Global, message: Msg) -> Result<MessageWithCopy, Msg>
        ensures ok { IfOk result (λ s. s ≡ message) }
        ensures err { IfErr result (λ m. m ≡ message) }
    {
        let Ok(copy) = message.copy(alloc) else {
            return Err(message);
        };
        let mut list = LinkedList::new(alloc);
        if list.push_back(copy).is_err() {
            return Err(message);
        }
        Ok(MessageWithCopy {
            message,
            copy: list,
        })
    }
}

/// The messages of one lane, oldest first.
#[derive(Drop)]
pub struct Lane {
    entries: VecDeque<MessageWithCopy>,
}

impl Model for Lane {
    ghost use Rattle.std.specs.Prelude.{List};
    ghost use Rattle.room_kinds.specs.declared.message.Msg.{Msg};

    ghost Value = { List Msg };

    ghost view = { λ l. l.entries.items };
}

impl Lane {
    pub(crate) fn new(alloc: Global) -> Lane
        ensures { result ≡ [] }
    {
        Lane {
            entries: VecDeque::new(alloc),
        }
    }

    pub(crate) fn put(&mut self, entry: MessageWithCopy) -> Result<(), MessageWithCopy>
        ensures ok { OnOk result (self.new ≡ self.old ++ entry ∷ []) }
        ensures err { OnErr result (self.new ≡ self.old) }
        ensures back { IfErr result (λ s. s ≡ entry) }
    {
        match self.entries.push_back(entry) {
            Ok(()) => Ok(()),
            Err(refused) => Err(refused.value),
        }
    }

    pub(crate) fn pop(&mut self) -> Option<MessageWithCopy>
        ensures { MatchOption result ((self.old ≡ []) × (self.new ≡ []))
            (λ m. self.old ≡ m ∷ self.new) }
    {
        self.entries.pop_front()
    }
}
