//! The messages that come back.
ghost use Rattle.std.specs.Prelude.{◌≡◌, ◌∷◌, [], OnOk, OnErr};

use room_kinds::{Msg, Sequence};
use std::alloc::{AllocError, Global};
use std::collections::VecDeque;
use std::marker::Model;

/// The messages that come back to the pending lists in a turn, first the one that will be in front.
#[derive(Drop)]
pub struct Recalled {
    messages: VecDeque<Msg>,
}

impl Model for Recalled {
    ghost use Rattle.std.specs.Prelude.{List};
    ghost use Rattle.room_kinds.specs.declared.message.Msg.{Msg};

    ghost Value = { List Msg };

    ghost view = { λ q. q.messages.items };
}

impl Recalled {
    /// Nothing comes back yet. It takes no memory.
    pub fn new(alloc: Global) -> Recalled
        ensures { result ≡ [] }
    {
        Recalled {
            messages: VecDeque::new(alloc),
        }
    }

    /// A message comes back before those that came back earlier.
    pub(crate) fn put_in_front(&mut self, m: Msg) -> Result<(), AllocError>
        ensures ok { OnOk result (self.new ≡ m ∷ self.old) }
        ensures err { OnErr result (self.new ≡ self.old) }
    {
        self.messages.push_front(m)?;
        Ok(())
    }

    /// The messages in order, with no copy.
    pub fn into_sequence(self) -> Sequence<Msg>
        ensures { result ≡ self }
    {
        Sequence::from(self.messages.into_vec())
    }
}
