//! What a turn puts out.
ghost use Rattle.std.specs.Prelude.{◌≡◌, []};

use crate::actor_commands::deferred_messages::Recalled;
use controller_mail::TurnResult;
use journal::Did;
use room_kinds::{Notes, Outbox};
use std::alloc::Global;

/// What a turn or a start has put out so far: the messages that were sent, the notes, and the deferred
/// messages that come back, first the one that will be in front.
#[derive(Drop)]
pub struct Output {
    pub messages: Outbox,
    pub notes: Notes,
    pub back: Recalled,
}

impl Output {
    /// These notes are told, nothing is sent yet, and nothing comes back. It takes no memory.
    pub(crate) fn new(alloc: Global, notes: Notes) -> Output
        ensures { result ≡ record { messages = []; notes = notes; back = [] } }
    {
        Output {
            messages: Outbox::new(alloc),
            notes,
            back: Recalled::new(alloc),
        }
    }

    /// What a turn that put this out made of its message, with no copy.
    pub(crate) fn into_turn_result(self, did: Did) -> TurnResult
        ensures { result ≡ record {
          sent = self.messages;
          back = self.back;
          did = did;
          notes = self.notes;
        } }
    {
        let Output {
            messages,
            notes,
            back,
        } = self;
        TurnResult {
            sent: messages,
            back: back.into_sequence(),
            did,
            notes,
        }
    }
}
