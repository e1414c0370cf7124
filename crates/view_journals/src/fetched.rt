//! The messages that were fetched, found by what journals call them.
use indexmap::IndexMap;
use journal::{Entry, Journals};
use room_kinds::{ControllerId, Msg, Stamp};
use std::alloc::{AllocError, Global};

/// What journals call a message: its sender and the stamp of its post.
#[derive(Clone, Copy, Drop, PartialEq, Eq, Hash)]
pub struct Name {
    pub from: u8,
    pub sent: u64,
}

impl Name {
    pub fn new(from: ControllerId, sent: Stamp) -> Name {
        Name {
            from: from.0,
            sent: sent.0,
        }
    }
}

/// The messages that were fetched.
#[derive(Drop)]
pub struct Fetched<'a> {
    messages: IndexMap<Name, &'a Msg>,
}

impl<'a> Fetched<'a> {
    /// The messages that were fetched in these journals.
    pub fn of(alloc: Global, journals: &'a Journals) -> Result<Fetched<'a>, AllocError> {
        let mut messages = IndexMap::new(alloc);
        for journal in journals.controllers.as_slice() {
            for entry in journal.as_slice() {
                if let Entry::Fetch { msg, .. } = entry {
                    messages.insert(Name::new(msg.from, msg.stamp), msg)?;
                }
            }
        }
        Ok(Fetched { messages })
    }

    /// The message of a name.
    pub fn get(&self, name: Name) -> Option<&'a Msg> {
        self.messages.get(&name).copied()
    }
}
