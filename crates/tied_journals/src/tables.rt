//! The posts of each party by their stamps.
ghost use Rattle.std.specs.Prelude.{◌≡◌, ℕ, ◌==◌, ◌∷◌, ◌++◌, [], None, if◌then◌else◌, option_map, IfOk, OnOk};
ghost use Rattle.journal.specs.declared.entry.Journals.{Journals};
ghost use Rattle.tied_journals.specs.Tied.{posted_by};
ghost use Rattle.tied_journals.specs.PostTables.{kept_at, with_post, with_posts, IsTableOf, only_post, only_of, ArePostsOf};

use journal::{Entry, Journals};
use room_kinds::{ControllerId, Msg, Stamp};
use std::alloc::{AllocError, Global};
use std::collections::HashMap;

/// What a party posted at one stamp.
#[derive(Clone, Copy)]
pub enum Posted<'a> {
    /// One message.
    Once(&'a Msg),
    /// Several messages, as no clock allows.
    Often,
}

/// What a party posted, by stamp.
#[derive(Drop)]
pub struct PartyPosts<'a> {
    by_stamp: HashMap<u64, Posted<'a>>,
}

impl<'a> PartyPosts<'a> {
    /// No posts. It takes no memory.
    #[tactic(auto, unfolding(crate::specs::PostTables::kept_at))]
    fn new(alloc: Global) -> Self
        ensures { (sent : ℕ) → kept_at result sent ≡ None }
    {
        PartyPosts {
            by_stamp: HashMap::new(alloc),
        }
    }

    /// One more post.
    #[tactic(auto, unfolding(crate::specs::PostTables::kept_at))]
    fn add(&mut self, stamp: Stamp, msg: &'a Msg) -> Result<(), AllocError>
        ensures { OnOk result ((sent : ℕ) → kept_at self.new sent
            ≡ (if stamp.0 == sent then with_post (kept_at self.old sent) msg.now
            else kept_at self.old sent)) }
    {
        let posted = match self.by_stamp.get(&stamp.0) {
            Some(_) => Posted::Often,
            None => Posted::Once(msg),
        };
        self.by_stamp.insert(stamp.0, posted)?;
        Ok(())
    }

    /// The message of the only post at a stamp.
    #[tactic(auto, unfolding(crate::specs::PostTables::kept_at))]
    fn only(&self, stamp: Stamp) -> Option<&'a Msg>
        ensures { option_map (λ m. m.now) result ≡ only_of (kept_at self.now stamp.0) }
    {
        match self.by_stamp.get(&stamp.0) {
            Some(Posted::Once(msg)) => Some(*msg),
            Some(Posted::Often) => None,
            None => None,
        }
    }

    /// What an entry posts, if it posts.
    fn add_entry(&mut self, entry: &'a Entry) -> Result<(), AllocError>
        ensures { OnOk result ((sent : ℕ) → kept_at self.new sent
            ≡ with_posts (kept_at self.old sent) (posted_by sent entry.now)) }
    {
        match entry {
            Entry::Post { stamp, msg } => self.add(*stamp, msg),
            Entry::Start { .. } => Ok(()),
            Entry::Fetch { .. } => Ok(()),
            Entry::Turn { .. } => Ok(()),
        }
    }

    /// The posts of a journal.
    fn of(alloc: Global, entries: &'a [Entry]) -> Result<Self, AllocError>
        ensures { IfOk result (λ table. IsTableOf table entries.now) }
    {
        let mut table = PartyPosts::new(alloc);
        for entry in entries {
            table.add_entry(entry)?;
        }
        Ok(table)
    }
}

/// What each party posted, by stamp.
#[derive(Drop)]
pub struct Posts<'a> {
    /// By the number of the party; the environment is the last.
    parties: Vec<PartyPosts<'a>>,
}

impl<'a> Posts<'a> {
    /// The posts of journals. It takes time and memory in proportion to them.
    pub fn of(alloc: Global, journals: &'a Journals) -> Result<Self, AllocError>
        ensures { IfOk result (λ posts. ArePostsOf posts journals.now) }
    {
        let mut parties = Vec::new(alloc);
        for journal in journals.controllers.as_slice() {
            parties.push(PartyPosts::of(alloc, journal.as_slice())?)?;
        }
        parties.push(PartyPosts::of(alloc, journals.environment.as_slice())?)?;
        Ok(Posts { parties })
    }

    /// The message of the only post of a party at a stamp, if there is one post alone.
    pub fn only(&self, party: ControllerId, sent: Stamp) -> Option<&'a Msg>
        ensures { (j : Journals) → ArePostsOf self.now j
            → option_map (λ m. m.now) result ≡ only_post j party.0 sent.0 }
    {
        match self.parties.get(usize::from(party.0)) {
            Some(table) => table.only(sent),
            None => None,
        }
    }
}
