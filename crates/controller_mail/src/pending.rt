//! The messages that wait for their turn, by priority.
ghost use Rattle.std.specs.Prelude.{◌≡◌, ◌<◌, ◌∷◌, ◌++◌, [], length, replicate, slice_get, option_copied, OnOk, OnErr, IfOk, MatchOption, All, None, position};
ghost use Rattle.room_kinds.specs.declared.message.Msg.{Msg};
ghost use Rattle.std.specs.List.{list_any};
ghost use Rattle.actor_merge.specs.Parties.{put, put_back, next_of};
ghost use Rattle.controller_mail.specs.MailState.{pending_of, messages_in, has_messages, HasPriority};
ghost use Rattle.controller_mail.specs.Steps.{TakesFront};

use crate::queue::Queue;
use room_kinds::Msg;
use std::alloc::{AllocError, Global};
use std::marker::Model;

/// Six lists of messages, one for each priority from 0 to 5, oldest first.
#[derive(Drop)]
pub struct Pending {
    lists: Vec<Queue>,
}

impl Model for Pending {
    ghost use Rattle.std.specs.Prelude.{List};
    ghost use Rattle.room_kinds.specs.declared.message.Msg.{Msg};
    ghost use Rattle.controller_mail.specs.MailState.{IsRanked};

    ghost Value = { List (List Msg) };

    ghost view = { λ p. p.lists.items };

    ghost invariant = { λ p. IsRanked p.lists.items };
}

fn empty_lists(alloc: Global) -> Result<Vec<Queue>, AllocError>
    ensures { IfOk result (λ lists. lists.items ≡ replicate 6 []) }
{
    let mut lists = Vec::new(alloc);
    for _prio in 0..6u8 {
        lists.push(Queue::new(alloc))?;
    }
    Ok(lists)
}

/// Takes the memory for one message more in each of some lists.
fn make_room_in_each(lists: &mut Vec<Queue>) -> Result<(), AllocError>
    ensures { lists.new.items ≡ lists.old.items }
{
    for i in 0..lists.len() {
        lists[i].make_room()?;
    }
    Ok(())
}

impl Pending {
    /// No messages.
    #[tactic(auto, using(crate::proofs::Pendings::pending_steps))]
    pub(crate) fn new(alloc: Global) -> Result<Pending, AllocError>
        ensures { IfOk result (λ p. p ≡ replicate 6 []) }
    {
        let lists = empty_lists(alloc)?;
        Ok(Pending { lists })
    }

    /// Takes the memory for one message more at each priority.
    pub(crate) fn make_room(&mut self) -> Result<(), AllocError>
        ensures { self.new ≡ self.old }
    {
        make_room_in_each(&mut self.lists)
    }

    /// Adds a message behind those of its priority.
    pub(crate) fn add(&mut self, m: Msg) -> Result<(), AllocError>
        requires { m.prio.0 < 6 }
        ensures ok { OnOk result (pending_of self.new
            ≡ put (pending_of self.old) m.prio.0 (pending_of self.old m.prio.0 ++ m ∷ [])) }
        ensures err { OnErr result (self.new ≡ self.old) }
    {
        let list = &mut self.lists[usize::from(m.prio.0)];
        list.push_back(m)
    }

    /// Puts a message before those of its priority.
    fn put_in_front(&mut self, m: Msg) -> Result<(), AllocError>
        requires { m.prio.0 < 6 }
        ensures ok { OnOk result (pending_of self.new
            ≡ put (pending_of self.old) m.prio.0 (m ∷ pending_of self.old m.prio.0)) }
        ensures err { OnErr result (self.new ≡ self.old) }
    {
        let list = &mut self.lists[usize::from(m.prio.0)];
        list.push_front(m)
    }

    /// Puts messages back in front, each before those of its priority, in order.
    pub(crate) fn put_back(&mut self, mut back: Vec<Msg>) -> Result<(), AllocError>
        requires { All HasPriority back.items }
        ensures { OnOk result (pending_of self.new ≡ put_back back.items (pending_of self.old)) }
    {
        while let Some(m) = back.pop() {
            self.put_in_front(m)?;
        }
        Ok(())
    }

    /// The lowest priority at which a message waits.
    fn first_list(&self) -> Option<usize>
        ensures { result ≡ position has_messages self.now }
    {
        self.lists.iter().position(|list| !list.is_empty())
    }

    /// Whether a message waits.
    pub(crate) fn has_messages(&self) -> bool
        ensures waits { result ≡ list_any has_messages self.now }
        ensures six { length self.now ≡ 6 }
    {
        self.lists.iter().any(|list| !list.is_empty())
    }

    /// One of the messages of a priority, by how many of that priority are older.
    pub(crate) fn get(&self, prio: u8, i: usize) -> Option<&Msg>
        ensures { option_copied result ≡ slice_get (pending_of self.now prio) i }
    {
        match self.lists.as_slice().get(usize::from(prio)) {
            Some(list) => list.get(i),
            None => None,
        }
    }

    /// Takes out the message whose turn it is: the front of the lowest list that has messages.
    pub(crate) fn take_next(&mut self) -> Option<Msg>
        ensures { MatchOption result
            ((next_of (pending_of self.old) ≡ None) × (self.new ≡ self.old))
            (λ m. TakesFront self.old self.new m) }
    {
        let Some(at) = self.first_list() else {
            return None;
        };
        let list = &mut self.lists[at];
        list.pop_front()
    }

    /// All messages, those of lower priorities first, and of one priority the oldest first.
    pub(crate) fn into_messages(self, alloc: Global) -> Result<Vec<Msg>, AllocError>
        ensures all { IfOk result (λ all. all.items ≡ messages_in self) }
        ensures six { IfOk result (λ all. length self ≡ 6) }
    {
        let Pending { lists } = self;
        all_messages(alloc, lists)
    }
}

/// The messages of some lists, one list after another.
fn all_messages(alloc: Global, mut lists: Vec<Queue>) -> Result<Vec<Msg>, AllocError>
    ensures { IfOk result (λ all. all.items ≡ messages_in lists.items) }
{
    let mut all = Vec::new(alloc);
    lists.reverse();
    while let Some(list) = lists.pop() {
        list.move_to(&mut all)?;
    }
    Ok(all)
}
