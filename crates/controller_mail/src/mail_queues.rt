//! A controller's mail without its journal.
ghost use Rattle.std.specs.Prelude.{◌≡◌, ◌<◌, ◌≤◌, ◌==◌, ◌↔◌, [], not, length, replicate, slice_get, option_copied, option_map, IsTrue, IfOk, OnErr, IfNone, IfSome, MatchOption, All, None};
ghost use Rattle.std.specs.List.{list_any};
ghost use Rattle.journal.specs.declared.entry.Entry.TheVariants as entry;
ghost use Rattle.actor_merge.specs.Parties.{next_of, fetch, post};
ghost use Rattle.controller_mail.specs.MailState.{pending_of, messages_in, has_messages, HasPriority};
ghost use Rattle.controller_mail.specs.Queues.{alone, end_turn, TakesOut};

use crate::clock::{later, stamped};
use crate::pending::Pending;
use crate::queue::Queue;
use journal::{Did, Entry};
use room_kinds::{ControllerId, Msg, Notes, Outbox, Payload, Sequence, Stamp};
use std::alloc::{AllocError, Global};
use std::marker::Model;

/// What a turn made of its message.
#[derive(Drop)]
pub struct TurnResult {
    /// The messages for the outbox, in order.
    pub sent: Outbox,
    /// The deferred messages that come back, first the one that will be in front.
    pub back: Sequence<Msg>,
    pub did: Did,
    pub notes: Notes,
}

/// A message that is posted, as it goes on its way, and the entry of its post.
#[derive(Drop)]
pub struct Posted {
    pub message: Msg,
    pub entry: Entry,
}

/// A controller's clock, its number of turns, the messages that wait for their turn, and those that wait to
/// be posted. Each call gives the entry that it makes.
///
/// A turn is two calls: `take_next` gives the message, and `end_turn` says what was made of it.
#[derive(Drop)]
pub struct MailQueues {
    alloc: Global,
    clock: u64,
    turns: u64,
    pending: Pending,
    outbox: Queue,
    /// Memory for the numbers of a message, which is given back where a copy has none.
    spare: Vec<i64>,
}

impl Model for MailQueues {
    ghost use Rattle.std.specs.Prelude.{◌≤◌};
    ghost use Rattle.controller_mail.specs.Queues.{Queues};

    ghost Value = { Queues };

    ghost view = { λ q.
        record { clock = q.clock; turns = q.turns; pending = q.pending; outbox = q.outbox } };

    ghost invariant = { λ q. q.turns ≤ q.clock };
}

/// A copy of a message. Where there is no memory for it, it has what was kept for it.
fn copy_of(alloc: Global, m: &Msg, spare: &mut Vec<i64>) -> Result<Msg, AllocError>
    ensures { IfOk result (λ copy. copy ≡ m.now) }
{
    match m.copy(alloc) {
        Ok(copy) => Ok(copy),
        Err(_refused) => {
            *spare = Vec::new(alloc);
            m.copy(alloc)
        }
    }
}

impl MailQueues {
    /// The queues of a controller that has started: its actors sent these messages. Its clock is 0, and
    /// nothing is pending.
    pub fn started(alloc: Global, sent: Outbox) -> Result<MailQueues, AllocError>
        ensures { IfOk result (λ q.
            q ≡ record { clock = 0; turns = 0; pending = replicate 6 []; outbox = sent }) }
    {
        let pending = Pending::new(alloc)?;
        Ok(MailQueues {
            alloc,
            clock: 0,
            turns: 0,
            pending,
            outbox: Queue::of(sent.into_vec()),
            spare: Vec::new(alloc),
        })
    }

    /// Takes the memory for the next message that is fetched, whichever it is: for its place in a pending
    /// list, and for the copy of its numbers in the entry.
    pub fn make_room(&mut self) -> Result<(), AllocError>
        ensures { self.new ≡ self.old }
    {
        self.spare.reserve(Payload::MAX_LEN)?;
        self.pending.make_room()
    }

    /// Fetches a message: it goes to the back of the pending list of its priority. It is stamped one
    /// more than the greater of the clock and its own stamp. After want of memory nothing has changed.
    pub fn fetch(&mut self, m: Msg) -> Result<Entry, AllocError>
        requires { m.prio.0 < 6 }
        ensures ok { IfOk result (λ e. fetch (alone self.old) m ≡ (alone self.new, e)) }
        ensures err { OnErr result (self.new ≡ self.old) }
    {
        let stamp = later(self.clock.max(m.stamp.0))?;
        let msg = copy_of(self.alloc, &m, &mut self.spare)?;
        self.pending.add(m)?;
        self.clock = stamp;
        Ok(Entry::Fetch {
            stamp: Stamp(stamp),
            msg,
        })
    }

    /// Takes out the message whose turn it is: of the pending lists from priority 0 to 5 the first that
    /// isn't empty gives its front. It takes no memory.
    pub fn take_next(&mut self) -> Option<Msg>
        ensures { MatchOption result
            ((next_of (pending_of self.old.pending) ≡ None) × (self.new ≡ self.old))
            (λ m. TakesOut self.old self.new m) }
    {
        self.pending.take_next()
    }

    /// Ends the turn of the message that `from` stamped `sent`: what the turn sent is the outbox, and
    /// the deferred messages that came back stand in front of their lists. After want of memory the
    /// queues are unspecified: the controller has failed.
    pub fn end_turn(
        &mut self,
        from: ControllerId,
        sent: Stamp,
        done: TurnResult,
    ) -> Result<Entry, AllocError>
        requires { All HasPriority done.back }
        ensures { IfOk result (λ e.
            end_turn (alone self.old) from sent
            (record { sent = done.sent; back = done.back; did = done.did; notes = done.notes })
            ≡ (alone self.new, e)) }
    {
        let stamp = later(self.clock)?;
        self.pending.put_back(done.back.into_vec())?;
        self.outbox = Queue::of(done.sent.into_vec());
        self.clock = stamp;
        self.turns += 1;
        Ok(Entry::Turn {
            stamp: Stamp(stamp),
            from,
            sent,
            did: done.did,
            notes: done.notes,
        })
    }

    /// Posts the front of the outbox, if there is one, as controller `me`. After want of memory nothing has
    /// changed.
    pub fn post(&mut self, me: ControllerId) -> Result<Option<Posted>, AllocError>
        ensures ok { IfOk result (λ o.
            post me.0 (alone self.old) ≡ option_map (λ p. (alone self.new, p.entry)) o) }
        ensures entry { IfOk result (λ o.
            IfSome o (λ p. p.entry ≡ entry.Post p.message.stamp p.message)) }
        ensures none { IfOk result (λ o. IfNone o (self.new ≡ self.old)) }
        ensures err { OnErr result (self.new ≡ self.old) }
    {
        let Some(front) = self.outbox.front() else {
            return Ok(None);
        };
        let stamp = later(self.clock)?;
        let msg = stamped(front.copy(self.alloc)?, me, stamp);
        let Some(posted) = self.outbox.pop_front() else {
            return Ok(None);
        };
        self.clock = stamp;
        Ok(Some(Posted {
            message: stamped(posted, me, stamp),
            entry: Entry::Post {
                stamp: Stamp(stamp),
                msg,
            },
        }))
    }

    /// The greatest stamp so far. It takes no memory.
    pub fn clock(&self) -> u64
        ensures { result ≡ self.now.clock }
    {
        self.clock
    }

    /// The number of turns taken. It takes no memory.
    pub fn turns(&self) -> u64
        ensures { result ≡ self.now.turns }
    {
        self.turns
    }

    /// Whether as many turns were taken as the fuel allows. It takes no memory.
    pub fn is_spent(&self, fuel: u64) -> bool
        ensures { IsTrue result ↔ (fuel ≤ self.now.turns) }
    {
        fuel <= self.turns
    }

    /// Whether a message waits for its turn, at one of the six priorities. It takes no memory.
    pub fn has_pending(&self) -> bool
        ensures waits { result ≡ list_any has_messages self.now.pending }
        ensures six { length self.now.pending ≡ 6 }
    {
        self.pending.has_messages()
    }

    /// One of the messages that wait for their turn at a priority, by how many of that priority are older;
    /// none waits at a priority that isn't there. It takes no memory.
    pub fn waiting(&self, prio: u8, i: usize) -> Option<&Msg>
        ensures { option_copied result ≡ slice_get (pending_of self.now.pending prio) i }
    {
        self.pending.get(prio, i)
    }

    /// One of the messages that wait to be posted, by how many go before it. It takes no memory.
    pub fn outgoing(&self, i: usize) -> Option<&Msg>
        ensures { option_copied result ≡ slice_get self.now.outbox i }
    {
        self.outbox.get(i)
    }

    /// Whether a message waits to be posted. It takes no memory.
    pub fn has_outbox(&self) -> bool
        ensures { result ≡ not (length self.now.outbox == 0) }
    {
        !self.outbox.is_empty()
    }

    /// The messages that wait for their turn: those of lower priorities first, and of one priority the
    /// oldest first. There are six priorities. After want of memory they are given up.
    pub fn into_pending(self) -> Result<Vec<Msg>, AllocError>
        ensures pending { IfOk result (λ all. all.items ≡ messages_in self.pending) }
        ensures six { IfOk result (λ all. length self.pending ≡ 6) }
    {
        self.pending.into_messages(self.alloc)
    }
}
