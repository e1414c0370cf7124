//! Messages on their way.
ghost use Rattle.std.specs.Prelude.{◌≡◌, ℕ, ◌+◌, ◌*◌, ◌<◌, ◌≤◌, ◌↔◌, ◌==◌, ◌∷◌, ◌++◌, [], length, replicate, slice_get, option_copied, Some, None, IsTrue, IfOk, OnOk, OnErr, MatchOption, if◌then◌else◌};
ghost use Rattle.actor_merge.specs.Mail.{Lane, lane};
ghost use Rattle.controller_mail.specs.Within.{IsWithin};
ghost use Rattle.room_verify.specs.Lanes.{IsFetchable, PutsInto, TakesFrom, is_among, lanes_in, place_of};

use room_kinds::{ControllerId, Msg, Priority};
use std::alloc::{AllocError, Global};
use std::collections::VecDeque;
use std::marker::Model;

/// How many priorities there are.
const PRIORITIES: u8 = 6;

/// The messages of one lane, oldest first.
#[derive(Drop)]
pub struct LaneQueue {
    messages: VecDeque<Msg>,
}

impl Model for LaneQueue {
    ghost use Rattle.std.specs.Prelude.{List};
    ghost use Rattle.room_kinds.specs.declared.message.Msg.{Msg};

    ghost Value = { List Msg };

    ghost view = { λ q. q.messages.items };
}

impl LaneQueue {
    fn new(alloc: Global) -> LaneQueue
        ensures { result ≡ [] }
    {
        LaneQueue {
            messages: VecDeque::new(alloc),
        }
    }

    fn is_empty(&self) -> bool
        ensures { result ≡ (length self.now == 0) }
    {
        self.messages.is_empty()
    }

    fn get(&self, i: usize) -> Option<&Msg>
        ensures { option_copied result ≡ slice_get self.now i }
    {
        self.messages.get(i)
    }

    fn push(&mut self, m: Msg) -> Result<(), AllocError>
        ensures ok { OnOk result (self.new ≡ self.old ++ m ∷ []) }
        ensures err { OnErr result (self.new ≡ self.old) }
    {
        self.messages.push_back(m)?;
        Ok(())
    }

    fn pop(&mut self) -> Option<Msg>
        ensures { MatchOption result ((self.old ≡ []) × (self.new ≡ []))
            (λ m. self.old ≡ m ∷ self.new) }
    {
        self.messages.pop_front()
    }
}

/// The messages that are on their way between the controllers of a plant and its environment: for each lane a
/// queue, in the order of receiver, sender and priority.
#[derive(Drop)]
pub struct LaneTable {
    controllers: u8,
    queues: Vec<LaneQueue>,
}

impl Model for LaneTable {
    ghost use Rattle.room_verify.specs.Lanes.{AreLanes, LaneQueues};

    ghost Value = { LaneQueues };

    ghost view = { λ t. record { controllers = t.controllers; queues = t.queues.items } };

    ghost invariant = { λ t. AreLanes t.controllers t.queues.items };
}

/// Where the queue of a lane stands, if it is one of those between so many controllers and the environment.
fn place_of(
    controllers: u8,
    sender: ControllerId,
    receiver: ControllerId,
    prio: Priority,
) -> Option<usize>
    ensures { result ≡ (let at = lane sender.0 receiver.0 prio.0 in
        if is_among controllers at then Some (place_of controllers at) else None) }
{
    if receiver.0 < controllers && sender.0 <= controllers && prio.0 < PRIORITIES {
        let row = usize::from(receiver.0) * (usize::from(controllers) + 1);
        Some((row + usize::from(sender.0)) * usize::from(PRIORITIES) + usize::from(prio.0))
    } else {
        None
    }
}

/// So many queues without messages.
fn empty_queues(alloc: Global, count: usize) -> Result<Vec<LaneQueue>, AllocError>
    ensures { IfOk result (λ queues. queues.items ≡ replicate count []) }
{
    let mut queues = Vec::new(alloc);
    for _at in 0..count {
        queues.push(LaneQueue::new(alloc))?;
    }
    Ok(queues)
}

impl LaneTable {
    /// The lanes between so many controllers and the environment, with no message in any.
    pub(crate) fn new(alloc: Global, controllers: u8) -> Result<LaneTable, AllocError>
        ensures lanes { IfOk result (λ t. lanes_in t ≡ (λ l. [])) }
        ensures controllers { IfOk result (λ t. t.controllers ≡ controllers) }
    {
        let pairs = usize::from(controllers) * (usize::from(controllers) + 1);
        let queues = empty_queues(alloc, pairs * usize::from(PRIORITIES))?;
        Ok(LaneTable {
            controllers,
            queues,
        })
    }

    /// Takes out the front of a lane, if there is one.
    pub(crate) fn take(
        &mut self,
        sender: ControllerId,
        receiver: ControllerId,
        prio: Priority,
    ) -> Option<Msg>
        ensures { let at = lane sender.0 receiver.0 prio.0 in
            MatchOption result ((lanes_in self.old at ≡ []) × (self.new ≡ self.old))
            (λ m. TakesFrom self.old self.new at m) }
    {
        let Some(place) = place_of(self.controllers, sender, receiver, prio) else {
            return None;
        };
        let queue = &mut self.queues[place];
        queue.pop()
    }

    /// Puts a message to a controller at the back of its lane.
    pub(crate) fn put(&mut self, m: Msg) -> Result<(), AllocError>
        requires within { IsWithin self.old.controllers m }
        requires from { m.from.0 ≤ self.old.controllers }
        requires fetchable { IsFetchable self.old.controllers m }
        ensures { OnOk result (PutsInto self.old self.new m) }
    {
        let Some(place) = place_of(self.controllers, m.from, m.to, m.prio) else {
            unreachable!()
        };
        let queue = &mut self.queues[place];
        queue.push(m)
    }

    /// One of the messages in a lane, by how many are older.
    pub(crate) fn message(
        &self,
        sender: ControllerId,
        receiver: ControllerId,
        prio: Priority,
        i: usize,
    ) -> Option<&Msg>
        ensures { option_copied result
            ≡ slice_get (lanes_in self.now (lane sender.0 receiver.0 prio.0)) i }
    {
        match place_of(self.controllers, sender, receiver, prio) {
            Some(place) => self.queues[place].get(i),
            None => None,
        }
    }

    /// How many controllers there are.
    pub(crate) fn controllers(&self) -> u8
        ensures { result ≡ self.now.controllers }
    {
        self.controllers
    }

    /// Whether a lane holds no message.
    fn is_empty_lane(&self, sender: ControllerId, receiver: ControllerId, prio: Priority) -> bool
        ensures { IsTrue result
            ↔ (lanes_in self.now (lane sender.0 receiver.0 prio.0) ≡ []) }
    {
        match place_of(self.controllers, sender, receiver, prio) {
            Some(place) => self.queues[place].is_empty(),
            None => true,
        }
    }

    /// Whether no message of this sender, at any priority, is on its way to this receiver.
    fn is_still(&self, sender: ControllerId, receiver: ControllerId) -> bool
        ensures { IsTrue result
            ↔ ((priority : ℕ) → lanes_in self.now (lane sender.0 receiver.0 priority) ≡ []) }
    {
        for prio in 0..PRIORITIES {
            if !self.is_empty_lane(sender, receiver, Priority(prio)) {
                return false;
            }
        }
        true
    }

    /// Whether no message is on its way to a controller.
    pub(crate) fn is_empty_to(&self, receiver: ControllerId) -> bool
        ensures { IsTrue result
            ↔ ((sender priority : ℕ) → lanes_in self.now (lane sender receiver.0 priority) ≡ []) }
    {
        let environment = self.controllers();
        for sender in 0..environment {
            if !self.is_still(ControllerId(sender), receiver) {
                return false;
            }
        }
        self.is_still(ControllerId(environment), receiver)
    }

    /// Whether no message is on its way.
    pub(crate) fn is_empty(&self) -> bool
        ensures { IsTrue result ↔ ((l : Lane) → lanes_in self.now l ≡ []) }
    {
        for receiver in 0..self.controllers() {
            if !self.is_empty_to(ControllerId(receiver)) {
                return false;
            }
        }
        true
    }
}
