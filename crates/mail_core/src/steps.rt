//! Steps on the lanes of an office and on the lists of an end.
ghost use Rattle.std.specs.Prelude.{ℕ, List, ◌≡◌, ◌+◌, ◌*◌, ◌<◌, ◌≤◌, ◌^◌, ◌++◌, ◌∷◌, [], length, vec_len, slice_index_or, slice_set, OnOk, OnErr, IfOk, IfErr, IfNone, IfSome, MatchOption};
ghost use Rattle.mail_core.specs.Lanes.{lane_number, lane_of};
ghost use Rattle.room_kinds.specs.declared.message.Msg.{Msg};

use crate::ends::LocalOffice;
use crate::local_lane::MessageWithCopy;
use room_kinds::Msg;
use std::collections::LinkedList;

/// Which of the office's lanes that of a sender, a receiver and a priority is.
#[tactic(auto, using(crate::proofs::LaneLemmas::lane_numbers))]
pub(crate) fn lane_index(parties: u8, sender: u8, receiver: u8, prio: u8) -> usize
    requires sender { sender < parties }
    requires receiver { receiver < parties }
    requires prio { prio < 6 }
    ensures number { result ≡ lane_number parties sender receiver prio }
    ensures below { result < (parties * parties) * 6 }
{
    (usize::from(receiver) * usize::from(parties) + usize::from(sender)) * 6 + usize::from(prio)
}

impl LocalOffice {
    pub(crate) fn put(
        &mut self,
        sender: u8,
        receiver: u8,
        prio: u8,
        entry: MessageWithCopy,
    ) -> Result<(), MessageWithCopy>
        requires sender { sender < self.old.parties }
        requires receiver { receiver < self.old.parties }
        requires prio { prio < 6 }
        ensures ok { OnOk result (self.new.lanes.items
            ≡ slice_set self.old.lanes.items (lane_number self.old.parties sender receiver prio)
            (lane_of self.old.lanes.items self.old.parties sender receiver prio ++ entry ∷ [])) }
        ensures err { OnErr result (self.new.lanes.items ≡ self.old.lanes.items) }
        ensures back { IfErr result (λ s. s ≡ entry) }
        ensures parties { self.new.parties ≡ self.old.parties }
    {
        let i = lane_index(self.parties, sender, receiver, prio);
        let lane = &mut self.lanes[i];
        lane.put(entry)
    }

    #[tactic(auto, using(crate::proofs::LaneLemmas::lane_numbers))]
    pub(crate) fn pop(&mut self, sender: u8, receiver: u8, prio: u8) -> Option<MessageWithCopy>
        requires sender { sender < self.old.parties }
        requires receiver { receiver < self.old.parties }
        requires prio { prio < 6 }
        ensures none { IfNone result (lane_of self.old.lanes.items self.old.parties sender receiver
            prio ≡ []) }
        ensures same { IfNone result (self.new.lanes.items ≡ self.old.lanes.items) }
        ensures some { IfSome result (λ m.
            (rest : List Msg)
            × (lane_of self.old.lanes.items self.old.parties sender receiver prio ≡ m ∷ rest)
            × (self.new.lanes.items ≡ slice_set self.old.lanes.items
            (lane_number self.old.parties sender receiver prio) rest)) }
        ensures front { IfSome result (λ m.
            lane_of self.old.lanes.items self.old.parties sender receiver prio
            ≡ m ∷ lane_of self.new.lanes.items self.old.parties sender receiver prio) }
        ensures parties { self.new.parties ≡ self.old.parties }
    {
        let i = lane_index(self.parties, sender, receiver, prio);
        let lane = &mut self.lanes[i];
        lane.pop()
    }
}

/// How long a list is.
pub(crate) fn list_len(lists: &[LinkedList<Msg>], at: usize) -> usize
    requires { at < length lists.now }
    ensures { result ≡ length (slice_index_or lists.now at []) }
{
    lists[at].len()
}

/// Lengthens a list, with no memory.
pub(crate) fn append_at(lists: &mut Vec<LinkedList<Msg>>, at: usize, mut more: LinkedList<Msg>)
    requires within { at < vec_len lists.old }
    requires short { length (slice_index_or lists.old.items at []) + length more < 2 ^ 63 }
    ensures items { lists.new.items
        ≡ slice_set lists.old.items at (slice_index_or lists.old.items at [] ++ more) }
    ensures len { vec_len lists.new ≡ vec_len lists.old }
{
    let list = &mut lists[at];
    let _ = list.append(&mut more);
}
