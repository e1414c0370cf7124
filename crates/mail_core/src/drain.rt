//! What is left in an office, taken out in the order of a poll.
ghost use Rattle.std.specs.Prelude.{ℕ, List, ◌≡◌, ◌+◌, ◌-◌, ◌*◌, ◌<◌, ◌≤◌, ◌++◌, [], OnOk, IfOk, length, vec_len, slice_get, slice_set, map};
ghost use Rattle.mail_core.specs.Lanes.{lane_number, lane_of};
ghost use Rattle.mail_core.specs.SetUp.{at_priority, in_poll_order};

use crate::ends::LocalOffice;
use crate::local_lane::Lane;
use crate::steps::lane_index;
use room_kinds::Msg;
use std::alloc::{AllocError, Global};

impl Lane {
    /// Moves the messages to the end of a list.
    fn move_to(&mut self, list: &mut Vec<Msg>) -> Result<(), AllocError>
        ensures list { OnOk result (list.new.items ≡ list.old.items ++ self.old) }
        ensures lane { OnOk result (self.new ≡ []) }
    {
        while let Some(entry) = self.pop() {
            let (message, _) = entry.open();
            list.push(message)?;
        }
        Ok(())
    }
}

impl LocalOffice {
    fn drain(
        &mut self,
        sender: u8,
        receiver: u8,
        prio: u8,
        list: &mut Vec<Msg>,
    ) -> Result<(), AllocError>
        requires sender { sender < self.old.parties }
        requires receiver { receiver < self.old.parties }
        requires prio { prio < 6 }
        ensures list { OnOk result (list.new.items ≡ list.old.items
            ++ lane_of self.old.lanes.items self.old.parties sender receiver prio) }
        ensures lanes { OnOk result (self.new.lanes.items ≡ slice_set self.old.lanes.items
            (lane_number self.old.parties sender receiver prio) []) }
        ensures parties { self.new.parties ≡ self.old.parties }
    {
        let i = lane_index(self.parties, sender, receiver, prio);
        let lane = &mut self.lanes[i];
        lane.move_to(list)
    }

    fn drain_priority(
        &mut self,
        receiver: u8,
        prio: u8,
        list: &mut Vec<Msg>,
    ) -> Result<(), AllocError>
        requires receiver { receiver < self.old.parties }
        requires prio { prio < 6 }
        ensures list { OnOk result (list.new.items ≡ list.old.items
            ++ at_priority self.old.parties (λ s.
            lane_of self.old.lanes.items self.old.parties s receiver prio)) }
        ensures others { OnOk result
            ((s r p : ℕ) → s < self.old.parties → p < 6 → ((r ≡ receiver) × (p ≡ prio) → ⊥)
            → lane_of self.new.lanes.items self.old.parties s r p
            ≡ lane_of self.old.lanes.items self.old.parties s r p) }
        ensures parties { self.new.parties ≡ self.old.parties }
    {
        let environment = self.parties - 1;
        self.drain(environment, receiver, prio, list)?;
        for sender in 0..environment {
            self.drain(sender, receiver, prio, list)?;
        }
        Ok(())
    }

    fn drain_receiver(&mut self, receiver: u8, list: &mut Vec<Msg>) -> Result<(), AllocError>
        requires receiver { receiver < self.old.parties }
        ensures list { OnOk result (list.new.items ≡ list.old.items
            ++ in_poll_order self.old.parties (λ s p.
            lane_of self.old.lanes.items self.old.parties s receiver p)) }
        ensures others { OnOk result
            ((s r p : ℕ) → s < self.old.parties → p < 6 → (r ≡ receiver → ⊥)
            → lane_of self.new.lanes.items self.old.parties s r p
            ≡ lane_of self.old.lanes.items self.old.parties s r p) }
        ensures parties { self.new.parties ≡ self.old.parties }
    {
        for step in 0..6u8 {
            self.drain_priority(receiver, 5 - step, list)?;
        }
        Ok(())
    }

    /// A list for each controller.
    pub(crate) fn drain_all(&mut self, alloc: Global) -> Result<Vec<Vec<Msg>>, AllocError>
        requires { 0 < self.old.parties }
        ensures count { IfOk result (λ v. length v.items + 1 ≡ self.old.parties) }
        ensures order { IfOk result (λ v.
            (r : ℕ) → r + 1 < self.old.parties
            → slice_get (map (λ x. x.items) v.items) r ≡ Some (in_poll_order self.old.parties
            (λ s p. lane_of self.old.lanes.items self.old.parties s r p))) }
    {
        let mut all = Vec::new(alloc);
        for receiver in 0..self.parties - 1 {
            let mut list = Vec::new(alloc);
            self.drain_receiver(receiver, &mut list)?;
            all.push(list)?;
        }
        Ok(all)
    }
}
