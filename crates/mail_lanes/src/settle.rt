//! One lane at the close.
ghost use Rattle.room_kinds.specs.declared.message.Msg.{Msg};

use crate::lane::{Inlet, Outlet};
use crate::rule::Roles;
use room_kinds::Msg;
use std::alloc::AllocError;

impl Outlet {
    ghost use Rattle.std.specs.Prelude.{◌≡◌, ◌++◌, true, List, OnOk, Option};
    ghost use Rattle.mail_lanes.specs.Lanes.{out_lane, in_side, in_lane};
    ghost use Rattle.mail_lanes.specs.Parts.{in_wire_of};
    ghost use Rattle.mail_lanes.specs.Settle.{CanSettle, IsSettled, left_in};
    ghost use Rattle.room_kinds.specs.declared.message.Msg.{Msg};

    /// Takes in the pass of the receiver.
    #[tactic(auto, using(crate::proofs::LaneLemmas::lane_steps, crate::proofs::RuleLemmas::merges))]
    fn join(&mut self, inlet: Inlet)
        requires deque { (in_lane inlet).wire.deque ≡ (out_lane self.old).wire.deque }
        requires same { ((in_lane inlet).wire.from ≡ (out_lane self.old).wire.from)
            × ((in_lane inlet).wire.to ≡ (out_lane self.old).wire.to)
            × ((in_lane inlet).wire.prio ≡ (out_lane self.old).wire.prio) }
        ensures { ((out_lane self.new).wire.takes ≡ true)
            × ((out_lane self.new).posted ≡ (out_lane self.old).posted)
            × ((out_lane self.new).taken ≡ (in_lane inlet).taken) }
    {
        // Another party took from the lane, so what waits in it isn't known.
        self.own = false;
        self.owner.absorb::<Roles>(inlet.pass);
    }

    /// Pops until the deque is empty.
    #[tactic(auto, using(crate::proofs::LaneLemmas::lane_steps))]
    fn drain(&mut self, list: &mut Vec<Msg>) -> Result<(), AllocError>
        requires { (out_lane self.old).wire.takes ≡ true }
        ensures { OnOk result ((left : List Msg)
            × (list.new.items ≡ list.old.items ++ left)
            × ((out_lane self.old).taken ++ left ≡ (out_lane self.old).posted)) }
    {
        while let Some(m) = self.take() {
            list.push(m)?;
        }
        Ok(())
    }

    /// What of a lane is left.
    #[tactic(auto, using(crate::proofs::SettleLemmas::settle_steps))]
    pub(crate) fn settle(
        &mut self,
        inlet: Option<Inlet>,
        list: &mut Vec<Msg>,
    ) -> Result<(), AllocError>
        requires { CanSettle (out_lane self.old).wire (in_wire_of (in_side inlet)) }
        ensures { OnOk result
            ((list.new.items ≡ list.old.items ++ left_in (out_lane self.old) (in_side inlet))
            × IsSettled (out_lane self.old) (in_side inlet)) }
    {
        if let Some(inlet) = inlet {
            self.join(inlet);
        }
        self.drain(list)
    }
}
