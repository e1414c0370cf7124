//! The two ends of a lane.
ghost use Rattle.std.specs.Prelude.{◌≡◌, ◌+◌, true, length, take};
ghost use Rattle.crossbeam_deque.specs.Handles.{worker_view, worker_flavor, stealer_deque, stealer_flavor, view, IsPassOf};

use crate::address::addressed;
use crate::rule::{Got, LaneRule, LaneView, Own, Sent};
use crossbeam_deque::{Pass, Steal, Stealer, Worker};
use room_kinds::Msg;
use std::alloc::Global;

pub(crate) type Owner = Worker<Msg, Global, LaneView, LaneRule>;

pub(crate) type Thief = Stealer<Msg, Global, LaneView, LaneRule>;

/// The sender's end. It owns the deque, and takes from it where it is the receiver, too.
#[derive(Drop)]
pub struct Outlet {
    pub(crate) from: u8,
    pub(crate) to: u8,
    pub(crate) prio: u8,
    /// Whether the lane goes to the sender itself. Then it knows what waits, and needs no pop to find nothing.
    pub(crate) own: bool,
    /// How many messages wait in such a lane.
    pub(crate) waiting: u64,
    pub(crate) owner: Owner,
    ghost fifo: { worker_flavor owner ≡ 0 },
    ghost pushes: { (worker_view owner).pushes ≡ true },
    ghost in_order: { own ≡ true → take (length (worker_view owner).got) (worker_view owner).sent
        ≡ (worker_view owner).got },
    ghost counted: { own ≡ true → length (worker_view owner).got + waiting
        ≡ length (worker_view owner).sent },
}

/// The receiver's end, where another party is the sender.
#[derive(Drop)]
pub struct Inlet {
    pub(crate) from: u8,
    pub(crate) to: u8,
    pub(crate) prio: u8,
    pub(crate) thief: Thief,
    pub(crate) pass: Pass<Msg, LaneView>,
    ghost fits: { IsPassOf (stealer_deque thief) pass },
    ghost fifo: { stealer_flavor thief ≡ 0 },
    ghost takes: { (view pass).takes ≡ true },
}

impl Outlet {
    ghost use Rattle.std.specs.Prelude.{◌≡◌, true, ◌≤◌, length, OnOk, OnErr, IfErr, MatchOption, None};
    ghost use Rattle.mail_core.specs.Lanes.{IsFor};
    ghost use Rattle.mail_lanes.specs.Lanes.{out_lane, sending, popping};

    /// One push.
    #[inline(always)]
    #[tactic(auto, using(crate::proofs::LaneLemmas::lane_steps))]
    pub(crate) fn post(&mut self, m: Msg) -> Result<(), Msg>
        requires { IsFor self.old.from self.old.to self.old.prio m }
        ensures ok { OnOk result (out_lane self.new ≡ sending (out_lane self.old) m) }
        ensures err { OnErr result (out_lane self.new ≡ out_lane self.old) }
        ensures back { IfErr result (λ x. x ≡ m) }
    {
        let Some(waiting) = self.waiting.checked_add(1) else {
            return Err(m);
        };
        match self.owner.push_as::<Sent>(m) {
            Ok(()) => {
                self.waiting = waiting;
                Ok(())
            }
            Err(m) => Err(m),
        }
    }

    /// A look: a pop, unless it is known that nothing waits. What it finds goes to an empty place: most looks
    /// find nothing, and no room for a message is made for them.
    #[inline(always)]
    pub(crate) fn look_to(&mut self, found: &mut Option<Msg>)
        requires takes { (out_lane self.old).wire.takes ≡ true }
        requires empty { found.old ≡ None }
        ensures lane { MatchOption found.new
            ((out_lane self.new ≡ out_lane self.old)
            × ((out_lane self.old).posted ≡ (out_lane self.old).taken))
            (λ m. out_lane self.new ≡ popping (out_lane self.old) m) }
        ensures is_for { MatchOption found.new (Unit {0})
            (λ m. IsFor self.old.from self.old.to self.old.prio m) }
    {
        if self.own && self.waiting == 0 {
            return;
        }
        self.take_to(found)
    }

    /// One pop. What it finds goes to an empty place.
    #[inline(never)]
    #[tactic(auto, using(crate::proofs::LaneLemmas::lane_steps))]
    pub(crate) fn take_to(&mut self, found: &mut Option<Msg>)
        requires takes { (out_lane self.old).wire.takes ≡ true }
        requires empty { found.old ≡ None }
        ensures lane { MatchOption found.new
            ((out_lane self.new ≡ out_lane self.old)
            × ((out_lane self.old).posted ≡ (out_lane self.old).taken))
            (λ m. out_lane self.new ≡ popping (out_lane self.old) m) }
        ensures is_for { MatchOption found.new (Unit {0})
            (λ m. IsFor self.old.from self.old.to self.old.prio m) }
        ensures within { length (out_lane self.new).taken ≤ length (out_lane self.new).posted }
    {
        if let Some(m) = self.owner.pop_as::<Own>() {
            self.waiting = self.waiting.saturating_sub(1);
            *found = Some(addressed(m, self.from, self.to, self.prio));
        }
    }

    /// The same, where what is found is handed on.
    pub(crate) fn take(&mut self) -> Option<Msg>
        requires { (out_lane self.old).wire.takes ≡ true }
        ensures lane { MatchOption result
            ((out_lane self.new ≡ out_lane self.old)
            × ((out_lane self.old).posted ≡ (out_lane self.old).taken))
            (λ m. out_lane self.new ≡ popping (out_lane self.old) m) }
        ensures within { length (out_lane self.new).taken ≤ length (out_lane self.new).posted }
    {
        let mut found = None;
        self.take_to(&mut found);
        found
    }
}

impl Inlet {
    ghost use Rattle.std.specs.Prelude.{◌≡◌, MatchOption, None};
    ghost use Rattle.mail_core.specs.Lanes.{IsFor};
    ghost use Rattle.mail_lanes.specs.Lanes.{in_lane, stealing};

    /// One steal. What it finds, if it finds something at once, goes to an empty place.
    #[inline(never)]
    #[tactic(auto, using(crate::proofs::LaneLemmas::lane_steps))]
    pub(crate) fn take_to(&mut self, found: &mut Option<Msg>)
        requires { found.old ≡ None }
        ensures lane { MatchOption found.new (in_lane self.new ≡ in_lane self.old)
            (λ m. in_lane self.new ≡ stealing (in_lane self.old) m) }
        ensures is_for { MatchOption found.new (Unit {0})
            (λ m. IsFor self.old.from self.old.to self.old.prio m) }
    {
        if let Steal::Success(m) = self.thief.steal_as::<Got>(&mut self.pass) {
            *found = Some(addressed(m, self.from, self.to, self.prio));
        }
    }
}
