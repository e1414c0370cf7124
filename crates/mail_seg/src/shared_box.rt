//! A box of a receiver at a priority, into which all parties post.
ghost use Rattle.std.specs.Arc.{arc_value};
ghost use Rattle.crossbeam_queue.specs.SegTies.{IsSegPassOf};

use crate::contents::Contents;
use crate::rule::{BoxRule, KeepNext, NextParty, PassView, Pop, Push, TakeIn};
use crossbeam_queue::{RuledSegQueue, SegPass};
use room_kinds::Msg;
use std::alloc::{AllocError, Global};
use std::sync::{Arc, Wait};

/// The queue of a receiver and a priority.
pub struct BoxQueue {
    ruled: RuledSegQueue<Contents, PassView, BoxRule>,
}

impl Drop for BoxQueue {
    fn drop(self) {
        let Self { ruled } = self;
        ruled.destroy();
    }
}

/// A pass to the queue of a receiver and a priority.
#[derive(Drop)]
pub struct BoxPass {
    pub(crate) to: u8,
    pub(crate) prio: u8,
    pub(crate) queue: Arc<BoxQueue, Global>,
    pub(crate) pass: SegPass<Contents, PassView>,
    ghost fits: { IsSegPassOf (arc_value queue).ruled pass },
}

impl BoxPass {
    ghost use Rattle.std.specs.Prelude.{◌≡◌, ◌+◌, true, OnOk, OnErr, IfOk, IfErr, MatchOption};
    ghost use Rattle.mail_seg.specs.Sides.{side, first_side, poster_side, past_side, idle_side, keeping_side, joined, sending, getting, IsInto, IsOutOf, IsEmptied};

    /// The pass to an empty box that takes from it and may still split off a pass for each party.
    #[tactic(auto, using(crate::proofs::RuleLemmas::begins_steps))]
    pub(crate) fn new(alloc: Global, to: u8, prio: u8) -> Result<BoxPass, AllocError>
        ensures { IfOk result (λ b. side b ≡ first_side to prio (side b).queue) }
    {
        let (ruled, pass) = RuledSegQueue::with_rule(alloc)?;
        let queue = Arc::new(alloc, BoxQueue { ruled })?;
        Ok(BoxPass {
            to,
            prio,
            queue,
            pass,
        })
    }

    /// Splits off the pass of the next party, which posts alone.
    #[tactic(auto, using(crate::proofs::RuleLemmas::rule_steps))]
    pub(crate) fn split_next(&mut self) -> Result<BoxPass, AllocError>
        requires { (side self.old).takes ≡ true }
        ensures kept { OnOk result (side self.new ≡ past_side (side self.old)) }
        ensures split { IfOk result (λ b.
            side b ≡ poster_side (side self.old).to (side self.old).prio (side self.old).queue
            (side self.old).next) }
    {
        let queue = Arc::try_clone(&self.queue)?;
        let pass = self.queue.ruled.another::<NextParty>(&mut self.pass);
        Ok(BoxPass {
            to: self.to,
            prio: self.prio,
            queue,
            pass,
        })
    }

    /// Keeps the pass for the next party, which is the receiver, and splits off one that posts for
    /// nobody.
    #[tactic(auto, using(crate::proofs::RuleLemmas::rule_steps))]
    pub(crate) fn keep_next(&mut self) -> Result<BoxPass, AllocError>
        requires { (side self.old).takes ≡ true }
        ensures kept { OnOk result (side self.new ≡ keeping_side (side self.old)) }
        ensures split { IfOk result (λ b.
            side b ≡ idle_side (side self.old).to (side self.old).prio (side self.old).queue) }
    {
        let queue = Arc::try_clone(&self.queue)?;
        let pass = self.queue.ruled.another::<KeepNext>(&mut self.pass);
        Ok(BoxPass {
            to: self.to,
            prio: self.prio,
            queue,
            pass,
        })
    }

    /// Posts a message of the party that has the pass: one push. Where there is no memory for it, it is
    /// handed back and nothing has changed.
    #[tactic(auto, using(crate::proofs::RuleLemmas::rule_steps))]
    pub(crate) fn post<R: Wait>(&mut self, rt: &R, m: Msg) -> Result<(), Msg>
        requires { IsInto (side self.old) m }
        ensures ok { OnOk result (side self.new ≡ sending (side self.old) m) }
        ensures err { OnErr result (side self.new ≡ side self.old) }
        ensures back { IfErr result (λ x. x ≡ m) }
    {
        match self
            .queue
            .ruled
            .push_as::<Push, R>(rt, &mut self.pass, Contents::new(m))
        {
            Ok(()) => Ok(()),
            Err(contents) => Err(contents.address(self.to, self.prio)),
        }
    }

    /// Takes the oldest message of the box: one pop. It finds nothing only where all is taken that was
    /// posted by the parties whose posts the pass has, and nothing was taken of parties that have no
    /// pass.
    #[tactic(auto, using(crate::proofs::RuleLemmas::rule_steps))]
    pub(crate) fn take<R: Wait>(&mut self, rt: &R) -> Option<Msg>
        requires { (side self.old).takes ≡ true }
        ensures took { MatchOption result
            ((side self.new ≡ side self.old) × IsEmptied (side self.old))
            (λ m. (side self.new ≡ getting (side self.old) m) × IsOutOf (side self.old) m) }
    {
        match self.queue.ruled.pop_as::<Pop, R>(rt, &mut self.pass) {
            Some(contents) => Some(contents.address(self.to, self.prio)),
            None => None,
        }
    }

    /// Takes in the pass of another party, which posts no more.
    #[tactic(auto, using(crate::proofs::RuleLemmas::rule_steps))]
    pub(crate) fn join(&mut self, other: BoxPass)
        requires takes { (side self.old).takes ≡ true }
        requires same { ((side other).to ≡ (side self.old).to)
            × ((side other).prio ≡ (side self.old).prio)
            × ((side other).queue ≡ (side self.old).queue) }
        ensures { side self.new ≡ joined (side self.old) (side other) }
    {
        self.queue
            .ruled
            .absorb::<TakeIn>(&mut self.pass, other.pass);
    }
}
