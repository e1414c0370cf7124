//! Create and PartMake: an actor is made in an optional slot, with all that is fixed in it, by each
//! controller that has a part.
ghost use Rattle.std.specs.Prelude.{◌≡◌, ◌++◌, ◌∷◌, [], ◌+◌, ◌<◌, ℕ, pos, length, map, if◌then◌else◌, IfOk, OnOk};
ghost use Rattle.std.specs.List.{flat_map};
ghost use Rattle.room_kinds.specs.declared.system.SysKind.{SysKind};
ghost use Rattle.actor_duties.specs.Words.{frame_at, incarnation};
ghost use Rattle.actor_duties.specs.Messages.{reply, coded};
ghost use Rattle.actor_duties.specs.Lives.{create, part_make, announces, last_of, is_vacant, lives_made, made_slots};
ghost use Rattle.service_messages.specs.Shown.{code_of};
ghost use Rattle.frame_lives.specs.Shown.{shown, with_lives};
ghost use Rattle.frame_lives.specs.Steps.{raised};
ghost use Rattle.service_messages.specs.Sites.{IsSite};
ghost use Rattle.frame_lives.specs.Done.{done_of, only_answers};

use crate::done::DutyDone;
use crate::slot_lives::SlotLives;
use room_kinds::{
    ControllerId, Endpoint, Generation, Incarnation, Msg, Outbox, Payload, Sequence, SlotId,
    SysKind,
};
use service_messages::{
    Code, Site, announce, frame_at, frame_of, is_own, reply, tell_parts, whose,
};
use std::alloc::{AllocError, Global};

impl SlotLives {
    /// Makes an actor in a slot that is the controller's own and where nobody lives, with its next
    /// generation, and announces it; does nothing at another slot.
    fn make_in(
        &mut self,
        site: &Site<'_>,
        slot: SlotId,
        made: &mut Sequence<Incarnation>,
        out: &mut Outbox,
    ) -> Result<(), AllocError>
        requires slot { slot.0 < length site.now.wiring.now.slots }
        requires there { slot.0 < (shown self.old).slots }
        ensures known { OnOk result (shown self.new ≡ with_lives (shown self.old) (if is_vacant
            site.now.wiring.now site.now.me.0 (shown self.old).lives slot.0
            then raised slot.0 (shown self.old).lives
            else (shown self.old).lives)) }
        ensures made { OnOk result (made.new
            ≡ (if is_vacant site.now.wiring.now site.now.me.0 (shown self.old).lives slot.0
            then made.old ++ incarnation slot.0 ((shown self.old).lives.generation slot.0 + 1) ∷ []
            else made.old)) }
        ensures sent { OnOk result (out.new
            ≡ (if is_vacant site.now.wiring.now site.now.me.0 (shown self.old).lives slot.0
            then out.old
            ++ announces site.now.wiring.now site.now.me.0
            (incarnation slot.0 ((shown self.old).lives.generation slot.0 + 1)) (pos 1)
            else out.old)) }
    {
        if !(is_own(site.wiring, site.me, slot) && !self.lives(slot)) {
            return Ok(());
        }
        let actor = self.raise(slot)?;
        announce(site, actor, 1, out)?;
        made.push(actor)?;
        Ok(())
    }

    /// Makes an actor in a slot and in all slots that it reaches by fixed references, in slot order, where
    /// they are the controller's own and nobody lives there; each with its next generation, and announces
    /// each. The time is in proportion to what is made with the slot.
    #[tactic(auto, using(crate::proofs::Making::making_slots))]
    fn make(
        &mut self,
        site: &Site<'_>,
        slot: SlotId,
        out: &mut Outbox,
    ) -> Result<Sequence<Incarnation>, AllocError>
        requires site { IsSite site.now }
        requires there { slot.0 < length site.now.wiring.now.slots }
        requires whole { (shown self.old).slots ≡ length site.now.wiring.now.slots }
        ensures known { OnOk result (shown self.new ≡ with_lives (shown self.old) (lives_made
            site.now.wiring.now site.now.me.0 slot.0 (shown self.old).lives)) }
        ensures made { IfOk result (λ made.
            made ≡ map
            (last_of (lives_made site.now.wiring.now site.now.me.0 slot.0 (shown self.old).lives))
            (made_slots site.now.wiring.now site.now.me.0 (shown self.old).lives slot.0)) }
        ensures sent { IfOk result (λ made.
            out.new ≡ out.old
            ++ flat_map (λ i. announces site.now.wiring.now site.now.me.0 i (pos 1)) made) }
    {
        let end = site.runs.end(site.wiring, slot);
        let mut made = Sequence::new(site.alloc);
        let mut next = u32::from(slot.0);
        while next < end {
            let here = SlotId(next as u16);
            self.make_in(site, here, &mut made, out)?;
            next = site.runs.next_made(site.wiring, slot, here);
        }
        Ok(made)
    }

    /// A PartMake of slot `slot`, which another controller owns: this controller's part of it is made.
    #[tactic(auto, unfolding(actor_duties::specs::Lives::part_make))]
    pub fn part_make(
        &mut self,
        site: &Site<'_>,
        slot: SlotId,
        out: &mut Outbox,
    ) -> Result<DutyDone, AllocError>
        requires site { IsSite site.now }
        requires there { slot.0 < length site.now.wiring.now.slots }
        requires whole { (shown self.old).slots ≡ length site.now.wiring.now.slots }
        ensures known { OnOk result (shown self.new ≡ with_lives (shown self.old) ((part_make
            site.now.wiring.now site.now.me.0 (shown self.old).lives slot.0).lives)) }
        ensures sent { OnOk result (out.new
            ≡ out.old
            ++ (part_make site.now.wiring.now site.now.me.0 (shown self.old).lives slot.0).sent) }
        ensures done { IfOk result (λ d.
            d ≡ done_of
            (part_make site.now.wiring.now site.now.me.0 (shown self.old).lives slot.0)) }
    {
        let made = self.make(site, slot, out)?;
        Ok(DutyDone {
            made,
            ended: Sequence::new(site.alloc),
            last: None,
        })
    }

    /// A Create from the container `from` for its optional slot `slot`: where the container doesn't live
    /// it is refused with code 3, and where an actor lives in the slot with code 1; else an actor is made,
    /// with all that is fixed in it and the controller's own, and each other controller that has a part is
    /// told.
    #[tactic(auto, unfolding(actor_duties::specs::Lives::create, actor_duties::specs::Lives::made))]
    pub fn create(
        &mut self,
        site: &Site<'_>,
        m: &Msg,
        slot: SlotId,
        from: Endpoint,
        out: &mut Outbox,
    ) -> Result<DutyDone, AllocError>
        requires site { IsSite site.now }
        requires there { slot.0 < length site.now.wiring.now.slots }
        requires whole { (shown self.old).slots ≡ length site.now.wiring.now.slots }
        ensures known { OnOk result (shown self.new ≡ with_lives (shown self.old) ((create
            site.now.wiring.now site.now.me.0 (shown self.old).lives m.now slot.0 from).lives)) }
        ensures sent { OnOk result (out.new
            ≡ out.old ++ (create site.now.wiring.now site.now.me.0 (shown self.old).lives m.now
            slot.0 from).sent) }
        ensures done { IfOk result (λ d.
            d ≡ done_of (create site.now.wiring.now site.now.me.0 (shown self.old).lives m.now
            slot.0 from)) }
    {
        if !self.counts_as_live(site.wiring, site.me, whose(from)) {
            return refused(site.alloc, site.me, m, slot, from, Code::NotHere);
        }
        if self.lives(slot) {
            return refused(site.alloc, site.me, m, slot, from, Code::Occupied);
        }
        let here = self.part_make(site, slot, out)?;
        let actor = self.last_of(slot);
        tell_parts(site, SysKind::PartMake, actor, out)?;
        let last = reply(
            site.me,
            m,
            SysKind::CreateDone,
            frame_of(actor),
            from,
            Payload::empty(site.alloc),
        );
        Ok(DutyDone {
            last: Some(last),
            ..here
        })
    }
}

/// A Create that is refused.
fn refused(
    alloc: Global,
    me: ControllerId,
    m: &Msg,
    slot: SlotId,
    from: Endpoint,
    code: Code,
) -> Result<DutyDone, AllocError>
    ensures { IfOk result (λ d.
        d ≡ only_answers (reply me.0 m.now SysKind.CreateRefused (frame_at slot.0 0) from
        (coded (code_of code)))) }
{
    let payload = Payload::from_slice(alloc, &[i64::from(code.number())])?;
    let here = frame_at(slot, Generation(0));
    Ok(DutyDone {
        made: Sequence::new(alloc),
        ended: Sequence::new(alloc),
        last: Some(reply(me, m, SysKind::CreateRefused, here, from, payload)),
    })
}
