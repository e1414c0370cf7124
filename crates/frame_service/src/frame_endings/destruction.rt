//! Destroy and PartEnd.
ghost use Rattle.std.specs.Prelude.{◌≡◌, ◌&&◌, ◌<◌, ◌∷◌, [], true, pos, length, IfOk};
ghost use Rattle.room_kinds.specs.declared.system.SysKind.{SysKind};
ghost use Rattle.actor_duties.specs.Words.{whose};
ghost use Rattle.actor_duties.specs.Messages.{reply};
ghost use Rattle.actor_duties.specs.Lives.{counts_as_live};
ghost use Rattle.frame_lives.specs.Shown.{shown};
ghost use Rattle.frame_service.specs.State.{IsFrameOf};
ghost use Rattle.frame_service.specs.Forms.{has_form};
ghost use Rattle.frame_service.specs.Done.{ended_left, IsHeard, IsSetEnded};

use crate::frame_endings::messages::{end_actors, end_parts};
use crate::state::FrameState;
use frame_lives::{DutyDone, SlotLives};
use room_kinds::{
    ControllerId, Endpoint, Generation, Incarnation, Msg, Outbox, Payload, Sequence, SlotId,
    SysKind,
};
use room_wiring::Wiring;
use service_messages::{Code, Site, frame_at, frame_of, reply, whose};
use std::alloc::{AllocError, Global};

/// Whether the container lives, and something in the slot.
fn may_end(
    lives: &SlotLives,
    wiring: &Wiring,
    me: ControllerId,
    slot: SlotId,
    from: Endpoint,
) -> bool
    ensures { result ≡ (counts_as_live wiring.now me.0 (shown lives.now).lives (whose from)
        && (shown lives.now).lives.lives slot.0) }
{
    lives.counts_as_live(wiring, me, whose(from)) && lives.lives(slot)
}

/// The answer to a Destroy, from what ended, or from the slot in which nothing was.
fn answered(
    alloc: Global,
    me: ControllerId,
    m: &Msg,
    gone: Endpoint,
    from: Endpoint,
    code: u8,
) -> Result<Msg, AllocError>
    ensures { IfOk result (λ r.
        r ≡ reply me.0 m.now SysKind.DestroyDone gone from (pos code ∷ [])) }
{
    let payload = Payload::from_slice(alloc, &[i64::from(code)])?;
    Ok(reply(me, m, SysKind::DestroyDone, gone, from, payload))
}

/// What an end leaves to the controller: who ended, and the message that closes it.
fn left(alloc: Global, ended: Sequence<Incarnation>, last: Option<Msg>) -> DutyDone
    ensures { result ≡ ended_left ended last }
{
    DutyDone {
        made: Sequence::new(alloc),
        ended,
        last,
    }
}

impl FrameState {
    /// The end set of a slot ends, in descending slot order: what each actor in it sends goes out; then the
    /// other parts of what ended are told; then nothing is lent to the ended or of them any more.
    fn end_set(
        &mut self,
        wiring: &Wiring,
        slot: SlotId,
        out: &mut Outbox,
    ) -> Result<Sequence<Incarnation>, AllocError>
        requires fits { IsFrameOf wiring.now self.old }
        requires there { slot.0 < length wiring.now.slots }
        ensures { IfOk result (λ xs.
            IsSetEnded wiring.now self.old self.new slot.0 out.old out.new xs) }
    {
        let site = Site {
            alloc: self.alloc,
            wiring,
            runs: &self.runs,
            me: self.me,
        };
        let ended = self.lives.ending(&site, slot)?;
        let actors = ended.as_slice();
        end_actors(&site, &self.imports, actors, out)?;
        end_parts(&site, actors, out)?;
        self.lives.end_all(actors);
        self.imports.end_all(wiring, &self.runs, actors);
        Ok(ended)
    }

    /// Destroy, from the container `from` for its optional slot `slot`: where the container doesn't live or
    /// nothing lives in the slot, the answer is DestroyDone with code 3; else the slot's end set ends, and
    /// the answer is DestroyDone with 0.
    pub(crate) fn hear_destroy(
        &mut self,
        wiring: &Wiring,
        m: &Msg,
        from: Endpoint,
        slot: Endpoint,
        out: &mut Outbox,
    ) -> Result<DutyDone, AllocError>
        requires fits { IsFrameOf wiring.now self.old }
        requires form { has_form wiring.now self.old.me.0 SysKind.Destroy m.now.payload from slot
            ≡ true }
        ensures { IfOk result (λ d.
            IsHeard wiring.now self.old self.new m.now SysKind.Destroy from slot out.old out.new d) }
    {
        if !may_end(&self.lives, wiring, self.me, slot.slot, from) {
            let nobody = frame_at(slot.slot, Generation(0));
            let code = Code::NotHere.number();
            let refused = answered(self.alloc, self.me, m, nobody, from, code)?;
            return Ok(left(self.alloc, Sequence::new(self.alloc), Some(refused)));
        }
        let gone = frame_of(self.lives.last_of(slot.slot));
        let last = answered(self.alloc, self.me, m, gone, from, 0)?;
        let ended = self.end_set(wiring, slot.slot, out)?;
        Ok(left(self.alloc, ended, Some(last)))
    }

    /// PartEnd: an optional slot of another controller has ended, and with it its end set here.
    pub(crate) fn hear_part_end(
        &mut self,
        wiring: &Wiring,
        m: &Msg,
        actor: Endpoint,
        again: Endpoint,
        out: &mut Outbox,
    ) -> Result<DutyDone, AllocError>
        requires fits { IsFrameOf wiring.now self.old }
        requires form { has_form wiring.now self.old.me.0 SysKind.PartEnd m.now.payload actor again
            ≡ true }
        ensures { IfOk result (λ d.
            IsHeard wiring.now self.old self.new m.now SysKind.PartEnd actor again out.old out.new d) }
    {
        let ended = self.end_set(wiring, actor.slot, out)?;
        Ok(left(self.alloc, ended, None))
    }
}
