//! The duties on the lives of actors.
ghost use Rattle.std.specs.Prelude.{◌≡◌, ◌<◌, ℕ, true, IfOk};
ghost use Rattle.room_kinds.specs.declared.system.SysKind.{SysKind};
ghost use Rattle.frame_service.specs.State.{IsFrameOf};
ghost use Rattle.frame_service.specs.Forms.{has_form};
ghost use Rattle.frame_service.specs.Done.{IsHeard};

use crate::duties::nothing;
use crate::forms::{first_number, one_of};
use crate::state::FrameState;
use frame_lives::DutyDone;
use room_kinds::{Endpoint, Msg, Outbox};
use room_wiring::Wiring;
use service_messages::{Site, whose};
use std::alloc::AllocError;

impl FrameState {
    /// Create: an actor is made for its container.
    pub(crate) fn hear_create(
        &mut self,
        wiring: &Wiring,
        m: &Msg,
        from: Endpoint,
        slot: Endpoint,
        out: &mut Outbox,
    ) -> Result<DutyDone, AllocError>
        requires fits { IsFrameOf wiring.now self.old }
        requires form { has_form wiring.now self.old.me.0 SysKind.Create m.now.payload from slot
            ≡ true }
        ensures { IfOk result (λ d.
            IsHeard wiring.now self.old self.new m.now SysKind.Create from slot out.old out.new d) }
    {
        let site = Site {
            alloc: self.alloc,
            wiring,
            runs: &self.runs,
            me: self.me,
        };
        let done = self.lives.create(&site, m, slot.slot, from, out)?;
        Ok(done)
    }

    /// PartMake: an optional slot of another controller was made, and this controller's part of it is.
    pub(crate) fn hear_part_make(
        &mut self,
        wiring: &Wiring,
        m: &Msg,
        actor: Endpoint,
        again: Endpoint,
        out: &mut Outbox,
    ) -> Result<DutyDone, AllocError>
        requires fits { IsFrameOf wiring.now self.old }
        requires form { has_form wiring.now self.old.me.0 SysKind.PartMake m.now.payload actor again
            ≡ true }
        ensures { IfOk result (λ d.
            IsHeard wiring.now self.old self.new m.now SysKind.PartMake actor again out.old out.new d) }
    {
        let site = Site {
            alloc: self.alloc,
            wiring,
            runs: &self.runs,
            me: self.me,
        };
        let done = self.lives.part_make(&site, actor.slot, out)?;
        Ok(done)
    }

    /// Announce: an actor of another controller came up or went down.
    pub(crate) fn hear_announce(
        &mut self,
        wiring: &Wiring,
        m: &Msg,
        actor: Endpoint,
        again: Endpoint,
        out: &mut Outbox,
    ) -> Result<DutyDone, AllocError>
        requires fits { IsFrameOf wiring.now self.old }
        requires form { has_form wiring.now self.old.me.0 SysKind.Announce m.now.payload actor again
            ≡ true }
        ensures { IfOk result (λ d.
            IsHeard wiring.now self.old self.new m.now SysKind.Announce actor again out.old out.new d) }
    {
        // A look at the wiring: its tables have a row for each slot.
        let _slots = wiring.slot_count();
        // 1: it came up, 0: it went down.
        let Some(up) = one_of(first_number(m), 1, 0) else {
            return Ok(nothing(self.alloc));
        };
        self.lives.hear(whose(actor), u64::from(up))?;
        Ok(nothing(self.alloc))
    }
}
