//! The duties on the answers to requests for the life of actors.
ghost use Rattle.std.specs.Prelude.{◌≡◌, true, IfOk};
ghost use Rattle.room_kinds.specs.declared.system.SysKind.{SysKind};
ghost use Rattle.frame_service.specs.State.{IsFrameOf};
ghost use Rattle.frame_service.specs.Forms.{has_form};
ghost use Rattle.frame_service.specs.Done.{IsHeard};

use crate::duties::nothing;
use crate::forms::{first_number, one_of};
use crate::state::FrameState;
use frame_lives::{DutyDone, create_done, create_refused, destroy_done};
use room_kinds::{Endpoint, Msg, Outbox};
use room_wiring::Wiring;
use service_messages::Site;
use std::alloc::AllocError;

impl FrameState {
    /// CreateDone: an actor was made.
    pub(crate) fn hear_create_done(
        &mut self,
        wiring: &Wiring,
        m: &Msg,
        new: Endpoint,
        container: Endpoint,
        out: &mut Outbox,
    ) -> Result<DutyDone, AllocError>
        requires fits { IsFrameOf wiring.now self.old }
        requires form { has_form wiring.now self.old.me.0 SysKind.CreateDone m.now.payload new
            container ≡ true }
        ensures { IfOk result (λ d.
            IsHeard wiring.now self.old self.new m.now SysKind.CreateDone new container out.old out.new d) }
    {
        let site = Site {
            alloc: self.alloc,
            wiring,
            runs: &self.runs,
            me: self.me,
        };
        create_done(&site, new, container, out)?;
        Ok(nothing(self.alloc))
    }

    /// CreateRefused: no actor was made.
    pub(crate) fn hear_create_refused(
        &mut self,
        wiring: &Wiring,
        m: &Msg,
        slot: Endpoint,
        container: Endpoint,
        out: &mut Outbox,
    ) -> Result<DutyDone, AllocError>
        requires fits { IsFrameOf wiring.now self.old }
        requires form { has_form wiring.now self.old.me.0 SysKind.CreateRefused m.now.payload slot
            container ≡ true }
        ensures { IfOk result (λ d.
            IsHeard wiring.now self.old self.new m.now SysKind.CreateRefused slot container out.old out.new d) }
    {
        let code = first_number(m);
        let site = Site {
            alloc: self.alloc,
            wiring,
            runs: &self.runs,
            me: self.me,
        };
        create_refused(&site, slot, container, code, out)?;
        Ok(nothing(self.alloc))
    }

    /// DestroyDone: an actor has ended, or nothing was there. Another code says nothing.
    pub(crate) fn hear_destroy_done(
        &mut self,
        wiring: &Wiring,
        m: &Msg,
        gone: Endpoint,
        container: Endpoint,
        out: &mut Outbox,
    ) -> Result<DutyDone, AllocError>
        requires fits { IsFrameOf wiring.now self.old }
        requires form { has_form wiring.now self.old.me.0 SysKind.DestroyDone m.now.payload gone
            container ≡ true }
        ensures { IfOk result (λ d.
            IsHeard wiring.now self.old self.new m.now SysKind.DestroyDone gone container out.old out.new d) }
    {
        // 0: an actor has ended, 3: nothing was there.
        let Some(code) = one_of(first_number(m), 0, 3) else {
            return Ok(nothing(self.alloc));
        };
        let site = Site {
            alloc: self.alloc,
            wiring,
            runs: &self.runs,
            me: self.me,
        };
        destroy_done(&site, gone, container, code, out)?;
        Ok(nothing(self.alloc))
    }
}
