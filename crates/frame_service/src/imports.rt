//! The duties on imports.
ghost use Rattle.std.specs.Prelude.{◌≡◌, true, IfOk};
ghost use Rattle.room_kinds.specs.declared.system.SysKind.{SysKind};
ghost use Rattle.frame_service.specs.State.{IsFrameOf};
ghost use Rattle.frame_service.specs.Forms.{has_form};
ghost use Rattle.frame_service.specs.Done.{IsHeard};
ghost use Rattle.frame_service.specs.frame_imports.Numbered.{ArePortsNumbered};

use crate::duties::nothing;
use crate::forms::first_number;
use crate::frame_imports::{Answer, What, deport, hear, import};
use crate::state::FrameState;
use frame_lives::DutyDone;
use room_kinds::{Endpoint, Msg, Outbox};
use room_wiring::Wiring;
use service_messages::Site;
use std::alloc::AllocError;

impl FrameState {
    /// Import: an import place asks for a home of this controller.
    pub(crate) fn hear_import(
        &mut self,
        wiring: &Wiring,
        m: &Msg,
        place: Endpoint,
        home: Endpoint,
        out: &mut Outbox,
    ) -> Result<DutyDone, AllocError>
        requires fits { IsFrameOf wiring.now self.old }
        requires ports { ArePortsNumbered wiring.now }
        requires form { has_form wiring.now self.old.me.0 SysKind.Import m.now.payload place home
            ≡ true }
        ensures { IfOk result (λ d.
            IsHeard wiring.now self.old self.new m.now SysKind.Import place home out.old out.new d) }
    {
        let site = Site {
            alloc: self.alloc,
            wiring,
            runs: &self.runs,
            me: self.me,
        };
        import(&mut self.imports, &site, &self.lives, m, place, home, out)?;
        Ok(nothing(self.alloc))
    }

    /// ImportDone: a home was lent.
    pub(crate) fn hear_import_done(
        &mut self,
        wiring: &Wiring,
        m: &Msg,
        home: Endpoint,
        place: Endpoint,
        out: &mut Outbox,
    ) -> Result<DutyDone, AllocError>
        requires fits { IsFrameOf wiring.now self.old }
        requires form { has_form wiring.now self.old.me.0 SysKind.ImportDone m.now.payload home
            place ≡ true }
        ensures { IfOk result (λ d.
            IsHeard wiring.now self.old self.new m.now SysKind.ImportDone home place out.old out.new d) }
    {
        let what = What::Lent;
        let answer = Answer { home, place, what };
        let site = Site {
            alloc: self.alloc,
            wiring,
            runs: &self.runs,
            me: self.me,
        };
        hear(&mut self.imports, &site, &self.lives, answer, out)?;
        Ok(nothing(self.alloc))
    }

    /// ImportRefused: a home wasn't lent.
    pub(crate) fn hear_import_refused(
        &mut self,
        wiring: &Wiring,
        m: &Msg,
        home: Endpoint,
        place: Endpoint,
        out: &mut Outbox,
    ) -> Result<DutyDone, AllocError>
        requires fits { IsFrameOf wiring.now self.old }
        requires form { has_form wiring.now self.old.me.0 SysKind.ImportRefused m.now.payload home
            place ≡ true }
        ensures { IfOk result (λ d.
            IsHeard wiring.now self.old self.new m.now SysKind.ImportRefused home place out.old out.new d) }
    {
        let code = first_number(m);
        let what = What::Refused(code);
        let answer = Answer { home, place, what };
        let site = Site {
            alloc: self.alloc,
            wiring,
            runs: &self.runs,
            me: self.me,
        };
        hear(&mut self.imports, &site, &self.lives, answer, out)?;
        Ok(nothing(self.alloc))
    }

    /// ImportEnded: a home has ended.
    pub(crate) fn hear_import_ended(
        &mut self,
        wiring: &Wiring,
        m: &Msg,
        home: Endpoint,
        place: Endpoint,
        out: &mut Outbox,
    ) -> Result<DutyDone, AllocError>
        requires fits { IsFrameOf wiring.now self.old }
        requires form { has_form wiring.now self.old.me.0 SysKind.ImportEnded m.now.payload home
            place ≡ true }
        ensures { IfOk result (λ d.
            IsHeard wiring.now self.old self.new m.now SysKind.ImportEnded home place out.old out.new d) }
    {
        let what = What::Ended;
        let answer = Answer { home, place, what };
        let site = Site {
            alloc: self.alloc,
            wiring,
            runs: &self.runs,
            me: self.me,
        };
        hear(&mut self.imports, &site, &self.lives, answer, out)?;
        Ok(nothing(self.alloc))
    }

    /// Deport: a home of this controller comes back.
    pub(crate) fn hear_deport(
        &mut self,
        wiring: &Wiring,
        m: &Msg,
        place: Endpoint,
        home: Endpoint,
        out: &mut Outbox,
    ) -> Result<DutyDone, AllocError>
        requires fits { IsFrameOf wiring.now self.old }
        requires form { has_form wiring.now self.old.me.0 SysKind.Deport m.now.payload place home
            ≡ true }
        ensures { IfOk result (λ d.
            IsHeard wiring.now self.old self.new m.now SysKind.Deport place home out.old out.new d) }
    {
        let site = Site {
            alloc: self.alloc,
            wiring,
            runs: &self.runs,
            me: self.me,
        };
        deport(&mut self.imports, &site, &self.lives, m, place, home, out)?;
        Ok(nothing(self.alloc))
    }

    /// DeportDone: a home was given back.
    pub(crate) fn hear_deport_done(
        &mut self,
        wiring: &Wiring,
        m: &Msg,
        home: Endpoint,
        place: Endpoint,
        out: &mut Outbox,
    ) -> Result<DutyDone, AllocError>
        requires fits { IsFrameOf wiring.now self.old }
        requires form { has_form wiring.now self.old.me.0 SysKind.DeportDone m.now.payload home
            place ≡ true }
        ensures { IfOk result (λ d.
            IsHeard wiring.now self.old self.new m.now SysKind.DeportDone home place out.old out.new d) }
    {
        let what = What::Back;
        let answer = Answer { home, place, what };
        let site = Site {
            alloc: self.alloc,
            wiring,
            runs: &self.runs,
            me: self.me,
        };
        hear(&mut self.imports, &site, &self.lives, answer, out)?;
        Ok(nothing(self.alloc))
    }
}
