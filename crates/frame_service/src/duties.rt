//! Duties by their kind.
ghost use Rattle.std.specs.Prelude.{◌≡◌, ◌<◌, ◌≤◌, ℕ, true, IfOk, OnOk};
ghost use Rattle.room_kinds.specs.Kinds.{number_of};
ghost use Rattle.room_kinds.specs.declared.system.SysKind.{SysKind};
ghost use Rattle.actor_duties.specs.Frame.{frame_duty, nothing};
ghost use Rattle.frame_service.specs.frame_imports.Numbered.{ArePortsNumbered};
ghost use Rattle.frame_service.specs.State.{frame_in, IsFrameOf};
ghost use Rattle.frame_service.specs.Forms.{has_form};
ghost use Rattle.frame_service.specs.Done.{nothing_left, IsDone, IsHeard};

use crate::forms::has_form;
use crate::state::FrameState;
use frame_lives::DutyDone;
use room_kinds::{Endpoint, Msg, Outbox, Sequence, SysKind};
use room_wiring::Wiring;
use std::alloc::{AllocError, Global};

/// Nothing is left to the controller.
pub fn nothing(alloc: Global) -> DutyDone
    ensures { result ≡ nothing_left }
{
    DutyDone {
        made: Sequence::new(alloc),
        ended: Sequence::new(alloc),
        last: None,
    }
}

impl FrameState {
    /// The duty of a message that is of the form of its kind.
    fn duty_in_form(
        &mut self,
        wiring: &Wiring,
        kind: SysKind,
        m: &Msg,
        source: Endpoint,
        target: Endpoint,
        out: &mut Outbox,
    ) -> Result<DutyDone, AllocError>
        requires fits { IsFrameOf wiring.now self.old }
        requires ports { ArePortsNumbered wiring.now }
        requires form { has_form wiring.now self.old.me.0 kind m.now.payload source target ≡ true }
        ensures { IfOk result (λ d.
            IsHeard wiring.now self.old self.new m.now kind source target out.old out.new d) }
    {
        match kind {
            SysKind::Create => self.hear_create(wiring, m, source, target, out),
            SysKind::CreateDone => self.hear_create_done(wiring, m, source, target, out),
            SysKind::CreateRefused => self.hear_create_refused(wiring, m, source, target, out),
            SysKind::Destroy => self.hear_destroy(wiring, m, source, target, out),
            SysKind::DestroyDone => self.hear_destroy_done(wiring, m, source, target, out),
            SysKind::Import => self.hear_import(wiring, m, source, target, out),
            SysKind::ImportDone => self.hear_import_done(wiring, m, source, target, out),
            SysKind::ImportRefused => self.hear_import_refused(wiring, m, source, target, out),
            SysKind::ImportEnded => self.hear_import_ended(wiring, m, source, target, out),
            SysKind::Deport => self.hear_deport(wiring, m, source, target, out),
            SysKind::DeportDone => self.hear_deport_done(wiring, m, source, target, out),
            SysKind::Announce => self.hear_announce(wiring, m, source, target, out),
            SysKind::PartMake => self.hear_part_make(wiring, m, source, target, out),
            SysKind::PartEnd => self.hear_part_end(wiring, m, source, target, out),
            SysKind::Register
            | SysKind::Withdraw
            | SysKind::Bound
            | SysKind::Ended
            | SysKind::NameReply => Ok(nothing(self.alloc)),
        }
    }

    fn duty_of(
        &mut self,
        wiring: &Wiring,
        kind: SysKind,
        m: &Msg,
        source: Endpoint,
        out: &mut Outbox,
    ) -> Result<DutyDone, AllocError>
        requires fits { IsFrameOf wiring.now self.old }
        requires ports { ArePortsNumbered wiring.now }
        ensures { IfOk result (λ d.
            IsHeard wiring.now self.old self.new m.now kind source m.now.target out.old out.new d) }
    {
        let target = m.target;
        let numbers = m.payload.numbers();
        if has_form(wiring, &self.runs, self.me, kind, numbers, source, target) {
            return self.duty_in_form(wiring, kind, m, source, target, out);
        }
        Ok(nothing(self.alloc))
    }

    #[tactic(auto, unfolding(actor_duties::specs::Frame::frame_duty))]
    fn duty_from(
        &mut self,
        wiring: &Wiring,
        kind: SysKind,
        m: &Msg,
        out: &mut Outbox,
    ) -> Result<DutyDone, AllocError>
        requires fits { IsFrameOf wiring.now self.old }
        requires ports { ArePortsNumbered wiring.now }
        ensures { IfOk result (λ d.
            IsDone wiring.now self.old self.new
            (frame_duty wiring.now self.old.me.0 (frame_in self.old) kind m.now)
            out.old out.new d) }
    {
        match m.source {
            Some(source) => self.duty_of(wiring, kind, m, source, out),
            None => Ok(nothing(self.alloc)),
        }
    }

    /// What the controller does at a message of priority 0 of the kinds 0 to 11, 17 and 18: what comes of
    /// its row, where the message is of the form of its kind; else nothing. At the other kinds, which are
    /// the layer service's, and at numbers that are no kind's it does nothing. Afterwards the controller
    /// takes the initial transitions of what was made, or withdraws what the ended have registered, and
    /// sends the last message, if there is one.
    pub fn duty(
        &mut self,
        wiring: &Wiring,
        m: &Msg,
        out: &mut Outbox,
    ) -> Result<DutyDone, AllocError>
        requires fits { IsFrameOf wiring.now self.old }
        requires ports { ArePortsNumbered wiring.now }
        ensures fits { OnOk result (IsFrameOf wiring.now self.new) }
        ensures me { OnOk result (self.new.me ≡ self.old.me) }
        ensures done { IfOk result (λ d.
            (kind : SysKind) → number_of kind ≡ m.now.signal
            → IsDone wiring.now self.old self.new
            (frame_duty wiring.now self.old.me.0 (frame_in self.old) kind m.now)
            out.old out.new d) }
        ensures unknown { IfOk result (λ d.
            19 ≤ m.now.signal
            → IsDone wiring.now self.old self.new (nothing (frame_in self.old)) out.old out.new d) }
    {
        match SysKind::from_number(m.signal) {
            Some(kind) => self.duty_from(wiring, kind, m, out),
            None => Ok(nothing(self.alloc)),
        }
    }
}
