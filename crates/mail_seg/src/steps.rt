//! Steps of an end.
use crate::ends::MailSeg;
use crate::places::{place, post_at, take_at};
use room_kinds::Msg;
use std::sync::Wait;

impl MailSeg {
    ghost use Rattle.std.specs.Prelude.{◌≡◌, ◌+◌, ◌-◌, ◌<◌, OnOk, OnErr, IfErr, MatchOption};
    ghost use Rattle.mail_core.specs.EndLog.{gained, looked};
    ghost use Rattle.mail_core.specs.Takes.{MayPostAt};
    ghost use Rattle.mail_seg.specs.Ends.{log_of, wiring_of};

    #[tactic(auto, using(mail_core::proofs::ListLemmas::list_steps))]
    pub(crate) fn add_look(&mut self, b: u32)
        requires { b < 6 }
        ensures log { log_of self.new
            ≡ record (log_of self.old) { looks = looked (log_of self.old).looks b } }
        ensures wiring { wiring_of self.new ≡ wiring_of self.old }
    {
        let look = &mut self.looks[b as usize];
        *look = look.saturating_add(1);
    }

    pub(crate) fn post_to<R: Wait>(&mut self, rt: &R, m: Msg) -> Result<(), Msg>
        requires from { m.from.0 ≡ self.old.party }
        requires to { m.to.0 + 1 < self.old.parties }
        requires prio { m.prio.0 < 6 }
        requires level { MayPostAt self.old.parties m.from.0 m.prio.0 }
        ensures ok { OnOk result (log_of self.new ≡ record (log_of self.old)
            { posted = gained (log_of self.old).posted m.to.0 m.prio.0 m }) }
        ensures err { OnErr result (log_of self.new ≡ log_of self.old) }
        ensures back { IfErr result (λ x. x ≡ m) }
        ensures wiring { wiring_of self.new ≡ wiring_of self.old }
    {
        let at = place(m.to.0, u32::from(5 - m.prio.0));
        post_at(rt, &mut self.outlets, at, m)
    }

    pub(crate) fn take_own<R: Wait>(&mut self, rt: &R, b: u32) -> Option<Msg>
        requires controller { self.old.party + 1 < self.old.parties }
        requires in_range { b < 6 }
        ensures log { MatchOption result
            ((log_of self.new ≡ log_of self.old)
            × ((log_of self.old).posted self.old.party (5 - b)
            ≡ (log_of self.old).taken self.old.party (5 - b)))
            (λ m.
            (m.to.0 ≡ self.old.party)
            × (m.from.0 < self.old.parties)
            × (m.prio.0 ≡ 5 - b)
            × MayPostAt self.old.parties m.from.0 m.prio.0
            × (log_of self.new ≡ record (log_of self.old)
            { taken = gained (log_of self.old).taken m.from.0 m.prio.0 m })) }
        ensures wiring { wiring_of self.new ≡ wiring_of self.old }
    {
        let at = place(self.party, b);
        take_at(rt, &mut self.outlets, at)
    }
}
