//! Steps of an end on one lane.
use crate::ends::MailLanes;
use crate::places::{pop_at, post_at, steal_at};
use room_kinds::Msg;

impl MailLanes {
    ghost use Rattle.std.specs.Prelude.{◌≡◌, ◌+◌, ◌*◌, ◌<◌, OnOk, OnErr, IfErr, MatchOption, None};
    ghost use Rattle.mail_core.specs.EndLog.{gained, looked};
    ghost use Rattle.mail_core.specs.Lanes.{IsFor};
    ghost use Rattle.mail_lanes.specs.Ends.{log_of, wiring_of};

    #[inline(always)]
    #[tactic(auto, using(crate::proofs::EndLemmas::end_steps))]
    pub(crate) fn add_look(&mut self, b: u32)
        requires { b < self.old.parties * 6 }
        ensures log { log_of self.new
            ≡ record (log_of self.old) { looks = looked (log_of self.old).looks b } }
        ensures wiring { wiring_of self.new ≡ wiring_of self.old }
    {
        let look = &mut self.looks[b as usize];
        *look = look.saturating_add(1);
    }

    #[tactic(auto, using(crate::proofs::EndLemmas::end_steps))]
    pub(crate) fn post_to(&mut self, receiver: u8, prio: u8, m: Msg) -> Result<(), Msg>
        requires receiver { receiver + 1 < self.old.parties }
        requires prio { prio < 6 }
        requires is_for { IsFor self.old.party receiver prio m }
        ensures ok { OnOk result (log_of self.new ≡ record (log_of self.old)
            { posted = gained (log_of self.old).posted receiver prio m }) }
        ensures err { OnErr result (log_of self.new ≡ log_of self.old) }
        ensures back { IfErr result (λ x. x ≡ m) }
        ensures wiring { wiring_of self.new ≡ wiring_of self.old }
    {
        let at = usize::from(receiver) * 6 + usize::from(prio);
        post_at(&mut self.outlets, at, m)
    }

    #[inline(always)]
    #[tactic(auto, using(crate::proofs::EndLemmas::end_steps))]
    pub(crate) fn take_own(&mut self, prio: u8, found: &mut Option<Msg>)
        requires controller { self.old.party + 1 < self.old.parties }
        requires prio { prio < 6 }
        requires empty { found.old ≡ None }
        ensures log { MatchOption found.new
            ((log_of self.new ≡ log_of self.old)
            × ((log_of self.old).posted self.old.party prio
            ≡ (log_of self.old).taken self.old.party prio))
            (λ m.
            IsFor self.old.party self.old.party prio m
            × (log_of self.new ≡ record (log_of self.old)
            { taken = gained (log_of self.old).taken self.old.party prio m })) }
        ensures wiring { wiring_of self.new ≡ wiring_of self.old }
    {
        let at = usize::from(self.party) * 6 + usize::from(prio);
        pop_at(&mut self.outlets, at, found)
    }

    #[inline(always)]
    #[tactic(auto, using(crate::proofs::EndLemmas::end_steps))]
    pub(crate) fn take_from(&mut self, sender: u8, prio: u8, found: &mut Option<Msg>)
        requires controller { self.old.party + 1 < self.old.parties }
        requires sender { sender < self.old.parties }
        requires other { sender ≡ self.old.party → ⊥ }
        requires prio { prio < 6 }
        requires empty { found.old ≡ None }
        ensures log { MatchOption found.new (log_of self.new ≡ log_of self.old) (λ m.
            IsFor sender self.old.party prio m
            × (log_of self.new
            ≡ record (log_of self.old) { taken = gained (log_of self.old).taken sender prio m })) }
        ensures wiring { wiring_of self.new ≡ wiring_of self.old }
    {
        let at = usize::from(sender) * 6 + usize::from(prio);
        steal_at(&mut self.inlets, at, found)
    }
}
