//! What an end keeps of its own steps.
use crate::ends::MailLocal;
use crate::steps::{append_at, list_len};
use room_kinds::Msg;
use std::collections::LinkedList;

impl MailLocal {
    ghost use Rattle.std.specs.Prelude.{ℕ, ◌≡◌, ◌+◌, ◌*◌, ◌^◌, ◌<◌, ◌∷◌, [], length, slice_index_or};
    ghost use Rattle.room_kinds.specs.declared.message.Msg.{Msg};
    ghost use Rattle.mail_core.specs.EndLog.{gained, looked};
    ghost use Rattle.mail_core.specs.Local.{log_of};

    #[tactic(auto, using(crate::proofs::ListLemmas::list_steps))]
    pub(crate) fn posted_len(&self, receiver: u8, prio: u8) -> usize
        requires receiver { receiver < self.now.parties }
        requires prio { prio < 6 }
        ensures { result ≡ length ((log_of self.now).posted receiver prio) }
    {
        list_len(
            self.posted.as_slice(),
            usize::from(receiver) * 6 + usize::from(prio),
        )
    }

    #[tactic(auto, using(crate::proofs::ListLemmas::list_steps))]
    pub(crate) fn add_posted(&mut self, receiver: u8, prio: u8, copy: LinkedList<Msg>)
        requires receiver { receiver < self.old.parties }
        requires prio { prio < 6 }
        requires one { length copy ≡ 1 }
        requires short { length ((log_of self.old).posted receiver prio) + 1 < 2 ^ 63 }
        ensures { (m : Msg) → copy ≡ m ∷ []
            → log_of self.new ≡ record (log_of self.old)
            { posted = gained (log_of self.old).posted receiver prio m } }
    {
        let at = usize::from(receiver) * 6 + usize::from(prio);
        append_at(&mut self.posted, at, copy);
    }

    #[tactic(auto, using(crate::proofs::ListLemmas::list_steps))]
    pub(crate) fn add_taken(&mut self, sender: u8, prio: u8, copy: LinkedList<Msg>)
        requires sender { sender < self.old.parties }
        requires prio { prio < 6 }
        requires one { length copy ≡ 1 }
        requires short { length ((log_of self.old).taken sender prio) + 1 < 2 ^ 63 }
        ensures { (m : Msg) → copy ≡ m ∷ []
            → log_of self.new
            ≡ record (log_of self.old) { taken = gained (log_of self.old).taken sender prio m } }
    {
        let at = usize::from(sender) * 6 + usize::from(prio);
        append_at(&mut self.taken, at, copy);
    }

    #[tactic(auto, using(crate::proofs::ListLemmas::list_steps))]
    pub(crate) fn add_look(&mut self, b: u32)
        requires { b < self.old.parties * 6 }
        ensures { log_of self.new
            ≡ record (log_of self.old) { looks = looked (log_of self.old).looks b } }
    {
        let look = &mut self.looks[b as usize];
        *look = look.saturating_add(1);
    }
}
