//! The calls of the mail of one thread.
use crate::boxes::{box_count, lane_in};
use crate::ends::{LocalOffice, MailLocal};
use crate::local_lane::MessageWithCopy;
use crate::mail::{Mail, Outlook, PostRefused};
use room_kinds::Msg;
use std::alloc::{AllocError, Global};
use std::collections::LinkedList;

// An end posts fewer messages than this in one lane, so that no list's length wraps.
const LIMIT: usize = 0x4000_0000_0000_0000;

impl Mail for MailLocal {
    ghost use Rattle.std.specs.Prelude.{ℕ, List, ◌≡◌, ◌+◌, ◌*◌, ◌<◌, ◌≤◌, ◌∷◌, [], map, length, IfOk, IfSome, IfNone, MatchOption};
    ghost use Rattle.room_kinds.specs.declared.message.Msg.{Msg};
    ghost use Rattle.mail_core.specs.Boxes.{IsLaneBox, lane_boxes};
    ghost use Rattle.mail_core.specs.EndLog.{taking};
    ghost use Rattle.mail_core.specs.SetUp.{IsLeft};
    ghost use Rattle.mail_core.specs.Takes.{IsOfBox, KeepsToLevel, MayPostAt, OwnIsTaken};
    ghost use Rattle.mail_core.specs.Tied.{IsTied, StaysTied};
    ghost use Rattle.mail_core.specs.Local.{log_of, lane_at, lanes_of, AreTied};

    type Office = LocalOffice;

    ghost log = { log_of };

    ghost in_box = { IsLaneBox };

    ghost box_count = { lane_boxes };

    ghost held = { lanes_of };

    ghost tied = { AreTied };

    ghost use Rattle.mail_core.specs.LocalLaws.{in_order};
    ghost use Rattle.mail_core.specs.BoxLaws.{has_box, one_priority, poll_order};

    ghost in_order = { in_order };

    ghost has_box = { has_box };

    ghost one_priority = { one_priority };

    ghost poll_order = { poll_order };

    #[tactic(auto, using(crate::proofs::FreshLemmas::fresh_steps))]
    fn set_up(alloc: Global, parties: u8) -> Result<(LocalOffice, Vec<MailLocal>), AllocError> {
        let office = LocalOffice::new(alloc, parties)?;
        let ends = MailLocal::all(alloc, parties)?;
        Ok((office, ends))
    }

    fn boxes(&self) -> u32 {
        box_count(self.party, self.parties)
    }

    #[tactic(auto, using(crate::proofs::LocalTied::local_steps), unfolding(crate::specs::EndLog::posting))]
    fn post(&mut self, office: &mut LocalOffice, m: Msg) -> Result<(), PostRefused> {
        let to = m.to.0;
        let prio = m.prio.0;
        if self.posted_len(to, prio) >= LIMIT {
            return Err(PostRefused { message: m });
        }
        let Ok(copy) = m.copy(self.alloc) else {
            return Err(PostRefused { message: m });
        };
        let mut one = LinkedList::new(self.alloc);
        if one.push_back(copy).is_err() {
            return Err(PostRefused { message: m });
        }
        let entry = match MessageWithCopy::new(self.alloc, m) {
            Ok(entry) => entry,
            Err(message) => return Err(PostRefused { message }),
        };
        if let Err(entry) = office.put(self.party, to, prio, entry) {
            let (message, _) = entry.open();
            return Err(PostRefused { message });
        }
        self.add_posted(to, prio, one);
        Ok(())
    }

    /// Looks at the lane of a box (`look`), but for the environment's lane of the system level, where the
    /// environment posts nothing: there it gives nothing.
    #[tactic(auto, using(crate::proofs::LocalTied::local_steps), unfolding(crate::specs::EndLog::taking))]
    fn take(&mut self, office: &mut LocalOffice, b: u32) -> Option<Msg>
        requires in_range { b < lane_boxes self.old.party self.old.parties }
        requires tied { IsTied AreTied self.old.party office.old self.old }

        ensures log { log_of self.new ≡ taking (log_of self.old) b result }
        ensures some { IfSome result (IsOfBox IsLaneBox (log_of self.old) b) }
        ensures level { IfSome result (KeepsToLevel self.old.parties) }
        ensures none { IfNone result (OwnIsTaken IsLaneBox (log_of self.old) b) }
        ensures tied { StaysTied AreTied self.old.party office.old office.new self.old self.new }

        ensures exact { (s p : ℕ)
            → IsLaneBox self.old.parties b s p
            → MayPostAt self.old.parties s p
            → MatchOption result (lane_at office.old s self.old.party p ≡ []) (λ m.
            lane_at office.old s self.old.party p ≡ m ∷ lane_at office.new s self.old.party p) }
    {
        if lane_in(self.parties, b).is_in_use(self.parties) {
            return self.look(office, b);
        }
        self.add_look(b);
        None
    }

    /// Nobody else works at the same time.
    fn rest(&self) -> Outlook {
        Outlook::Calm
    }

    fn leave(&self) {}

    fn close(
        alloc: Global,
        office: LocalOffice,
        ends: Vec<MailLocal>,
    ) -> Result<Vec<Vec<Msg>>, AllocError>
        requires some { 0 < length ends.items }
        requires tied { AreTied office ends.items }
        ensures { IfOk result (λ left.
            IsLeft (map log_of ends.items) (map (λ v. v.items) left.items)) }
    {
        drop(ends);
        let mut office = office;
        office.drain_all(alloc)
    }
}

impl MailLocal {
    ghost use Rattle.std.specs.Prelude.{ℕ, ◌≡◌, ◌<◌, ◌∷◌, [], IfSome, IfNone, MatchOption};
    ghost use Rattle.mail_core.specs.Boxes.{IsLaneBox, lane_boxes};
    ghost use Rattle.mail_core.specs.EndLog.{taking};
    ghost use Rattle.mail_core.specs.Takes.{IsOfBox, OwnIsTaken};
    ghost use Rattle.mail_core.specs.Tied.{IsTied, StaysTied};
    ghost use Rattle.mail_core.specs.Local.{log_of, lane_at, AreTied};

    /// Looks at the lane of any box. It takes no memory, and misses no message: it gives the lane's
    /// oldest, and nothing exactly where the lane is empty.
    #[tactic(auto, using(crate::proofs::LocalTied::local_steps), unfolding(crate::specs::EndLog::taking))]
    pub fn look(&mut self, office: &mut LocalOffice, b: u32) -> Option<Msg>
        requires in_range { b < lane_boxes self.old.party self.old.parties }
        requires tied { IsTied AreTied self.old.party office.old self.old }
        ensures log { log_of self.new ≡ taking (log_of self.old) b result }
        ensures some { IfSome result (IsOfBox IsLaneBox (log_of self.old) b) }
        ensures none { IfNone result (OwnIsTaken IsLaneBox (log_of self.old) b) }
        ensures tied { StaysTied AreTied self.old.party office.old office.new self.old self.new }
        ensures exact { (s p : ℕ) → IsLaneBox self.old.parties b s p
            → MatchOption result (lane_at office.old s self.old.party p ≡ []) (λ m.
            lane_at office.old s self.old.party p ≡ m ∷ lane_at office.new s self.old.party p) }
    {
        let lane = lane_in(self.parties, b);
        let found = office.pop(lane.sender, self.party, lane.prio);
        self.add_look(b);
        let Some(entry) = found else {
            return None;
        };
        let (message, copy) = entry.open();
        self.add_taken(lane.sender, lane.prio, copy);
        Some(message)
    }
}
