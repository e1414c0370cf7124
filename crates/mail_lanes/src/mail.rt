//! The calls of mail among threads.
use crate::close::all_left;
use crate::ends::MailLanes;
use crate::make::all_ends;
use mail_core::boxes::{box_count, lane_in};
use mail_core::{Mail, Outlook, PostRefused};
use room_kinds::Msg;
use std::alloc::{AllocError, Global};

impl Mail for MailLanes {
    ghost use Rattle.std.specs.Prelude.{ℕ, List, ◌≡◌, ◌+◌, ◌*◌, ◌<◌, ◌≤◌, [], map, length, IfOk};
    ghost use Rattle.mail_core.specs.SetUp.{IsLeft};
    ghost use Rattle.mail_core.specs.Boxes.{IsLaneBox, lane_boxes};
    ghost use Rattle.mail_lanes.specs.Ends.{log_of, AreTied};

    type Office = ();

    ghost log = { log_of };

    ghost in_box = { IsLaneBox };

    ghost box_count = { lane_boxes };

    ghost held = { λ _. [] };

    ghost tied = { AreTied };

    ghost use Rattle.mail_lanes.specs.Laws.{in_order};
    ghost use Rattle.mail_core.specs.BoxLaws.{has_box, one_priority, poll_order};

    ghost in_order = { in_order };

    ghost has_box = { has_box };

    ghost one_priority = { one_priority };

    ghost poll_order = { poll_order };

    fn set_up(alloc: Global, parties: u8) -> Result<((), Vec<MailLanes>), AllocError> {
        let ends = all_ends(alloc, parties)?;
        Ok(((), ends))
    }

    fn boxes(&self) -> u32 {
        box_count(self.party, self.parties)
    }

    #[tactic(auto, using(crate::proofs::TiedLemmas::tied_steps), unfolding(mail_core::specs::EndLog::posting))]
    fn post(&mut self, _office: &mut (), m: Msg) -> Result<(), PostRefused> {
        let to = m.to.0;
        let prio = m.prio.0;
        match self.post_to(to, prio, m) {
            Ok(()) => {
                self.bells.ring(self.party, to);
                Ok(())
            }
            Err(message) => Err(PostRefused { message }),
        }
    }

    #[inline(always)]
    #[tactic(auto, using(crate::proofs::TiedLemmas::tied_steps), unfolding(mail_core::specs::EndLog::taking))]
    fn take(&mut self, _office: &mut (), b: u32) -> Option<Msg> {
        let lane = lane_in(self.parties, b);
        let in_use = lane.is_in_use(self.parties);
        self.add_look(b);
        if !in_use {
            return None;
        }
        if lane.sender == self.party {
            let mut found = None;
            self.take_own(lane.prio, &mut found);
            return found;
        }
        if self.bells.are_quiet(self.party) {
            return None;
        }
        let mut found = None;
        self.take_from(lane.sender, lane.prio, &mut found);
        self.bells.hear(&found);
        found
    }

    fn rest(&self) -> Outlook {
        self.bells.rest(self.party);
        if !self.bells.are_quiet(self.party) {
            Outlook::Called
        } else if self.bells.are_calm() {
            Outlook::Calm
        } else {
            Outlook::Open
        }
    }

    fn leave(&self) {
        self.bells.leave(self.party);
    }

    fn close(alloc: Global, _office: (), ends: Vec<MailLanes>) -> Result<Vec<Vec<Msg>>, AllocError>
        requires some { 0 < length ends.items }
        requires tied { AreTied tt ends.items }
        ensures { IfOk result (λ left.
            IsLeft (map log_of ends.items) (map (λ v. v.items) left.items)) }
    {
        all_left(alloc, ends)
    }
}
