//! The calls of mail over shared boxes.
use crate::close::all_left;
use crate::ends::MailSeg;
use crate::make::all_ends;
use mail_core::PostRefused;
use mail_core::boxes::BoxLane;
use room_kinds::Msg;
use std::alloc::{AllocError, Global};
use std::sync::Wait;

/// The calls of `Mail`, with its contracts; those that wait take a handle. The office is `()`, so
/// none is passed.
impl MailSeg {
    ghost use Rattle.std.specs.Prelude.{◌≡◌, ◌+◌, ◌<◌, map, length, OnOk, OnErr, IfOk, IfErr, IfSome, IfNone};
    ghost use Rattle.mail_core.specs.EndLog.{posting, taking};
    ghost use Rattle.mail_core.specs.SetUp.{AreFresh, IsLeft};
    ghost use Rattle.mail_core.specs.Takes.{IsOfBox, KeepsToLevel, OwnIsTaken};
    ghost use Rattle.mail_core.specs.Tied.{StaysTied};
    ghost use Rattle.mail_seg.specs.Ends.{log_of, IsSharedBox, shared_boxes, AreTied};

    /// One end for each party, in order of party, with nothing posted. There are 2 to 255 parties, and
    /// the last is the environment.
    pub fn set_up(alloc: Global, parties: u8) -> Result<Vec<MailSeg>, AllocError>
        requires { 1 < parties }
        ensures fresh { IfOk result (λ ends. AreFresh parties (map log_of ends.items)) }
        ensures tied { IfOk result (λ ends. AreTied tt ends.items) }
    {
        all_ends(alloc, parties)
    }

    /// The number of boxes of the end's party: six, and none of the environment.
    pub fn boxes(&self) -> u32
        ensures { result ≡ shared_boxes (log_of self.now).party (log_of self.now).parties }
    {
        if u32::from(self.party) + 1 < u32::from(self.parties) {
            6
        } else {
            0
        }
    }

    /// Posts a message from the end's party to a controller: one push. Where there is no memory for
    /// it, nothing has changed. The environment has no room at the system level, priority 0, where it
    /// posts nothing: a message of it there is refused.
    #[tactic(auto, using(crate::proofs::TiedLemmas::tied_steps), unfolding(mail_core::specs::EndLog::posting))]
    pub fn post<R: Wait>(&mut self, rt: &R, m: Msg) -> Result<(), PostRefused>
        requires from { m.from.0 ≡ (log_of self.old).party }
        requires to { m.to.0 + 1 < (log_of self.old).parties }
        requires prio { m.prio.0 < 6 }

        ensures ok { OnOk result (log_of self.new ≡ posting (log_of self.old) m) }
        ensures err { OnErr result (log_of self.new ≡ log_of self.old) }
        ensures refused { IfErr result (λ r. r.message ≡ m) }
        ensures tied { StaysTied AreTied (log_of self.old).party tt tt self.old self.new }
    {
        let lane = BoxLane {
            sender: self.party,
            prio: m.prio.0,
        };
        if !lane.is_in_use(self.parties) {
            return Err(PostRefused { message: m });
        }
        match self.post_to(rt, m) {
            Ok(()) => Ok(()),
            Err(message) => Err(PostRefused { message }),
        }
    }

    /// Looks at a box once, and takes its oldest message if it finds one: one pop. It may miss a
    /// message that another party posts; it finds nothing only where the end has taken all that it
    /// posted into this box itself. It never gives a message of the environment at the system level,
    /// priority 0, where the environment posts nothing.
    #[tactic(auto, using(crate::proofs::TiedLemmas::tied_steps), unfolding(mail_core::specs::EndLog::taking))]
    pub fn take<R: Wait>(&mut self, rt: &R, b: u32) -> Option<Msg>
        requires { b < shared_boxes (log_of self.old).party (log_of self.old).parties }

        ensures log { log_of self.new ≡ taking (log_of self.old) b result }
        ensures some { IfSome result (IsOfBox IsSharedBox (log_of self.old) b) }
        ensures level { IfSome result (KeepsToLevel (log_of self.old).parties) }
        ensures none { IfNone result (OwnIsTaken IsSharedBox (log_of self.old) b) }
        ensures tied { StaysTied AreTied (log_of self.old).party tt tt self.old self.new }
    {
        self.add_look(b);
        self.take_own(rt, b)
    }

    /// Ends the mail. What was posted and not taken comes back, a list for each controller in order,
    /// each in the order of a poll. After a refusal the messages are given up.
    pub fn close<R: Wait>(
        rt: &R,
        alloc: Global,
        ends: Vec<MailSeg>,
    ) -> Result<Vec<Vec<Msg>>, AllocError>
        requires some { 0 < length ends.items }
        requires tied { AreTied tt ends.items }
        ensures { IfOk result (λ left.
            IsLeft (map log_of ends.items) (map (λ v. v.items) left.items)) }
    {
        all_left(rt, alloc, ends)
    }
}
