//! What every mailbox promises.
ghost use Rattle.std.specs.Prelude.{ℕ, List, ◌≡◌, ◌+◌, ◌<◌, ◌≤◌, map, length, slice_get, slice_set, OnOk, OnErr, IfOk, IfErr, IfSome, IfNone, Some};
ghost use Rattle.room_kinds.specs.declared.message.Msg.{Msg};
ghost use Rattle.mail_core.specs.EndLog.{EndLog, posting, taking, fresh};
ghost use Rattle.mail_core.specs.SetUp.{AreFresh, IsLeft};
ghost use Rattle.mail_core.specs.Boxes.{poll_place};
ghost use Rattle.mail_core.specs.Takes.{IsOfBox, KeepsToLevel, OwnIsTaken};
ghost use Rattle.mail_core.specs.Tied.{IsTied, StaysTied};

use room_kinds::Msg;
use std::alloc::{AllocError, Global};

/// There was no memory for a post. The message is handed back, and nothing has changed.
#[derive(Drop, Debug)]
pub struct PostRefused {
    pub message: Msg,
}

/// What a party that rests may expect of the others.
#[derive(Clone, Copy, Drop, Debug, PartialEq, Eq)]
pub enum Outlook {
    /// Something that another party posted to it waits for it.
    Called,
    /// Another controller doesn't rest, or something is on its way to one.
    Open,
    /// All controllers rest, and nothing is on its way to any: so it stays, unless the environment posts.
    Calm,
}

/// The end of one party. An end posts the messages of its own party and takes those that go to it.
///
/// What all ends share is the office; where each end holds its part of the lanes itself, the office
/// is `()`. An office and the ends of all parties that belong to it are tied. Each call asks that
/// its end is tied with the office, and leaves it so.
///
/// A party has a number of boxes, from 0. Each lane that goes to it has one of them, and a box has
/// the lanes of one priority. A box may have the lanes of several senders.
pub trait Mail: Sized {
    type Office;

    /// Who an end is, what it posted and took, and how often it looked at each box.
    ghost log: { Self → EndLog };

    /// Among so many parties, the messages of a lane, by sender and priority, go into this box of
    /// their receiver.
    ghost in_box: { ℕ → ℕ → ℕ → ℕ → Type 0 };

    /// How many boxes a party has, among so many parties.
    ghost box_count: { ℕ → ℕ → ℕ };

    /// The messages that lie in the office itself.
    ghost held: { Self.Office → List (List Msg) };

    /// The office belongs to these ends, which are those of all parties in order.
    ghost tied: { Self.Office → List Self → Type 0 };

    /// An office and one end for each party, in order of party, with nothing posted. There are 2 to
    /// 255 parties, and the last is the environment.
    fn set_up(alloc: Global, parties: u8) -> Result<(Self::Office, Vec<Self>), AllocError>
        requires { 1 < parties }
        ensures fresh { IfOk result (λ made. AreFresh parties (map log made.1.items)) }
        ensures tied { IfOk result (λ made. tied made.0 made.1.items) };

    /// The number of boxes of the end's party. The environment takes nothing and has none.
    fn boxes(&self) -> u32
        ensures { result ≡ box_count (log self.now).party (log self.now).parties };

    /// Posts a message from the end's party to a controller. Where there is no memory for it,
    /// nothing has changed.
    fn post(&mut self, office: &mut Self::Office, m: Msg) -> Result<(), PostRefused>
        requires from { m.from.0 ≡ (log self.old).party }
        requires to { m.to.0 + 1 < (log self.old).parties }
        requires prio { m.prio.0 < 6 }
        requires tied { IsTied tied (log self.old).party office.old self.old }

        ensures ok { OnOk result (log self.new ≡ posting (log self.old) m) }
        ensures err { OnErr result (log self.new ≡ log self.old) }
        ensures office { OnErr result (held office.new ≡ held office.old) }
        ensures refused { IfErr result (λ r. r.message ≡ m) }
        ensures tied { StaysTied tied (log self.old).party office.old office.new self.old
            self.new };

    /// Looks at a box once, and takes the oldest message of one of its lanes if it finds one. It may
    /// miss a message that another party posts; it finds nothing only where the end has taken all
    /// that it posted into this box itself. It never gives a message of the environment at the system
    /// level, priority 0, where the environment posts nothing.
    fn take(&mut self, office: &mut Self::Office, b: u32) -> Option<Msg>
        requires in_range { b < box_count (log self.old).party (log self.old).parties }
        requires tied { IsTied tied (log self.old).party office.old self.old }

        ensures log { log self.new ≡ taking (log self.old) b result }
        ensures some { IfSome result (IsOfBox in_box (log self.old) b) }
        ensures level { IfSome result (KeepsToLevel (log self.old).parties) }
        ensures none { IfNone result (OwnIsTaken in_box (log self.old) b) }
        ensures tied { StaysTied tied (log self.old).party office.old office.new self.old
            self.new };

    /// The party rests: it has done all that came of what it took, and looks again later. It tells the others so,
    /// and is told what to expect of them. That is advice alone: no clause speaks of it, and the end stays as it is.
    fn rest(&self) -> Outlook;

    /// The party takes nothing and posts nothing any more. It tells the others so, who wait for it no longer.
    fn leave(&self);

    /// Ends the mail. What was posted and not taken comes back, a list for each controller in order,
    /// each in the order of a poll. After a refusal the messages are given up.
    fn close(
        alloc: Global,
        office: Self::Office,
        ends: Vec<Self>,
    ) -> Result<Vec<Vec<Msg>>, AllocError>
        requires some { 0 < length ends.items }
        requires tied { tied office ends.items }
        ensures { IfOk result (λ left.
            IsLeft (map log ends.items) (map (λ v. v.items) left.items)) };

    /// Ends that are tied stand in order of party, and each knows how many there are.
    ghost in_order: { (office : Self.Office) (ends : List Self) (k : ℕ) (e : Self)
        → tied office ends → slice_get ends k ≡ Some e
        → ((log e).party ≡ k) × ((log e).parties ≡ length ends) };

    /// Each lane to a controller has a box.
    ghost has_box: { (n s r p : ℕ) → s < n → r + 1 < n → p < 6
        → (b : ℕ) × (b < box_count r n) × in_box n b s p };

    /// A box has one priority.
    ghost one_priority: { (n b s p s' p' : ℕ) → in_box n b s p → in_box n b s' p' → p ≡ p' };

    /// The boxes stand in the order of a poll.
    ghost poll_order: { (n b s p b' s' p' : ℕ) → in_box n b s p → in_box n b' s' p' → b < b'
        → poll_place n s p < poll_place n s' p' };
}
