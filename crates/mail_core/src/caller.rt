//! Callers of any mail, whose contracts follow from those of `Mail` alone.
ghost use Rattle.std.specs.Prelude.{ℕ, List, ◌≡◌, ◌+◌, ◌-◌, ◌<◌, ◌≤◌, map, replicate, [], length, slice_set, OnOk, IfOk, IfSome, IfNone};
ghost use Rattle.mail_core.specs.EndLog.{CanPost, posting, taking};
ghost use Rattle.mail_core.specs.Lanes.{log_at};
ghost use Rattle.mail_core.specs.Takes.{IsOfBox, OwnIsTaken};
ghost use Rattle.mail_core.specs.Exchanges.{Exchanges};

use crate::mail::{Mail, PostRefused};
use room_kinds::Msg;
use std::alloc::{AllocError, Global};

/// Posts a message at the end of its sender.
#[tactic(auto, using(crate::proofs::Tied::place_steps))]
pub fn post_at<M: Mail>(
    office: &mut M::Office,
    ends: &mut Vec<M>,
    m: Msg,
) -> Result<(), PostRefused>
    requires from { m.from.0 < length ends.old.items }
    requires to { m.to.0 + 1 < length ends.old.items }
    requires prio { m.prio.0 < 6 }
    requires tied { M.tied office.old ends.old.items }
    ensures ok { OnOk result (map M.log ends.new.items ≡ slice_set (map M.log ends.old.items)
        m.from.0 (posting (log_at (map M.log ends.old.items) m.from.0) m)) }
    ensures tied { M.tied office.new ends.new.items }
{
    let end = &mut ends[usize::from(m.from.0)];
    end.post(office, m)
}

/// Takes from a box of a party.
#[tactic(auto, using(crate::proofs::Tied::place_steps))]
pub fn take_at<M: Mail>(office: &mut M::Office, ends: &mut Vec<M>, party: u8, b: u32) -> Option<Msg>
    requires party { party < length ends.old.items }
    requires in_range { b < M.box_count party (length ends.old.items) }
    requires tied { M.tied office.old ends.old.items }
    ensures log { map M.log ends.new.items ≡ slice_set (map M.log ends.old.items) party
        (taking (log_at (map M.log ends.old.items) party) b result) }
    ensures some { IfSome result (IsOfBox M.in_box (log_at (map M.log ends.old.items) party) b) }
    ensures none { IfNone result (OwnIsTaken M.in_box (log_at (map M.log ends.old.items) party) b) }
    ensures tied { M.tied office.new ends.new.items }
{
    let end = &mut ends[usize::from(party)];
    end.take(office, b)
}

/// What came of two messages of a controller to itself.
#[derive(Drop)]
pub struct Exchanged {
    /// What a look found after the first message was posted.
    pub first: Option<Msg>,
    /// What the next look found.
    pub second: Option<Msg>,
    /// What was left after the second message was posted.
    pub left: Vec<Vec<Msg>>,
}

/// A mail of one controller and the environment. The controller posts a message to itself, looks at
/// its box twice, and posts another message; then the mail is closed.

pub fn exchange<M: Mail + Drop>(
    alloc: Global,
    b: u32,
    m: Msg,
    n: Msg,
) -> Result<Exchanged, AllocError>
where
    M::Office: Drop,
    requires first { CanPost 0 2 m × (m.prio.0 ≡ 3) }
    requires second { CanPost 0 2 n × (n.prio.0 ≡ 3) }
    requires in_range { b < M.box_count 0 2 }
    requires in_box { M.in_box 2 b 0 3 }
    ensures { IfOk result (λ x. Exchanges m n x.first x.second (map (λ v. v.items) x.left.items)) }
{
    let (mut office, mut ends) = M::set_up(alloc, 2)?;
    if post_at(&mut office, &mut ends, m).is_err() {
        return Err(AllocError);
    }
    let first = take_at(&mut office, &mut ends, 0, b);
    let second = take_at(&mut office, &mut ends, 0, b);
    if post_at(&mut office, &mut ends, n).is_err() {
        return Err(AllocError);
    }
    let left = M::close(alloc, office, ends)?;
    Ok(Exchanged {
        first,
        second,
        left,
    })
}

/// A mail that is closed before anything is posted.
#[tactic(auto, using(crate::proofs::ExchangeLemmas::unused_steps))]
pub fn close_unused<M: Mail>(alloc: Global, parties: u8) -> Result<Vec<Vec<Msg>>, AllocError>
    requires { 1 < parties }
    ensures { IfOk result (λ left. map (λ v. v.items) left.items ≡ replicate (parties - 1) []) }
{
    let (office, ends) = M::set_up(alloc, parties)?;
    M::close(alloc, office, ends)
}
