//! Callers of mail over shared boxes, whose contracts follow from those of its calls alone.
ghost use Rattle.std.specs.Prelude.{◌≡◌, ◌+◌, ◌-◌, ◌<◌, map, replicate, [], length, slice_set, OnOk, IfOk, IfSome, IfNone};
ghost use Rattle.mail_core.specs.EndLog.{CanPost, posting, taking};
ghost use Rattle.mail_core.specs.Lanes.{log_at};
ghost use Rattle.mail_core.specs.Takes.{IsOfBox, OwnIsTaken};
ghost use Rattle.mail_core.specs.Exchanges.{Exchanges};
ghost use Rattle.mail_seg.specs.Ends.{log_of, IsSharedBox, shared_boxes, AreTied};

use crate::ends::MailSeg;
use mail_core::PostRefused;
use mail_core::caller::Exchanged;
use room_kinds::Msg;
use std::alloc::{AllocError, Global};
use std::sync::Wait;

/// Posts a message at the end of its sender.
#[tactic(auto, using(mail_core::proofs::Tied::place_steps))]
pub fn post_at<R: Wait>(rt: &R, ends: &mut Vec<MailSeg>, m: Msg) -> Result<(), PostRefused>
    requires from { m.from.0 < length ends.old.items }
    requires to { m.to.0 + 1 < length ends.old.items }
    requires prio { m.prio.0 < 6 }
    requires tied { AreTied tt ends.old.items }
    ensures ok { OnOk result (map log_of ends.new.items ≡ slice_set (map log_of ends.old.items)
        m.from.0 (posting (log_at (map log_of ends.old.items) m.from.0) m)) }
    ensures tied { AreTied tt ends.new.items }
    ensures count { length ends.new.items ≡ length ends.old.items }
{
    let end = &mut ends[usize::from(m.from.0)];
    end.post(rt, m)
}

/// Takes from a box of a party.
#[tactic(auto, using(mail_core::proofs::Tied::place_steps))]
pub fn take_at<R: Wait>(rt: &R, ends: &mut Vec<MailSeg>, party: u8, b: u32) -> Option<Msg>
    requires party { party < length ends.old.items }
    requires in_range { b < shared_boxes party (length ends.old.items) }
    requires tied { AreTied tt ends.old.items }
    ensures log { map log_of ends.new.items ≡ slice_set (map log_of ends.old.items) party
        (taking (log_at (map log_of ends.old.items) party) b result) }
    ensures some { IfSome result (IsOfBox IsSharedBox (log_at (map log_of ends.old.items) party)
        b) }
    ensures none { IfNone result (OwnIsTaken IsSharedBox (log_at (map log_of ends.old.items) party)
        b) }
    ensures tied { AreTied tt ends.new.items }
    ensures count { length ends.new.items ≡ length ends.old.items }
{
    let end = &mut ends[usize::from(party)];
    end.take(rt, b)
}

/// A mail of one controller and the environment. The controller posts a message to itself, looks at
/// its box twice, and posts another message; then the mail is closed.
pub fn exchange<R: Wait>(
    rt: &R,
    alloc: Global,
    b: u32,
    m: Msg,
    n: Msg,
) -> Result<Exchanged, AllocError>
    requires first { CanPost 0 2 m × (m.prio.0 ≡ 3) }
    requires second { CanPost 0 2 n × (n.prio.0 ≡ 3) }
    requires in_range { b < shared_boxes 0 2 }
    requires in_box { IsSharedBox 2 b 0 3 }
    ensures { IfOk result (λ x. Exchanges m n x.first x.second (map (λ v. v.items) x.left.items)) }
{
    let mut ends = MailSeg::set_up(alloc, 2)?;
    if post_at(rt, &mut ends, m).is_err() {
        return Err(AllocError);
    }
    let first = take_at(rt, &mut ends, 0, b);
    let second = take_at(rt, &mut ends, 0, b);
    if post_at(rt, &mut ends, n).is_err() {
        return Err(AllocError);
    }
    let left = MailSeg::close(rt, alloc, ends)?;
    Ok(Exchanged {
        first,
        second,
        left,
    })
}

/// A mail that is closed before anything is posted.
#[tactic(auto, using(mail_core::proofs::ExchangeLemmas::unused_steps))]
pub fn close_unused<R: Wait>(
    rt: &R,
    alloc: Global,
    parties: u8,
) -> Result<Vec<Vec<Msg>>, AllocError>
    requires { 1 < parties }
    ensures { IfOk result (λ left. map (λ v. v.items) left.items ≡ replicate (parties - 1) []) }
{
    let ends = MailSeg::set_up(alloc, parties)?;
    MailSeg::close(rt, alloc, ends)
}
