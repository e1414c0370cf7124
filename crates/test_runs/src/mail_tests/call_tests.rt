//! The calls of a mailbox, over any mail on one thread.
ghost use Rattle.std.specs.Prelude.{◌≡◌, ◌+◌, ◌<◌, length, OnOk};

use crate::mail_tests::messages::stamps;
use crate::test_messages::message;
use mail_core::caller::{close_unused, exchange, post_at};
use mail_core::poll::poll;
use mail_core::{Mail, MailLocal, Outlook};
use mail_lanes::MailLanes;
use room_kinds::Msg;
use std::alloc::{AllocError, Global};
use std::process::Abort;
use std::test::Fail;

/// One controller and the environment: what is posted is taken once, and what isn't taken is left.
fn exchanges<M: Mail + Drop>(rt: &impl Abort, alloc: Global, b: u32) -> Result<(), Fail>
where
    M::Office: Drop,
    requires in_range { b < M.box_count 0 2 }
    requires in_box { M.in_box 2 b 0 3 }
{
    let first = message(alloc, 0, 0, 3, 1);
    let second = message(alloc, 0, 0, 3, 2);
    let x = exchange::<M>(alloc, b, first, second)?;
    assert_eq!(rt; x.first.map(|m| m.stamp.0), Some(1));
    assert!(rt; x.second.is_none());
    assert_eq!(rt; x.left.len(), 1);
    assert_eq!(rt;
        stamps(alloc, x.left[0].as_slice())?.as_slice(),
        [2].as_slice()
    );
    let left = close_unused::<M>(alloc, 2)?;
    assert_eq!(rt; left.len(), 1);
    assert_eq!(rt; left[0].len(), 0);
    Ok(())
}

#[test]
fn what_is_posted_is_taken_once(rt: HostRuntime) -> Result<(), Fail> {
    exchanges::<MailLocal>(&rt, rt.alloc(), 5)?;
    exchanges::<MailLanes>(&rt, rt.alloc(), 5)
}

/// Posts a message of one of two controllers or the environment, whose number is 2.
fn post<M: Mail>(
    alloc: Global,
    office: &mut M::Office,
    ends: &mut Vec<M>,
    from: u8,
    to: u8,
    prio: u8,
    stamp: u64,
) -> Result<(), Fail>
    requires parties { length ends.old.items ≡ 3 }
    requires from { from < 3 }
    requires to { to < 2 }
    requires prio { prio < 6 }
    requires tied { M.tied office.old ends.old.items }
    ensures parties { OnOk result (length ends.new.items ≡ 3) }
    ensures tied { M.tied office.new ends.new.items }
{
    post_at(office, ends, message(alloc, from, to, prio, stamp))?;
    Ok(())
}

/// What two controllers and the environment post to the controllers, and nobody takes.
fn untaken<M: Mail>(alloc: Global) -> Result<Vec<Vec<Msg>>, Fail>
where
    M::Office: Drop,
    M: Drop,
{
    let (mut office, mut ends) = M::set_up(alloc, 3)?;
    post(alloc, &mut office, &mut ends, 2, 0, 0, 1)?;
    post(alloc, &mut office, &mut ends, 0, 0, 5, 2)?;
    post(alloc, &mut office, &mut ends, 1, 0, 5, 3)?;
    post(alloc, &mut office, &mut ends, 2, 0, 5, 4)?;
    post(alloc, &mut office, &mut ends, 1, 1, 3, 5)?;
    Ok(M::close(alloc, office, ends)?)
}

/// What nobody took stands in the order of a poll.
fn are_left(rt: &impl Abort, alloc: Global, left: &[Vec<Msg>]) -> Result<(), Fail> {
    assert_eq!(rt; left.len(), 2);
    assert_eq!(rt;
        stamps(alloc, left[0].as_slice())?.as_slice(),
        [4, 2, 3, 1].as_slice()
    );
    assert_eq!(rt;
        stamps(alloc, left[1].as_slice())?.as_slice(),
        [5].as_slice()
    );
    Ok(())
}

#[test]
fn what_is_left_stands_in_the_order_of_a_poll(rt: HostRuntime) -> Result<(), Fail> {
    let alloc = rt.alloc();
    are_left(&rt, alloc, &untaken::<MailLocal>(alloc)?)?;
    are_left(&rt, alloc, &untaken::<MailLanes>(alloc)?)
}

fn poll_first<M: Mail>(
    office: &mut M::Office,
    ends: &mut Vec<M>,
    out: &mut Vec<Msg>,
) -> Result<(), AllocError>
    requires some { 0 < length ends.old.items }
    requires tied { M.tied office.old ends.old.items }
    ensures parties { length ends.new.items ≡ length ends.old.items }
{
    let end = &mut ends[0];
    poll(end, office, out)
}

/// The stamps of what a poll of the first controller finds.
fn polled<M: Mail>(alloc: Global) -> Result<Vec<u64>, Fail>
where
    M::Office: Drop,
    M: Drop,
{
    let (mut office, mut ends) = M::set_up(alloc, 2)?;
    post_at(&mut office, &mut ends, message(alloc, 0, 0, 3, 1))?;
    post_at(&mut office, &mut ends, message(alloc, 0, 0, 5, 2))?;
    post_at(&mut office, &mut ends, message(alloc, 1, 0, 5, 3))?;
    let mut out = Vec::new(alloc);
    poll_first(&mut office, &mut ends, &mut out)?;
    Ok(stamps(alloc, out.as_slice())?)
}

#[test]
fn a_poll_looks_at_priority_5_first(rt: HostRuntime) -> Result<(), Fail> {
    let alloc = rt.alloc();
    assert_eq!(rt;
        polled::<MailLocal>(alloc)?.as_slice(),
        [3, 2, 1].as_slice()
    );
    assert_eq!(rt;
        polled::<MailLanes>(alloc)?.as_slice(),
        [3, 2, 1].as_slice()
    );
    Ok(())
}

#[test]
fn all_is_calm_once_all_rest_and_nothing_is_on_its_way(rt: HostRuntime) -> Result<(), Fail> {
    let alloc = rt.alloc();
    let (mut office, mut ends) = MailLanes::set_up(alloc, 3)?;
    assert_eq!(rt; ends[0].rest(), Outlook::Open);
    assert_eq!(rt; ends[1].rest(), Outlook::Calm);
    post(alloc, &mut office, &mut ends, 1, 0, 3, 1)?;
    assert_eq!(rt; ends[1].rest(), Outlook::Open);
    assert_eq!(rt; ends[0].rest(), Outlook::Called);
    poll_first(&mut office, &mut ends, &mut Vec::new(alloc))?;
    assert_eq!(rt; ends[1].rest(), Outlook::Open);
    assert_eq!(rt; ends[0].rest(), Outlook::Calm);
    assert_eq!(rt; ends[1].rest(), Outlook::Calm);
    Ok(())
}

#[test]
fn nobody_waits_for_a_party_that_has_left(rt: HostRuntime) -> Result<(), Fail> {
    let alloc = rt.alloc();
    let (mut office, mut ends) = MailLanes::set_up(alloc, 3)?;
    assert_eq!(rt; ends[1].rest(), Outlook::Open);
    ends[0].leave();
    assert_eq!(rt; ends[1].rest(), Outlook::Calm);
    post(alloc, &mut office, &mut ends, 1, 0, 3, 1)?;
    assert_eq!(rt; ends[1].rest(), Outlook::Calm);
    Ok(())
}
