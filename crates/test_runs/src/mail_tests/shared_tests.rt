//! The calls of the mailbox whose boxes several senders share; they may wait.
use crate::mail_tests::messages::stamps;
use crate::test_messages::message;
use mail_seg::{MailSeg, close_unused, exchange, post_at};
use std::test::Fail;

#[test]
fn what_is_posted_is_taken_once(rt: HostRuntime) -> Result<(), Fail> {
    let alloc = rt.alloc();
    let first = message(alloc, 0, 0, 3, 1);
    let second = message(alloc, 0, 0, 3, 2);
    let x = exchange(&rt, alloc, 2, first, second)?;
    assert_eq!(rt; x.first.map(|m| m.stamp.0), Some(1));
    assert!(rt; x.second.is_none());
    assert_eq!(rt; x.left.len(), 1);
    assert_eq!(rt;
        stamps(alloc, x.left[0].as_slice())?.as_slice(),
        [2].as_slice()
    );
    let left = close_unused(&rt, alloc, 2)?;
    assert_eq!(rt; left.len(), 1);
    assert_eq!(rt; left[0].len(), 0);
    Ok(())
}

#[test]
fn what_is_left_stands_in_the_order_of_a_poll(rt: HostRuntime) -> Result<(), Fail> {
    let alloc = rt.alloc();
    let mut ends = MailSeg::set_up(alloc, 3)?;
    post_at(&rt, &mut ends, message(alloc, 1, 0, 0, 1))?;
    post_at(&rt, &mut ends, message(alloc, 0, 0, 5, 2))?;
    post_at(&rt, &mut ends, message(alloc, 1, 0, 5, 3))?;
    post_at(&rt, &mut ends, message(alloc, 2, 0, 5, 4))?;
    post_at(&rt, &mut ends, message(alloc, 1, 1, 3, 5))?;
    let left = MailSeg::close(&rt, alloc, ends)?;
    assert_eq!(rt; left.len(), 2);
    assert_eq!(rt;
        stamps(alloc, left[0].as_slice())?.as_slice(),
        [4, 2, 3, 1].as_slice()
    );
    assert_eq!(rt;
        stamps(alloc, left[1].as_slice())?.as_slice(),
        [5].as_slice()
    );
    Ok(())
}
