//! The same over shared boxes, whose calls wait.
ghost use Rattle.std.specs.Prelude.{◌≡◌, ◌+◌, ◌<◌};
ghost use Rattle.mail_seg.specs.Ends.{log_of, shared_boxes};

use mail_seg::MailSeg;
use std::alloc::{AllocError, Global};
use std::sync::Wait;
use std::sync::atomic::{AtomicBool, Ordering};
use std::thread;
use std::thread::Threads;
use test_runs::test_messages::message;

/// Posts messages of a controller to itself, and looks after each; how many the looks found.
#[tactic(auto, using(mail_core::proofs::Tied::tied_steps, mail_core::proofs::PollLemmas::poll_steps))]
fn carry<R: Wait>(rt: &R, alloc: Global, end: &mut MailSeg, count: u64) -> Result<u64, AllocError>
    requires { ((log_of end.old).party ≡ 0) × ((log_of end.old).parties ≡ 2) }
{
    let mut found = 0u64;
    for number in 0..count {
        if end.post(rt, message(alloc, 0, 0, 3, number)).is_err() {
            return Err(AllocError);
        }
        let some = end.take(rt, 2).is_some();
        if some {
            found = found.wrapping_add(1);
        }
    }
    Ok(found)
}

/// A mail of one controller, which sends messages to itself; how many came.
pub(crate) fn shared_alone<R: Wait>(rt: &R, alloc: Global, count: u64) -> Result<u64, AllocError> {
    let mut ends = MailSeg::set_up(alloc, 2)?;
    let end = &mut ends[0];
    carry(rt, alloc, end, count)
}

#[tactic(auto, using(mail_core::proofs::Tied::tied_steps, mail_core::proofs::PollLemmas::poll_steps))]
fn send<R: Wait>(rt: &R, alloc: Global, end: &mut MailSeg, count: u64) -> Result<(), AllocError>
    requires { ((log_of end.old).party ≡ 0) × ((log_of end.old).parties ≡ 3) }
{
    for number in 0..count {
        if end.post(rt, message(alloc, 0, 1, 3, number)).is_err() {
            return Err(AllocError);
        }
    }
    Ok(())
}

/// Takes from a box until the sender is done and a look finds nothing; how many were found.
#[tactic(auto, using(mail_core::proofs::Tied::tied_steps, mail_core::proofs::PollLemmas::poll_steps))]
fn receive<R: Wait>(rt: &R, end: &mut MailSeg, done: &AtomicBool) -> u64
    requires { ((log_of end.old).party ≡ 1) × ((log_of end.old).parties ≡ 3) }
{
    let mut found = 0u64;
    for _look in 0..u64::MAX {
        let last = done.load(Ordering::SeqCst);
        let some = end.take(rt, 2).is_some();
        if some {
            found = found.wrapping_add(1);
        } else if last {
            break;
        }
    }
    found
}

fn send_all<R: Wait>(
    rt: &R,
    alloc: Global,
    mut end: MailSeg,
    count: u64,
    done: &AtomicBool,
) -> Result<(), AllocError>
    requires { ((log_of end).party ≡ 0) × ((log_of end).parties ≡ 3) }
{
    let sent = send(rt, alloc, &mut end, count);
    done.store(true, Ordering::SeqCst);
    sent
}

fn receive_all<R: Wait>(rt: &R, mut end: MailSeg, done: &AtomicBool) -> u64
    requires { ((log_of end).party ≡ 1) × ((log_of end).parties ≡ 3) }
{
    receive(rt, &mut end, done)
}

/// A mail of two controllers; how many messages of the first the second took.
pub(crate) fn shared_two<R: Threads + Wait + Sync>(
    rt: &R,
    alloc: Global,
    count: u64,
) -> Result<u64, AllocError> {
    let mut ends = MailSeg::set_up(alloc, 3)?;
    let first = ends.remove(0);
    let second = ends.remove(0);
    let done = AtomicBool::new(false);
    let over = &done;
    let (sent, found) = thread::join(
        rt,
        move || -> Result<(), AllocError>
            requires { ((log_of first).party ≡ 0) × ((log_of first).parties ≡ 3) }
        { send_all(rt, alloc, first, count, over) },
        move || -> u64
            requires { ((log_of second).party ≡ 1) × ((log_of second).parties ≡ 3) }
        { receive_all(rt, second, over) },
    );
    sent?;
    Ok(found)
}
