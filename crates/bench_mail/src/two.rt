//! Two controllers, each in a thread, of which one sends to the other.
ghost use Rattle.std.specs.Prelude.{◌≡◌, ◌+◌, ◌<◌};
ghost use Rattle.mail_core.specs.Tied.{IsTied};

use mail_core::Mail;
use std::alloc::{AllocError, Global};
use std::sync::atomic::{AtomicBool, Ordering};
use std::thread;
use std::thread::Threads;
use test_runs::test_messages::message;

/// Posts so many messages to another controller.
#[tactic(auto, using(mail_core::proofs::Tied::tied_steps, mail_core::proofs::PollLemmas::poll_steps))]
fn send<M: Mail<Office = ()>>(
    alloc: Global,
    end: &mut M,
    party: u8,
    to: u8,
    count: u64,
) -> Result<(), AllocError>
    requires party { (M.log end.old).party ≡ party }
    requires to { to + 1 < (M.log end.old).parties }
    requires tied { IsTied M.tied (M.log end.old).party tt end.old }
{
    for number in 0..count {
        if end
            .post(&mut (), message(alloc, party, to, 3, number))
            .is_err()
        {
            return Err(AllocError);
        }
    }
    Ok(())
}

/// Takes from a box until the sender is done and a look finds nothing; how many were found.
#[tactic(auto, using(mail_core::proofs::Tied::tied_steps, mail_core::proofs::PollLemmas::poll_steps))]
fn receive<M: Mail<Office = ()>>(end: &mut M, b: u32, done: &AtomicBool) -> u64
    requires in_range { b < M.box_count (M.log end.old).party (M.log end.old).parties }
    requires tied { IsTied M.tied (M.log end.old).party tt end.old }
{
    let mut found = 0u64;
    for _look in 0..u64::MAX {
        let last = done.load(Ordering::SeqCst);
        let some = end.take(&mut (), b).is_some();
        if some {
            found = found.wrapping_add(1);
        } else if last {
            break;
        }
    }
    found
}

fn send_all<M: Mail<Office = ()> + Drop>(
    alloc: Global,
    mut end: M,
    count: u64,
    done: &AtomicBool,
) -> Result<(), AllocError>
    requires party { (M.log end).party ≡ 0 }
    requires parties { (M.log end).parties ≡ 3 }
    requires tied { IsTied M.tied 0 tt end }
{
    let sent = send(alloc, &mut end, 0, 1, count);
    done.store(true, Ordering::SeqCst);
    sent
}

fn receive_all<M: Mail<Office = ()> + Drop>(mut end: M, b: u32, done: &AtomicBool) -> u64
    requires in_range { b < M.box_count (M.log end).party (M.log end).parties }
    requires tied { IsTied M.tied (M.log end).party tt end }
{
    receive(&mut end, b, done)
}

/// A mail of two controllers; how many messages of the first the second took.
pub(crate) fn two<M: Mail<Office = ()> + Send + Drop, R: Threads>(
    rt: &R,
    alloc: Global,
    b: u32,
    count: u64,
) -> Result<u64, AllocError>
    requires { b < M.box_count 1 3 }
{
    let (_office, mut ends) = M::set_up(alloc, 3)?;
    let first = ends.remove(0);
    let second = ends.remove(0);
    let done = AtomicBool::new(false);
    let over = &done;
    let (sent, found) = thread::join(
        rt,
        move || -> Result<(), AllocError>
            requires { ((M.log first).party ≡ 0)
                × ((M.log first).parties ≡ 3)
                × IsTied M.tied 0 tt first }
        { send_all(alloc, first, count, over) },
        move || -> u64
            requires { let log = M.log second in
                (b < M.box_count log.party log.parties) × IsTied M.tied log.party tt second }
        { receive_all(second, b, over) },
    );
    sent?;
    Ok(found)
}
