//! A controller that sends to itself.
ghost use Rattle.std.specs.Prelude.{◌≡◌, ◌+◌, ◌<◌};
ghost use Rattle.mail_core.specs.Tied.{IsTied, StaysTied};

use mail_core::Mail;
use mail_core::caller::close_unused;
use room_kinds::Msg;
use std::alloc::{AllocError, Global};
use test_runs::test_messages::message;

/// Posts a message, and looks at a box; whether the look found one.
#[tactic(auto, using(mail_core::proofs::Tied::tied_steps, mail_core::proofs::PollLemmas::poll_steps))]
fn post_and_take<M: Mail>(
    end: &mut M,
    office: &mut M::Office,
    m: Msg,
    b: u32,
) -> Result<bool, AllocError>
    requires from { m.from.0 ≡ (M.log end.old).party }
    requires to { m.to.0 + 1 < (M.log end.old).parties }
    requires prio { m.prio.0 < 6 }
    requires in_range { b < M.box_count (M.log end.old).party (M.log end.old).parties }
    requires tied { IsTied M.tied (M.log end.old).party office.old end.old }
    ensures party { (M.log end.new).party ≡ (M.log end.old).party }
    ensures parties { (M.log end.new).parties ≡ (M.log end.old).parties }
    ensures tied { StaysTied M.tied (M.log end.old).party office.old office.new end.old end.new }
{
    if end.post(office, m).is_err() {
        return Err(AllocError);
    }
    Ok(end.take(office, b).is_some())
}

/// Posts messages of a controller to itself, and looks after each; how many the looks found.
#[tactic(auto, using(mail_core::proofs::Tied::tied_steps, mail_core::proofs::PollLemmas::poll_steps))]
fn carry<M: Mail>(
    alloc: Global,
    end: &mut M,
    office: &mut M::Office,
    party: u8,
    b: u32,
    count: u64,
) -> Result<u64, AllocError>
    requires party { ((M.log end.old).party ≡ party) × (party + 1 < (M.log end.old).parties) }
    requires in_range { b < M.box_count (M.log end.old).party (M.log end.old).parties }
    requires tied { IsTied M.tied (M.log end.old).party office.old end.old }
{
    let mut found = 0u64;
    for number in 0..count {
        if post_and_take(end, office, message(alloc, party, party, 3, number), b)? {
            found = found.wrapping_add(1);
        }
    }
    Ok(found)
}

/// A mail of one controller, which sends messages to itself; how many came.
pub(crate) fn alone<M: Mail + Drop>(alloc: Global, b: u32, count: u64) -> Result<u64, AllocError>
where
    M::Office: Drop,
    requires { b < M.box_count 0 2 }
{
    let (mut office, mut ends) = M::set_up(alloc, 2)?;
    let end = &mut ends[0];
    carry(alloc, end, &mut office, 0, b, count)
}

/// Sets up so many mails of so many parties and closes them; how many messages were left.
pub(crate) fn unused<M: Mail>(alloc: Global, parties: u8, count: u64) -> Result<u64, AllocError>
    requires { 1 < parties }
{
    let mut came = 0u64;
    for _mail in 0..count {
        let left = close_unused::<M>(alloc, parties)?;
        for list in &left {
            came = came.wrapping_add(list.len() as u64);
        }
    }
    Ok(came)
}
