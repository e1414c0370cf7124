//! Polls of an end's boxes, over any mail.
ghost use Rattle.std.specs.Prelude.{ℕ, List, ◌≡◌, ◌+◌, ◌<◌, ◌++◌, OnOk};
ghost use Rattle.room_kinds.specs.declared.message.Msg.{Msg};
ghost use Rattle.mail_core.specs.EndLog.{EndLog};
ghost use Rattle.mail_core.specs.Takes.{PollsBox, PollsBoxes};
ghost use Rattle.mail_core.specs.Tied.{IsTied, StaysTied};

use crate::mail::Mail;
use room_kinds::Msg;
use std::alloc::AllocError;

/// The most messages that a poll takes from one box.
pub const QUOTA: u32 = 64;

/// Polls one box: takes messages to the end of a list until the box has given 64 or a look finds
/// none. After a refusal the message that was taken last is lost.
#[tactic(auto, using(crate::proofs::Tied::tied_steps, crate::proofs::PollLemmas::poll_steps))]
pub fn poll_box<M: Mail>(
    end: &mut M,
    office: &mut M::Office,
    b: u32,
    out: &mut Vec<Msg>,
) -> Result<(), AllocError>
    requires in_range { b < M.box_count (M.log end.old).party (M.log end.old).parties }
    requires tied { IsTied M.tied (M.log end.old).party office.old end.old }
    ensures ok { OnOk result ((gave : List Msg)
        × (out.new.items ≡ out.old.items ++ gave)
        × PollsBox M.in_box b (M.log end.old) (M.log end.new) gave) }
    ensures party { ((M.log end.new).party ≡ (M.log end.old).party)
        × ((M.log end.new).parties ≡ (M.log end.old).parties) }
    ensures tied { StaysTied M.tied (M.log end.old).party office.old office.new end.old end.new }
{
    for _look in 0..QUOTA {
        let Some(m) = end.take(office, b) else {
            return Ok(());
        };
        out.push(m)?;
    }
    Ok(())
}

/// Polls all boxes of an end once, in the order of a poll. After a refusal the message that was taken
/// last is lost.
#[tactic(auto, using(crate::proofs::Tied::tied_steps, crate::proofs::PollLemmas::poll_steps))]
pub fn poll<M: Mail>(
    end: &mut M,
    office: &mut M::Office,
    out: &mut Vec<Msg>,
) -> Result<(), AllocError>
    requires { IsTied M.tied (M.log end.old).party office.old end.old }
    ensures ok { OnOk result ((gave : List Msg)
        × (out.new.items ≡ out.old.items ++ gave)
        × PollsBoxes M.in_box (M.box_count (M.log end.old).party (M.log end.old).parties)
        (M.log end.old) (M.log end.new) gave) }
    ensures party { ((M.log end.new).party ≡ (M.log end.old).party)
        × ((M.log end.new).parties ≡ (M.log end.old).parties) }
    ensures tied { StaysTied M.tied (M.log end.old).party office.old office.new end.old end.new }
{
    for b in 0..end.boxes() {
        poll_box(end, office, b, out)?;
    }
    Ok(())
}
