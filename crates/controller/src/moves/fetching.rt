//! Fetches, and polls of boxes.
ghost use Rattle.std.specs.Prelude.{◌≡◌, ℕ, ◌+◌, ◌-◌, ◌<◌, ◌≤◌, length, All, OnOk, OnErr, IfOk};
ghost use Rattle.mail_core.specs.Tied.{IsTied, StaysTied};
ghost use Rattle.controller_mail.specs.MailState.{HasPriority};
ghost use Rattle.controller_mail.specs.Within.{WaitsWithin, IsAnswerable};
ghost use Rattle.controller_mail.specs.controller_moves.Moves.{FetchesEach, PollsBoxInto, PollsInto};
ghost use Rattle.controller.specs.Calls.{IsCutOff};

use crate::controller::Controller;
use mail_core::Mail;
use mail_core::poll::QUOTA;
use room_kinds::Msg;
use std::alloc::AllocError;
use std::collections::VecDeque;

/// Fetches messages of a controller, in order. If those of the system level come from controllers, then what
/// waits in the controller's mail may be answered still. After want of memory the mail is unspecified.
pub(crate) fn fetch_all(controller: &mut Controller, messages: Vec<Msg>) -> Result<(), AllocError>
    requires { All HasPriority messages.items }
    ensures ok { OnOk result (FetchesEach controller.old.mail messages.items controller.new.mail) }
    ensures waits { OnOk result
        ((n : ℕ) → All (IsAnswerable n) messages.items → WaitsWithin n controller.old.mail
        → WaitsWithin n controller.new.mail) }
    ensures others { OnOk result (controller.new
        ≡ record controller.old { mail = controller.new.mail }) }
    ensures me { controller.new.me ≡ controller.old.me }
{
    let mut queue = VecDeque::from_vec(messages);
    while let Some(m) = queue.pop_front() {
        controller.fetch(m)?;
    }
    Ok(())
}

/// Takes the memory for the next message, unless it was taken already.
fn get_ready(controller: &mut Controller, ready: &mut bool) -> Result<(), AllocError>
    ensures { controller.new ≡ controller.old }
{
    if *ready {
        return Ok(());
    }
    controller.make_room()?;
    *ready = true;
    Ok(())
}

/// Looks at a box until it gives nothing or has given 64, and fetches each message that it gives. `ready` is
/// whether the memory for the next message was taken already; no look is taken without it.
fn poll_box<M: Mail>(
    controller: &mut Controller,
    office: &mut M::Office,
    end: &mut M,
    b: u32,
    ready: &mut bool,
) -> Result<(), AllocError>
    requires in_range { b < M.box_count (M.log end.old).party (M.log end.old).parties }
    requires tied { IsTied M.tied (M.log end.old).party office.old end.old }
    ensures ok { OnOk result (PollsBoxInto M.in_box b controller.old.mail controller.new.mail
        (M.log end.old) (M.log end.new)) }
    ensures err { OnErr result (IsCutOff controller.old controller.new (M.log end.old)
        (M.log end.new)) }
    ensures others { controller.new ≡ record controller.old { mail = controller.new.mail } }
    ensures party { ((M.log end.new).party ≡ (M.log end.old).party)
        × ((M.log end.new).parties ≡ (M.log end.old).parties) }
    ensures tied { StaysTied M.tied (M.log end.old).party office.old office.new end.old end.new }
{
    for _look in 0..QUOTA {
        get_ready(controller, ready)?;
        let Some(m) = end.take(office, b) else {
            return Ok(());
        };
        controller.fetch(m)?;
        *ready = false;
    }
    Ok(())
}

/// How many entries the journal has more than it had.
fn entries_since(controller: &Controller, had: usize) -> usize
    requires { had ≤ length controller.now.mail.journal }
    ensures { had + result ≡ length controller.now.mail.journal }
{
    controller.entries().len() - had
}

/// Looks at every box of a controller's end once, in the order of a poll, takes from each until it gives
/// nothing or has given 64, and fetches what was taken. All parties but the last are controllers. It answers
/// how many messages these are. Before a message is taken there is the memory for its place, its entry and a
/// copy of it, so what was taken before want of memory was fetched, but for at most one message.
pub(crate) fn poll_boxes<M: Mail>(
    controller: &mut Controller,
    office: &mut M::Office,
    end: &mut M,
) -> Result<usize, AllocError>
    requires controller { (M.log end.old).party + 1 < (M.log end.old).parties }
    requires tied { IsTied M.tied (M.log end.old).party office.old end.old }
    ensures ok { IfOk result (λ count.
        PollsInto M.in_box (M.box_count (M.log end.old).party (M.log end.old).parties)
        controller.old.mail controller.new.mail (M.log end.old) (M.log end.new) count) }
    ensures err { OnErr result (IsCutOff controller.old controller.new (M.log end.old)
        (M.log end.new)) }
    ensures waits { OnOk result (WaitsWithin ((M.log end.old).parties - 1) controller.old.mail
        → WaitsWithin ((M.log end.old).parties - 1) controller.new.mail) }
    ensures others { controller.new ≡ record controller.old { mail = controller.new.mail } }
    ensures party { ((M.log end.new).party ≡ (M.log end.old).party)
        × ((M.log end.new).parties ≡ (M.log end.old).parties) }
    ensures tied { StaysTied M.tied (M.log end.old).party office.old office.new end.old end.new }
{
    let had = controller.entries().len();
    let mut ready = false;
    for b in 0..end.boxes() {
        poll_box(controller, office, end, b, &mut ready)?;
    }
    Ok(entries_since(controller, had))
}
