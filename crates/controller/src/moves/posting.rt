//! Posts from the outbox.
ghost use Rattle.std.specs.Prelude.{◌≡◌, ◌+◌, ◌-◌, ◌<◌, [], OnOk};
ghost use Rattle.mail_core.specs.EndLog.{posting};
ghost use Rattle.mail_core.specs.Tied.{IsTied, StaysTied};
ghost use Rattle.controller_mail.specs.Within.{WaitsWithin};
ghost use Rattle.controller_mail.specs.controller_moves.Moves.{PostsFrom};

use crate::controller::Controller;
use mail_core::Mail;
use room_kinds::Msg;
use std::alloc::AllocError;

/// Posts one message.
#[tactic(auto, using(mail_core::proofs::Tied::tied_steps))]
fn post_one<M: Mail>(office: &mut M::Office, end: &mut M, m: Msg) -> Result<(), AllocError>
    requires from { m.from.0 ≡ (M.log end.old).party }
    requires to { m.to.0 + 1 < (M.log end.old).parties }
    requires prio { m.prio.0 < 6 }
    requires tied { IsTied M.tied (M.log end.old).party office.old end.old }
    ensures ok { OnOk result (M.log end.new ≡ posting (M.log end.old) m) }
    ensures party { ((M.log end.new).party ≡ (M.log end.old).party)
        × ((M.log end.new).parties ≡ (M.log end.old).parties) }
    ensures tied { StaysTied M.tied (M.log end.old).party office.old office.new end.old end.new }
{
    match end.post(office, m) {
        Ok(()) => Ok(()),
        Err(_refused) => Err(AllocError),
    }
}

/// Posts all that waits in the outbox of a controller. All parties but the last are controllers. After want of
/// memory the controller's mail is unspecified.
#[tactic(auto, using(mail_core::proofs::Tied::tied_steps, controller_mail::proofs::controller_moves::Posted::posted_steps))]
pub(crate) fn post_outbox<M: Mail>(
    controller: &mut Controller,
    office: &mut M::Office,
    end: &mut M,
) -> Result<(), AllocError>
    requires party { (M.log end.old).party ≡ controller.old.me.0 }
    requires waits { WaitsWithin ((M.log end.old).parties - 1) controller.old.mail }
    requires tied { IsTied M.tied (M.log end.old).party office.old end.old }
    ensures ok { OnOk result (PostsFrom controller.old.me.0 ((M.log end.old).parties - 1)
        controller.old.mail controller.new.mail (M.log end.old) (M.log end.new)) }
    ensures waits { OnOk result (WaitsWithin ((M.log end.old).parties - 1) controller.new.mail) }
    ensures empty { OnOk result (controller.new.mail.outbox ≡ []) }
    ensures others { OnOk result (controller.new
        ≡ record controller.old { mail = controller.new.mail }) }
    ensures me { controller.new.me ≡ controller.old.me }
    ensures party { ((M.log end.new).party ≡ (M.log end.old).party)
        × ((M.log end.new).parties ≡ (M.log end.old).parties) }
    ensures tied { StaysTied M.tied (M.log end.old).party office.old office.new end.old end.new }
{
    while controller.has_outbox() {
        match controller.post() {
            Ok(Some(m)) => post_one(office, end, m)?,
            Ok(None) => return Ok(()),
            Err(refused) => return Err(refused),
        }
    }
    Ok(())
}
