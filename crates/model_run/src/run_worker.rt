//! A controller's worker: what a controller does in a round, while the others do the same.
//!
//! Over any mail: each turn is prompt, and what the controller's end has posted and taken is just what its
//! journal says.
ghost use Rattle.std.specs.Prelude.{◌≡◌, ◌+◌, ◌<◌, ◌≤◌, [], length, IfOk, OnOk};
ghost use Rattle.mail_core.specs.Tied.{IsTied, StaysTied};
ghost use Rattle.controller.specs.Controllers.{IsOf};
ghost use Rattle.model_run.specs.run_worker.Works.{Counted, Did, Works};

use crate::worker_pauses::Pauses;
use controller::{Controller, Plant};
use mail_core::Mail;
use room_outside::{ControllerNo, Gate};
use std::alloc::AllocError;

/// After so many steps in a row that fetched and turned nothing a worker ends, unless it works alone.
const IDLE_STEPS: u32 = 64;

/// After how many such steps it ends. What one that works alone hasn't found isn't there.
fn most_idle_steps(is_alone: bool) -> u32
    ensures { result ≤ 64 }
{
    if is_alone { 1 } else { IDLE_STEPS }
}

/// A poll, and a turn if a message waits for one: then the controller first enters the gate, under its
/// number and with the turns that it has taken. It answers whether it took a turn. If not, it fetched nothing
/// either: what is fetched waits for a turn.
fn poll_and_turn<M: Mail, G: Gate>(
    number: ControllerNo,
    controller: &mut Controller,
    plant: &Plant,
    office: &mut M::Office,
    end: &mut M,
    gate: &G,
) -> Result<bool, AllocError>
    requires number { number ≡ controller.old.me.0 }
    requires of { IsOf plant.now controller.old }
    requires party { (M.log end.old).party ≡ controller.old.me.0 }
    requires parties { (M.log end.old).parties ≡ length plant.now.wiring.controllers + 1 }
    requires tied { IsTied M.tied (M.log end.old).party office.old end.old }
    requires posted { controller.old.mail.outbox ≡ [] }
    requires fuel { controller.old.mail.turns < controller.old.fuel }
    ensures ok { OnOk result (Did plant.now controller.old controller.new (M.log end.old)
        (M.log end.new)) }
    ensures counted { IfOk result (λ turned. Counted turned controller.old controller.new) }
    ensures of { IsOf plant.now controller.new }
    ensures tied { StaysTied M.tied (M.log end.old).party office.old office.new end.old end.new }
{
    controller.poll(plant, office, end)?;
    if !controller.has_pending() {
        return Ok(false);
    }
    gate.enter(number, controller.turns());
    controller.turn(plant)
}

/// A poll, a turn, and the posts of what the turn sent. It answers whether it took a turn.
fn step<M: Mail, G: Gate>(
    number: ControllerNo,
    controller: &mut Controller,
    plant: &Plant,
    office: &mut M::Office,
    end: &mut M,
    gate: &G,
) -> Result<bool, AllocError>
    requires number { number ≡ controller.old.me.0 }
    requires of { IsOf plant.now controller.old }
    requires party { (M.log end.old).party ≡ controller.old.me.0 }
    requires parties { (M.log end.old).parties ≡ length plant.now.wiring.controllers + 1 }
    requires tied { IsTied M.tied (M.log end.old).party office.old end.old }
    requires posted { controller.old.mail.outbox ≡ [] }
    requires fuel { controller.old.mail.turns < controller.old.fuel }
    ensures ok { OnOk result (Works plant.now controller.old controller.new (M.log end.old)
        (M.log end.new)) }
    ensures counted { IfOk result (λ turned. Counted turned controller.old controller.new) }
    ensures of { IsOf plant.now controller.new }
    ensures tied { StaysTied M.tied (M.log end.old).party office.old office.new end.old end.new }
{
    let turned = poll_and_turn(number, controller, plant, office, end, gate)?;
    controller.post_all(plant, office, end)?;
    Ok(turned)
}

/// A controller posts what it has to post, and then goes step by step until 64 steps in a row fetched and
/// turned nothing, or one where it works alone, or until its fuel is spent: then it polls no more. Before each
/// turn, and nowhere else, it enters the gate.
pub fn work<M: Mail, G: Gate, W: Pauses>(
    number: ControllerNo,
    controller: &mut Controller,
    plant: &Plant,
    office: &mut M::Office,
    end: &mut M,
    gate: &G,
    pauses: &mut W,
) -> Result<(), AllocError>
    requires number { number ≡ controller.old.me.0 }
    requires of { IsOf plant.now controller.old }
    requires party { (M.log end.old).party ≡ controller.old.me.0 }
    requires parties { (M.log end.old).parties ≡ length plant.now.wiring.controllers + 1 }
    requires tied { IsTied M.tied (M.log end.old).party office.old end.old }
    ensures ok { OnOk result (Works plant.now controller.old controller.new (M.log end.old)
        (M.log end.new)) }
    ensures of { IsOf plant.now controller.new }
    ensures tied { StaysTied M.tied (M.log end.old).party office.old office.new end.old end.new }
{
    controller.post_all(plant, office, end)?;
    let most = most_idle_steps(pauses.is_alone());
    let mut idle = 0u32;
    while !controller.is_spent() && idle < most {
        pauses.before_step(idle, end);
        let turned = step(number, controller, plant, office, end, gate)?;
        idle = if turned { 0 } else { idle + 1 };
    }
    Ok(())
}
