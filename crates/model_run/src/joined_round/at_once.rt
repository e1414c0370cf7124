//! The workers of all controllers, each on a thread.
ghost use Rattle.std.specs.Prelude.{◌≡◌, ◌+◌, map, length, IfOk};
ghost use Rattle.model_run.specs.joined_round.Joined.{AllStand, HaveWorked};

use crate::joined_round::halves::work_halves;
use crate::joined_round::seat::Shared;
use crate::joined_round::seats::{seated, unseated};
use controller::{Controller, Plant};
use mail_core::Mail;
use room_outside::Gate;
use std::alloc::{AllocError, Global};
use std::mem;
use std::thread::Threads;

/// All controllers work at once, each with its end. It answers the ends, the environment's last. After a
/// refusal the controllers are given up.
pub(crate) fn work_at_once<M: Mail<Office = ()> + Send + Drop, G: Gate + Sync, R: Threads + Sync>(
    rt: &R,
    alloc: Global,
    controllers: &mut Vec<Controller>,
    plant: &Plant,
    mut ends: Vec<M>,
    gate: &G,
) -> Result<Vec<M>, AllocError>
    requires stand { AllStand plant.now controllers.old.items }
    requires count { length ends.items ≡ length plant.now.wiring.controllers + 1 }
    requires tied { M.tied tt ends.items }
    ensures worked { IfOk result (λ after.
        HaveWorked plant.now controllers.old.items (map M.log ends.items) controllers.new.items
        (map M.log after.items)) }
    ensures tied { IfOk result (λ after. M.tied tt after.items) }
{
    let Some(environment) = ends.pop() else {
        unreachable!()
    };
    let idle = mem::replace(controllers, Vec::new(alloc));
    let count = plant.wiring.controller_count();
    let mut seats = seated(alloc, count, idle, ends)?;
    let shared = Shared {
        gate,
        is_one: count == 1,
    };
    work_halves(rt, plant, &shared, seats.as_mut_slice())?;
    let (worked, mut after) = unseated(alloc, seats)?;
    *controllers = worked;
    after.push(environment)?;
    Ok(after)
}
