//! The workers of all controllers, one after another on the calling thread.
ghost use Rattle.std.specs.Prelude.{◌≡◌, ◌+◌, map, length, OnOk};
ghost use Rattle.model_run.specs.joined_round.Joined.{AllStand, HaveWorked};

use crate::run_worker::work;
use crate::worker_pauses::NoPauses;
use controller::{Controller, Plant};
use mail_core::Mail;
use room_outside::OpenGate;
use std::alloc::AllocError;

/// Each controller works with its end, in order of number.
pub(crate) fn work_in_order<M: Mail>(
    controllers: &mut Vec<Controller>,
    plant: &Plant,
    office: &mut M::Office,
    ends: &mut Vec<M>,
) -> Result<(), AllocError>
    requires stand { AllStand plant.now controllers.old.items }
    requires count { length ends.old.items ≡ length plant.now.wiring.controllers + 1 }
    requires tied { M.tied office.old ends.old.items }
    ensures worked { OnOk result (HaveWorked plant.now controllers.old.items
        (map M.log ends.old.items) controllers.new.items (map M.log ends.new.items)) }
    ensures tied { OnOk result (M.tied office.new ends.new.items) }
{
    for number in 0..plant.wiring.controller_count() {
        let place = usize::from(number);
        work(
            number,
            &mut controllers[place],
            plant,
            office,
            &mut ends[place],
            &OpenGate,
            &mut NoPauses,
        )?;
    }
    Ok(())
}
