//! One round.
ghost use Rattle.std.specs.Prelude.{◌≡◌, ◌+◌, List, map, length, OnOk};
ghost use Rattle.room_kinds.specs.declared.message.Msg.{Msg as Message};
ghost use Rattle.mail_core.specs.EndLog.{EndLog};
ghost use Rattle.model_run.specs.joined_round.ByPriority.{AreByPriority};
ghost use Rattle.model_run.specs.joined_round.Joined.{AllStand, AreInOrder, HavePosted, AreJoined, RoundDone};

use crate::joined_round::at_once::work_at_once;
use crate::joined_round::joined::{fetch_all, turn_all};
use crate::joined_round::workers::work_in_order;
use controller::{Controller, Plant};
use mail_core::Mail;
use room_outside::Gate;
use std::alloc::{AllocError, Global};
use std::thread::Threads;

/// The joined step: the mail is closed, each controller fetches what is left for it, and each takes one turn.
fn join_all<M: Mail>(
    alloc: Global,
    controllers: &mut Vec<Controller>,
    plant: &Plant,
    office: M::Office,
    ends: Vec<M>,
) -> Result<(), AllocError>
    requires in_order { AreInOrder controllers.old.items }
    requires posted { HavePosted plant.now controllers.old.items }
    requires count { length ends.items ≡ length controllers.old.items + 1 }
    requires tied { M.tied office ends.items }
    requires by_priority { AreByPriority (length plant.now.wiring.controllers) (map M.log
        ends.items) }
    ensures { OnOk result (AreJoined plant.now controllers.old.items controllers.new.items
        (map M.log ends.items)) }
{
    let left = M::close(alloc, office, ends)?;
    fetch_all(alloc, controllers, plant, left)?;
    turn_all(controllers, plant)
}

/// A round over any mail, on the calling thread: the controllers work one after another, each with its end
/// until it finds nothing more to do; then follows the joined step.
pub fn round_in_order<M: Mail + Drop>(
    alloc: Global,
    controllers: &mut Vec<Controller>,
    plant: &Plant,
    mut office: M::Office,
    mut ends: Vec<M>,
) -> Result<(), AllocError>
where
    M::Office: Drop,
    requires stand { AllStand plant.now controllers.old.items }
    requires count { length ends.items ≡ length plant.now.wiring.controllers + 1 }
    requires tied { M.tied office ends.items }
    requires by_priority { AreByPriority (length plant.now.wiring.controllers) (map M.log
        ends.items) }
    ensures { OnOk result ((logs : List EndLog)
        × (answer : List (List Message))
        × RoundDone plant.now controllers.old.items controllers.new.items (map M.log ends.items)
        logs answer) }
{
    work_in_order(controllers, plant, &mut office, &mut ends)?;
    join_all(alloc, controllers, plant, office, ends)
}

/// A round over a mail among threads: all controllers work at once, each with its end until it finds nothing
/// more to do; then follows the joined step, on the calling thread. After a refusal the controllers are given
/// up.
pub fn round_at_once<M: Mail<Office = ()> + Send + Drop, G: Gate + Sync, R: Threads + Sync>(
    rt: &R,
    alloc: Global,
    controllers: &mut Vec<Controller>,
    plant: &Plant,
    ends: Vec<M>,
    gate: &G,
) -> Result<(), AllocError>
    requires stand { AllStand plant.now controllers.old.items }
    requires count { length ends.items ≡ length plant.now.wiring.controllers + 1 }
    requires tied { M.tied tt ends.items }
    requires by_priority { AreByPriority (length plant.now.wiring.controllers) (map M.log
        ends.items) }
    ensures { OnOk result ((logs : List EndLog)
        × (answer : List (List Message))
        × RoundDone plant.now controllers.old.items controllers.new.items (map M.log ends.items)
        logs answer) }
{
    let after = work_at_once(rt, alloc, controllers, plant, ends, gate)?;
    join_all(alloc, controllers, plant, (), after)
}
