//! The joined step of all controllers.
ghost use Rattle.std.specs.Prelude.{◌≡◌, ℕ, [], map, false, length, slice_get, Some, OnOk};
ghost use Rattle.model_run.specs.run_rounds.OneByOne.{StepsBelow};
ghost use Rattle.controller.specs.Controllers.{IsOf};
ghost use Rattle.controller.specs.View.{Controller as Seated};
ghost use Rattle.model_run.specs.joined_round.ByPriority.{AreAnswerable, AreForThem, HavePriorities};
ghost use Rattle.model_run.specs.joined_round.Joined.{AreInOrder, FetchedAt, TurnedAt, LastTurn, IsReady};

use controller::{Controller, Plant};
use room_kinds::Msg;
use std::alloc::{AllocError, Global};
use std::mem;

/// Each controller fetches what is left for it, in order of number, whether its fuel is spent or not.
pub(crate) fn fetch_all(
    alloc: Global,
    controllers: &mut Vec<Controller>,
    plant: &Plant,
    mut left: Vec<Vec<Msg>>,
) -> Result<(), AllocError>
    requires of { (c : ℕ) (k : Seated) → slice_get controllers.old.items c ≡ Some k
        → IsOf plant.now k }
    requires count { length left.items ≡ length controllers.old.items }
    requires in_order { AreInOrder controllers.old.items }
    requires to { AreForThem (map (λ v. v.items) left.items) }
    requires priorities { HavePriorities (map (λ v. v.items) left.items) }
    requires answerable { AreAnswerable (length plant.now.wiring.controllers) (map (λ v. v.items)
        left.items) }
    ensures ok { OnOk result (StepsBelow (FetchedAt plant.now (map (λ v. v.items) left.items))
        (length controllers.old.items)
        (slice_get controllers.old.items) (slice_get controllers.new.items)) }
    ensures count { OnOk result (length controllers.new.items ≡ length controllers.old.items) }
{
    for i in 0..controllers.len() {
        let list = mem::replace(&mut left[i], Vec::new(alloc));
        controllers[i].fetch_left(plant, list)?;
    }
    Ok(())
}

/// One turn, if the fuel is not spent and a message waits for one.
fn last_turn(controller: &mut Controller, plant: &Plant) -> Result<(), AllocError>
    requires ready { IsReady plant.now controller.old }
    ensures ok { OnOk result (LastTurn plant.now controller.old controller.new) }
    ensures of { IsOf plant.now controller.new }
{
    if controller.is_spent() || !controller.has_pending() {
        return Ok(());
    }
    controller.turn(plant)?;
    Ok(())
}

/// Each controller whose fuel is not spent takes a turn, if a message waits for one.
pub(crate) fn turn_all(controllers: &mut Vec<Controller>, plant: &Plant) -> Result<(), AllocError>
    requires ready { (c : ℕ) (k : Seated) → slice_get controllers.old.items c ≡ Some k
        → IsReady plant.now k }
    ensures ok { OnOk result (StepsBelow (TurnedAt plant.now) (length controllers.old.items)
        (slice_get controllers.old.items) (slice_get controllers.new.items)) }
    ensures count { OnOk result (length controllers.new.items ≡ length controllers.old.items) }
{
    for i in 0..controllers.len() {
        last_turn(&mut controllers[i], plant)?;
    }
    Ok(())
}
