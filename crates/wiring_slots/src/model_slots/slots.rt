//! The slots of a model.
ghost use Rattle.std.specs.Prelude.{◌≡◌, true};
ghost use Rattle.room_ast.specs.Trees.{model_view};
ghost use Rattle.check_tables.specs.class_tables.Containers.{tables_of};
ghost use Rattle.check_tables.specs.containment_rules.Circles.{data_is_finite};
ghost use Rattle.wiring_slots.specs.slot_tree.Placing.{IsNumbered};
ghost use Rattle.wiring_plan.specs.structure_plan.Plans.{plan_of};
ghost use Rattle.wiring_slots.specs.model_slots.Answers.{AnswersSlots};

use crate::model_slots::fault::SlotFault;
use crate::slot_names::{WiredNames, wired_names};
use crate::slot_tree::{has_few_slots, has_too_many_places, slots_of};
use check_tables::Tables;
use room_ast::Model;
use room_kinds::Sequence;
use room_wiring::{ClassNames, Label, Slot};
use std::alloc::Global;
use wiring_plan::{StructurePlan, classes_of, plan_of};

/// The structure of a model by number, the names of its controllers and of its actor classes, and its
/// slots.
#[derive(Drop)]
pub struct WiredSlots {
    pub plan: StructurePlan,
    pub controllers: Sequence<Label>,
    pub classes: Sequence<ClassNames>,
    pub slots: Sequence<Slot>,
}

/// The names of the controllers. Those of slots, and the mappings, go here, before the names of classes
/// take room.
fn only_controllers(names: WiredNames) -> Sequence<Label>
    ensures { result ≡ names.controllers }
{
    names.controllers
}

/// The slots of a model that keeps the rules, with its structure and its names, where these are its
/// tables, which go with this call. A structure that stands for too many slots is refused before names
/// and mappings are made, and before more slots than the limit are.
pub fn wired_slots(alloc: Global, model: &Model, tables: Tables) -> Result<WiredSlots, SlotFault>
    requires tables { tables ≡ tables_of (model_view model.now) }
    requires finite { data_is_finite (model_view model.now) ≡ true }
    requires numbered { IsNumbered (plan_of (model_view model.now)) }
    ensures { AnswersSlots (model_view model.now) result }
{
    let plan = plan_of(alloc, model, &tables)?;
    if !has_few_slots(alloc, &plan)? {
        return Err(SlotFault::TooManySlots);
    }
    let names = wired_names(alloc, model, &tables)?;
    let Some(slots) = slots_of(alloc, &plan, &names.slots, &names.mappings)? else {
        return Err(SlotFault::TooManySlots);
    };
    if has_too_many_places(alloc, &plan, slots.as_slice())? {
        return Err(SlotFault::TooManyPlaces);
    }
    let controllers = only_controllers(names);
    let classes = classes_of(alloc, model, tables)?;
    Ok(WiredSlots {
        plan,
        controllers,
        classes,
        slots,
    })
}
