//! From a model to its wiring, step by step.
ghost use Rattle.std.specs.Prelude.{◌≡◌, None, true, IfOk};
ghost use Rattle.room_ast.specs.Trees.{model_view};
ghost use Rattle.check_tables.specs.class_tables.Containers.{tables_of};
ghost use Rattle.check_tables.specs.containment_rules.Circles.{data_is_finite};
ghost use Rattle.wiring_slots.specs.slot_tree.Placing.{IsNumbered};
ghost use Rattle.structure_check.specs.List.{all_rules};
ghost use Rattle.structure_check.specs.Rules.{first_broken};
ghost use Rattle.wiring_plan.specs.structure_plan.Plans.{plan_of};
ghost use Rattle.binding_expand.specs.Answers.{Expands, Fits};
ghost use Rattle.binding_expand.specs.Steps.{FindsSlots};

use crate::fault::{ExpandFault, WiringFault};
use crate::joined::joined_places;
use crate::tables::wiring_with;
use check_tables::{Tables, tables_of};
use room_ast::Model;
use room_wiring::Wiring;
use std::alloc::Global;
use structure_check::Checked;
use wiring_slots::{SlotFault, WiredSlots, wired_slots};

/// The slots of a model, within the limits.
fn slots_within(alloc: Global, model: &Model, tables: Tables) -> Result<WiredSlots, ExpandFault>
    requires tables { tables ≡ tables_of (model_view model.now) }
    requires finite { data_is_finite (model_view model.now) ≡ true }
    requires numbered { IsNumbered (plan_of (model_view model.now)) }
    ensures { FindsSlots (model_view model.now) result }
{
    match wired_slots(alloc, model, tables) {
        Ok(slots) => Ok(slots),
        Err(SlotFault::TooManySlots) => Err(ExpandFault::Wiring(WiringFault::TooManySlots)),
        Err(SlotFault::TooManyPlaces) => Err(ExpandFault::Wiring(WiringFault::TooManyPlaces)),
        Err(SlotFault::Memory) => Err(ExpandFault::Memory),
    }
}

/// The slots of a model that keeps all rules. The model's tables go with this call, before the places
/// of the slots take room.
fn kept_slots(alloc: Global, model: &Model) -> Result<WiredSlots, ExpandFault>
    requires { first_broken all_rules (model_view model.now) ≡ None }
    ensures { FindsSlots (model_view model.now) result }
{
    let tables = tables_of(alloc, model)?;
    slots_within(alloc, model, tables)
}

/// The wiring of a model that keeps all rules: its slots, controllers and classes by number, the places
/// of all ports, what each is joined to, and who is told of whom. Else the lowest fault that it has. A
/// model of too many slots or places is refused before anything large is made. It takes time in
/// proportion to the model, and to its slots, their ports and places; for each service access point to
/// the depth of its slot at most, and for who is told to the slots times the controllers.
pub fn expand(alloc: Global, checked: &Checked) -> Result<Wiring, ExpandFault>
    requires { first_broken all_rules (model_view checked.now.model.now) ≡ None }
    ensures expands { Expands (model_view checked.now.model.now) result }
    ensures fits { IfOk result (λ t. Fits t) }
{
    let slots = kept_slots(alloc, checked.model)?;
    let places = joined_places(alloc, &slots.plan, slots.slots.as_slice())?;
    let wiring = wiring_with(alloc, slots, places)?;
    Ok(wiring)
}
