//! What the bindings of all containers take.
ghost use Rattle.std.specs.Prelude.{◌≡◌, ℕ, ◌^◌, ◌<◌, Some, IfOk, MatchOption, true};
ghost use Rattle.std.specs.List.{list_any};
ghost use Rattle.wiring_places.specs.place_rules.Parts.{inside_of};
ghost use Rattle.wiring_places.specs.place_rules.Pairs.{pairs_nothing, lacks_place};
ghost use Rattle.wiring_places.specs.place_rules.Stretches.{all_taken};
ghost use Rattle.wiring_places.specs.place_spans.Containers.{IsOfClass, AreContainers, AreSoFar, TakesFew};

use crate::binding_stretches::{ClassStretches, class_stretches, no_stretches};
use crate::place_rules::Stretch;
use room_wiring::Slot;
use std::alloc::{AllocError, Global};
use wiring_plan::StructurePlan;

/// What the bindings inside a slot take; an imported slot has no inside.
fn inside_stretches(
    alloc: Global,
    plan: &StructurePlan,
    slot: &Slot,
) -> Result<ClassStretches, AllocError>
    requires { (side : ℕ) → all_taken plan.now (inside_of plan.now (Some slot.now)) side < 2 ^ 64 }
    ensures { IfOk result (λ y. IsOfClass plan.now (inside_of plan.now (Some slot.now)) y) }
{
    if slot.kind.is_imported() {
        return Ok(no_stretches(alloc));
    }
    match plan.classes.as_slice().get(usize::from(slot.class)) {
        Some(class) => class_stretches(alloc, plan, class),
        None => Ok(no_stretches(alloc)),
    }
}

/// Whether a binding pairs nothing.
fn any_pairs_nothing(stretches: &[Stretch]) -> bool
    ensures { result ≡ list_any pairs_nothing stretches.now }
{
    stretches.iter().any(|stretch| stretch.count == 0)
}

/// Whether one of these bindings pairs nothing.
fn has_idle_binding(class: &ClassStretches) -> bool
    ensures { result ≡ list_any pairs_nothing class.now.stretches.items }
{
    any_pairs_nothing(class.stretches.as_slice())
}

/// What the bindings of each container take, the subsystem first and then the insides of the slots;
/// none where some binding pairs nothing. It takes time in proportion to the slots and what is paired.
pub fn container_stretches(
    alloc: Global,
    plan: &StructurePlan,
    slots: &[Slot],
) -> Result<Option<Vec<ClassStretches>>, AllocError>
    requires { TakesFew plan.now slots.now }
    ensures { IfOk result (λ o.
        MatchOption o (lacks_place plan.now slots.now ≡ true)
        (λ v. AreContainers plan.now slots.now v.items)) }
{
    let subsystem = class_stretches(alloc, plan, &plan.subsystem)?;
    if has_idle_binding(&subsystem) {
        return Ok(None);
    }
    let mut containers = Vec::new(alloc);
    containers.push(subsystem)?;
    for slot in slots {
        let inside = inside_stretches(alloc, plan, slot)?;
        if has_idle_binding(&inside) {
            return Ok(None);
        }
        containers.push(inside)?;
    }
    Ok(Some(containers))
}
