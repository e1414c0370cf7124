//! How many places the ports of all slots have.
ghost use Rattle.std.specs.Prelude.{◌≡◌, ℕ, ◌^◌, ◌<◌, ◌≤◌, List, length, slice_get, sum, IfOk};
ghost use Rattle.std.specs.Option.{option_copied};
ghost use Rattle.room_wiring.specs.declared.slot.Slot.{Slot as AnySlot};
ghost use Rattle.wiring_plan.specs.declared.structure_plan.plan.StructurePlan.{StructurePlan as AnyPlan};
ghost use Rattle.wiring_places.specs.declared.place_rules.place.LayerJoin.{LayerJoin as AnyJoin};
ghost use Rattle.wiring_places.specs.binding_stretches.Taken.{taken_in};
ghost use Rattle.wiring_places.specs.place_rules.Parts.{HasFewPorts, class_plan, container_class, container_of_parent};
ghost use Rattle.wiring_places.specs.place_rules.Stretches.{none_taken, all_taken};
ghost use Rattle.wiring_places.specs.place_rules.Counts.{served_at, counts};
ghost use Rattle.wiring_places.specs.place_spans.Containers.{AreContainers};

use crate::binding_stretches::{ClassStretches, Taken};
use crate::place_spans::counts::{Counting, add_counts};
use room_kinds::SlotId;
use room_wiring::Slot;
use std::alloc::{AllocError, Global};
use wiring_plan::{PortPlan, StructurePlan};

/// The ports of an actor class.
pub(crate) fn class_ports(plan: &StructurePlan, class: u16) -> &[PortPlan]
    ensures { result.now ≡ (class_plan plan.now class).ports }
{
    match plan.classes.as_slice().get(usize::from(class)) {
        Some(class) => class.ports.as_slice(),
        None => &[],
    }
}

fn stretches_at(containers: &[ClassStretches], container: usize) -> Option<&ClassStretches>
    ensures { option_copied result ≡ slice_get containers.now container }
{
    containers.get(container)
}

/// What the bindings of a container take; `nothing` where there is no such container.
fn taken_at<'a>(containers: &'a [ClassStretches], nothing: &'a Taken, container: usize) -> &'a Taken
    requires { taken_in nothing.now ≡ none_taken }
    ensures { (plan : AnyPlan) (slots : List AnySlot) → AreContainers plan slots containers.now
        → taken_in result.now ≡ all_taken plan (container_class plan slots container) }
{
    match stretches_at(containers, container) {
        Some(class) => &class.taken,
        None => nothing,
    }
}

/// The container that a slot with this parent stands in.
fn container_of_parent(parent: Option<SlotId>) -> usize
    ensures { result ≡ container_of_parent parent }
{
    match parent {
        Some(slot) => usize::from(slot.0) + 1,
        None => 0,
    }
}

/// How many places each port of each slot has, slot after slot. `containers` says what the bindings of
/// each container take, `served` how many service access points each port of each slot serves. It takes
/// time in proportion to the ports of the slots.
pub fn port_counts(
    alloc: Global,
    plan: &StructurePlan,
    slots: &[Slot],
    containers: &[ClassStretches],
    served: &Taken,
) -> Result<Vec<u32>, AllocError>
    requires few { length slots.now ≤ 2 ^ 16 }
    requires ports { HasFewPorts plan.now }
    requires containers { AreContainers plan.now slots.now containers.now }
    requires places { (joins : List AnyJoin) × (taken_in served.now ≡ served_at joins)
        × (sum (counts plan.now slots.now joins) < 2 ^ 32) }
    ensures { IfOk result (λ v.
        (joins : List AnyJoin) → taken_in served.now ≡ served_at joins
        → v.items ≡ counts plan.now slots.now joins) }
{
    let nothing = Taken::new(alloc);
    let mut counts = Vec::new(alloc);
    for (s, slot) in slots.iter().enumerate() {
        let outside = taken_at(containers, &nothing, container_of_parent(slot.parent));
        let inside = taken_at(containers, &nothing, s + 1);
        let known = Counting {
            outside,
            inside,
            served,
            slot: s as u16,
            imported: slot.kind.is_imported(),
            reference: slot.reference,
        };
        add_counts(&mut counts, &known, class_ports(plan, slot.class))?;
    }
    Ok(counts)
}
