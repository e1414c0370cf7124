//! The pairs of all containers.
ghost use Rattle.std.specs.Prelude.{◌≡◌, ◌+◌, ◌<◌, ◌≤◌, ◌^◌, ◌++◌, List, All, length, slice_get, IfOk, OnOk};
ghost use Rattle.std.specs.Option.{option_copied};
ghost use Rattle.number_graphs.specs.face_chains.Chains.{AreBelow};
ghost use Rattle.room_wiring.specs.declared.slot.Slot.{Slot as AnySlot};
ghost use Rattle.wiring_places.specs.place_rules.Parts.{inside_of, container_class};
ghost use Rattle.wiring_places.specs.place_rules.Pairs.{binding_pairs, container_pairs};
ghost use Rattle.wiring_places.specs.slot_children.Table.{IsTableOf};
ghost use Rattle.wiring_places.specs.place_spans.Containers.{AreContainers, TakesFew};
ghost use Rattle.wiring_places.specs.place_pairs.Classes.{class_or_none};
ghost use Rattle.wiring_places.specs.place_pairs.Fits.{EndsWithin, BindingsFit};

use crate::binding_stretches::ClassStretches;
use crate::place_pairs::bindings::{Container, add_binding_pairs};
use crate::place_rules::Stretch;
use crate::slot_children::Children;
use number_graphs::FacePair;
use room_wiring::{PlaceSpan, Slot};
use std::alloc::{AllocError, Global};
use wiring_plan::{ClassPlan, StructurePlan};

fn class_at(classes: &[ClassPlan], class: u16) -> Option<&ClassPlan>
    ensures { option_copied result ≡ slice_get classes.now class }
{
    classes.get(usize::from(class))
}

fn slot_at(slots: &[Slot], slot: usize) -> Option<&Slot>
    ensures { option_copied result ≡ slice_get slots.now slot }
{
    slots.get(slot)
}

/// The class of what stands inside a slot, if it has an inside.
fn inside_class<'a>(plan: &'a StructurePlan, slot: Option<&Slot>) -> Option<&'a ClassPlan>
    ensures { class_or_none (option_copied result) ≡ inside_of plan.now (option_copied slot.entry) }
{
    match slot {
        Some(slot) => {
            if slot.kind.is_imported() {
                None
            } else {
                class_at(plan.classes.as_slice(), slot.class)
            }
        }
        None => None,
    }
}

/// The class whose bindings a container has, if it has any.
fn class_of_container<'a>(
    plan: &'a StructurePlan,
    slots: &[Slot],
    container: usize,
) -> Option<&'a ClassPlan>
    ensures { class_or_none (option_copied result) ≡ container_class plan.now slots.now container }
{
    if container == 0 {
        return Some(&plan.subsystem);
    }
    let slot = slot_at(slots, container - 1);
    inside_class(plan, slot)
}

fn stretches_of(class: &ClassStretches) -> &[Stretch]
    ensures { result.now ≡ class.now.stretches.items }
{
    class.stretches.as_slice()
}

/// Adds the pairs of the bindings of a container of this class, if it has one.
fn add_container(
    pairs: &mut Vec<FacePair>,
    first_ports: &[u32],
    spans: &[PlaceSpan],
    children: &Children,
    class: Option<&ClassPlan>,
    number: u32,
    stretches: &[Stretch],
) -> Result<(), AllocError>
    requires sizes { length (class_or_none (option_copied class)).bindings ≡ length stretches.now }
    requires ends { All EndsWithin stretches.now }
    requires faces { BindingsFit children.now first_ports.now spans.now
        (class_or_none (option_copied class)) number
        (class_or_none (option_copied class)).bindings stretches.now }
    ensures { OnOk result ((slots : List AnySlot) → IsTableOf children.now slots
        → pairs.new.items ≡ pairs.old.items
        ++ binding_pairs slots first_ports.now spans.now (class_or_none (option_copied class.entry))
        number (class_or_none (option_copied class.entry)).bindings stretches.now) }
{
    match class {
        Some(class) => {
            let container = Container {
                first_ports,
                spans,
                children,
                class,
                number,
            };
            add_binding_pairs(pairs, &container, class.bindings.as_slice(), stretches)?;
            Ok(())
        }
        None => Ok(()),
    }
}

/// The pairs of the bindings of all containers, the subsystem first and then the insides of the slots.
/// `containers` says what the bindings of each take, `first_ports` and `spans` where the places of the
/// ports stand. It takes time in proportion to the slots and the pairs.
pub fn container_pairs(
    alloc: Global,
    plan: &StructurePlan,
    slots: &[Slot],
    children: &Children,
    containers: &[ClassStretches],
    first_ports: &[u32],
    spans: &[PlaceSpan],
) -> Result<Vec<FacePair>, AllocError>
    requires few { length slots.now ≤ 2 ^ 16 }
    requires children { IsTableOf children.now slots.now }
    requires containers { AreContainers plan.now slots.now containers.now }
    requires taken { TakesFew plan.now slots.now }
    requires faces { AreBelow (2 ^ 32)
        (container_pairs plan.now slots.now first_ports.now spans.now 0 (length slots.now + 1)) }
    ensures { IfOk result (λ v.
        v.items
        ≡ container_pairs plan.now slots.now first_ports.now spans.now 0 (length slots.now + 1)) }
{
    let mut pairs = Vec::new(alloc);
    for (c, container) in containers.iter().enumerate() {
        let class = class_of_container(plan, slots, c);
        let stretches = stretches_of(container);
        add_container(
            &mut pairs,
            first_ports,
            spans,
            children,
            class,
            c as u32,
            stretches,
        )?;
    }
    Ok(pairs)
}
