//! How many places the slots have, as far as the limit counts them.

ghost use Rattle.std.specs.Prelude.{◌≡◌, ◌+◌, ◌≤◌, min, map, length, slice_get, IfOk};
ghost use Rattle.std.specs.List.{sum_by};
ghost use Rattle.wiring_slots.specs.slot_tree.Places.{places_counted, counted, counted_outside, counted_at, class_places, slot_places, has_too_many_places};
ghost use Rattle.wiring_slots.specs.slot_tree.Sums.{cap, counts_of, slot_count};

use room_kinds::{PortKind, ReferenceKind};
use room_wiring::Slot;
use std::alloc::{AllocError, Global};
use wiring_plan::{ClassPlan, PlacesPlan, PortPlan, StructurePlan};

/// One more than the limit: larger numbers count as this one.
const CAP: u32 = 65_537;

fn capped_sum(a: u32, b: u32) -> u32
    ensures { result ≡ min cap (a + b) }
{
    a.saturating_add(b).min(CAP)
}

fn places_counted(places: PlacesPlan) -> u32
    ensures { result ≡ places_counted places }
{
    match places {
        PlacesPlan::One => 1,
        PlacesPlan::Number(count) => count,
        PlacesPlan::Any => 0,
    }
}

fn counted(port: &PortPlan) -> u32
    ensures { result ≡ counted port.now }
{
    match port.kind {
        PortKind::Frame | PortKind::Spp => 0,
        PortKind::Relay | PortKind::End | PortKind::Internal => places_counted(port.places),
        PortKind::Sap => 1,
    }
}

fn counted_outside(port: &PortPlan) -> u32
    ensures { result ≡ counted_outside port.now }
{
    match port.kind {
        PortKind::Relay | PortKind::End => places_counted(port.places),
        PortKind::Frame | PortKind::Internal | PortKind::Sap | PortKind::Spp => 0,
    }
}

fn counted_at(kind: ReferenceKind, port: &PortPlan) -> u32
    ensures { result ≡ counted_at kind port.now }
{
    match kind {
        ReferenceKind::Fixed | ReferenceKind::Optional => counted(port),
        ReferenceKind::Imported => counted_outside(port),
    }
}

/// What a class counts at a slot of this kind, at most the cap.
fn class_places(kind: ReferenceKind, ports: &[PortPlan]) -> u32
    ensures { result ≡ min cap (sum_by (counted_at kind) ports.now) }
{
    let mut places = 0;
    for port in ports {
        places = capped_sum(places, counted_at(kind, port));
    }
    places
}

/// What a class counts at a slot that isn't imported, and at one that is.
#[derive(Clone, Copy, Drop)]
struct ClassCounts {
    own: u32,
    imported: u32,
}

fn counts_of(class: &ClassPlan) -> ClassCounts
    ensures { result ≡ counts_of class.now }
{
    let ports = class.ports.as_slice();
    ClassCounts {
        own: class_places(ReferenceKind::Fixed, ports),
        imported: class_places(ReferenceKind::Imported, ports),
    }
}

fn all_counts(alloc: Global, classes: &[ClassPlan]) -> Result<Vec<ClassCounts>, AllocError>
    ensures { IfOk result (λ v. v.items ≡ map counts_of classes.now) }
{
    let mut counts = Vec::new(alloc);
    for class in classes {
        counts.push(counts_of(class))?;
    }
    Ok(counts)
}

fn slot_count(counts: &[ClassCounts], slot: &Slot) -> u32
    ensures { result ≡ slot_count counts.now slot.now }
{
    let Some(class) = counts.get(usize::from(slot.class)) else {
        return 0;
    };
    match slot.kind {
        ReferenceKind::Fixed | ReferenceKind::Optional => class.own,
        ReferenceKind::Imported => class.imported,
    }
}

fn capped_places(counts: &[ClassCounts], slots: &[Slot]) -> u32
    ensures { result ≡ min cap (sum_by (slot_count counts.now) slots.now) }
{
    let mut places = 0;
    for slot in slots {
        places = capped_sum(places, slot_count(counts, slot));
    }
    places
}

/// Whether slots have more than 65,536 places of SAPs and of ports with a number or none together.

#[tactic(auto, using(crate::proofs::slot_tree::PlaceSums::too_many_is))]
pub fn has_too_many_places(
    alloc: Global,
    plan: &StructurePlan,
    slots: &[Slot],
) -> Result<bool, AllocError>
    ensures { IfOk result (λ b. b ≡ has_too_many_places plan.now slots.now) }
{
    let counts = all_counts(alloc, plan.classes.as_slice())?;
    Ok(capped_places(counts.as_slice(), slots) == CAP)
}
