//! All slots of a structure.

ghost use Rattle.std.specs.Prelude.{◌≡◌, ◌≤◌, ◌++◌, [], length, map, reverse, All, IfOk, OnOk};
ghost use Rattle.wiring_slots.specs.slot_tree.Placing.{IsNumbered, Fits, all_from, at_most, most_slots};
ghost use Rattle.wiring_slots.specs.slot_tree.Slots.{references_of_class, slots_of};
ghost use Rattle.wiring_slots.specs.slot_tree.WaitingSlots.{subsystem, waiting_inside, waiting_tops, pending_of, IsReady};

use crate::slot_tree::children::{Container, Waiting, container_of, waiting_of_references};
use crate::slot_tree::mapping_order::MappingOrder;
use crate::slot_tree::names::SlotNames;
use crate::slot_tree::paths::write_end;
use crate::slot_tree::placed_slots::Placed;
use crate::slot_tree::runs::Trails;
use room_kinds::{ControllerId, Sequence};
use room_wiring::Slot;
use std::alloc::{AllocError, Global};
use wiring_plan::{ReferencePlan, StructurePlan};

/// The most slots that a structure may stand for.
const MOST_SLOTS: usize = 4096;

/// The references of a class.
fn references_of<'a>(plan: &'a StructurePlan, class: u16) -> &'a [ReferencePlan]
    requires { IsNumbered plan.now }
    ensures value { result.now ≡ references_of_class plan.entry.now class }
    ensures few { length result.now ≤ 65536 }
{
    match plan.classes.as_slice().get(usize::from(class)) {
        Some(class) => class.references.as_slice(),
        None => &[],
    }
}

/// The slots directly inside a slot that gets this number, if they fit in the room.
fn waiting_inside(
    alloc: Global,
    room: usize,
    plan: &StructurePlan,
    mappings: &MappingOrder,
    number: u16,
    slot: &Waiting,
) -> Result<Option<Vec<Waiting>>, AllocError>
    requires { IsNumbered plan.now }
    ensures { IfOk result (λ v.
        Fits room (waiting_inside plan.now mappings.now number slot.now) v) }
{
    if slot.depth == 0 || slot.slot.kind.is_imported() {
        return Ok(Some(Vec::new(alloc)));
    }
    let container = container_of(alloc, slot.depth - 1, number, slot)?;
    let references = references_of(plan, slot.slot.class);
    waiting_of_references(alloc, room, mappings, &container, references)
}

/// Puts slots on the stack, the first one on top.
fn push_all(stack: &mut Vec<Waiting>, slots: Vec<Waiting>) -> Result<(), AllocError>
    ensures { OnOk result (stack.new.items ≡ stack.old.items ++ reverse slots.items) }
{
    let mut left = slots;
    while let Some(slot) = left.pop() {
        stack.push(slot)?;
    }
    Ok(())
}

/// Places the slots that wait, the last one first, and what is inside them; none where there are too
/// many.
fn place(
    alloc: Global,
    plan: &StructurePlan,
    names: &SlotNames,
    mappings: &MappingOrder,
    tops: Vec<Waiting>,
) -> Result<Option<Vec<Slot>>, AllocError>
    requires numbered { IsNumbered plan.now }
    requires few { length tops.items ≤ 4096 }
    requires ready { All (IsReady 0) (reverse tops.items) }
    ensures { IfOk result (λ v.
        let first = map (pending_of names.now []) (reverse tops.items) in
        Fits most_slots (all_from plan.now names.now mappings.now 0 first) v) }
{
    let mut placed = Placed::new(alloc);
    let mut end = Vec::new(alloc);
    let mut stack = tops;
    while let Some(waiting) = stack.pop() {
        let number = placed.len();
        let room = MOST_SLOTS - 1 - stack.len() - number;
        let inside = waiting_inside(alloc, room, plan, mappings, number as u16, &waiting)?;
        let Some(children) = inside else {
            return Ok(None);
        };
        write_end(&mut end, names, &waiting)?;
        placed.add(alloc, end.as_slice(), waiting.slot)?;
        push_all(&mut stack, children)?;
    }
    Ok(Some(placed.finish(alloc)?))
}

/// The subsystem as a container.
fn subsystem(
    alloc: Global,
    plan: &StructurePlan,
    mappings: &MappingOrder,
) -> Result<Container, AllocError>
    ensures { IfOk result (λ c. c ≡ subsystem plan.now mappings.now) }
{
    let trails = Trails::all(alloc, mappings.len())?;
    Ok(Container {
        class: None,
        number: None,
        owner: ControllerId(0),
        trails,
        depth: plan.classes.len(),
    })
}

/// The slots directly inside the subsystem, if they are not too many.
fn waiting_tops(
    alloc: Global,
    plan: &StructurePlan,
    mappings: &MappingOrder,
) -> Result<Option<Vec<Waiting>>, AllocError>
    requires { IsNumbered plan.now }
    ensures { IfOk result (λ v. Fits most_slots (waiting_tops plan.now mappings.now) v) }
{
    let container = subsystem(alloc, plan, mappings)?;
    let references = plan.subsystem.references.as_slice();
    waiting_of_references(alloc, MOST_SLOTS, mappings, &container, references)
}

/// The slots of a structure, by number; none where it has more than 4,096. It takes time and room in
/// proportion to the slots, their mappings and their names, and never places more slots than that.
pub fn slots_of(
    alloc: Global,
    plan: &StructurePlan,
    names: &SlotNames,
    mappings: &MappingOrder,
) -> Result<Option<Sequence<Slot>>, AllocError>
    requires { IsNumbered plan.now }
    ensures { IfOk result (λ slots.
        slots ≡ at_most most_slots (slots_of plan.now names.now mappings.now)) }
{
    let Some(tops) = waiting_tops(alloc, plan, mappings)? else {
        return Ok(None);
    };
    let mut waiting = Vec::new(alloc);
    push_all(&mut waiting, tops)?;
    match place(alloc, plan, names, mappings, waiting)? {
        Some(slots) => Ok(Some(Sequence::from(slots))),
        None => Ok(None),
    }
}
