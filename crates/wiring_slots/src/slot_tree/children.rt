//! The slots directly inside a container.

ghost use Rattle.std.specs.Prelude.{◌≡◌, ◌≤◌, ◌++◌, length, IfOk, OnOk};
ghost use Rattle.wiring_slots.specs.slot_tree.Slots.{owner_of};
ghost use Rattle.wiring_slots.specs.slot_tree.WaitingSlots.{waiting_with, waiting_of_reference, waiting_of_references, container_of};
ghost use Rattle.wiring_slots.specs.slot_tree.Leading.{trails_through};
ghost use Rattle.wiring_slots.specs.slot_tree.Placing.{Fits};

use crate::slot_tree::leading::{by_index, by_reference};
use crate::slot_tree::mapping_order::MappingOrder;
use crate::slot_tree::owners::owner_at;
use crate::slot_tree::placed_slots::BareSlot;
use crate::slot_tree::runs::Trails;
use room_kinds::{ControllerId, ReferenceKind, SlotId};
use std::alloc::{AllocError, Global};
use std::mem;
use wiring_plan::ReferencePlan;

/// A slot that has no number yet, the mappings that lead to it, and how many containers deep its inside
/// is looked into. Its path is made only when it is placed.
#[derive(Drop)]
pub(crate) struct Waiting {
    /// The class of its container; none for the subsystem.
    pub(crate) container_class: Option<u16>,
    pub(crate) slot: BareSlot,
    pub(crate) trails: Trails,
    pub(crate) depth: usize,
}

/// What slots have from their container.
#[derive(Drop)]
pub(crate) struct Container {
    /// Its class; none for the subsystem.
    pub(crate) class: Option<u16>,
    /// Its number; none for the subsystem.
    pub(crate) number: Option<SlotId>,
    pub(crate) owner: ControllerId,
    pub(crate) trails: Trails,
    /// How many containers deep the insides of its slots are looked into.
    pub(crate) depth: usize,
}

/// The owner of a slot; an imported slot has its container's owner.
fn owner_of(
    mappings: &MappingOrder,
    container_owner: ControllerId,
    kind: ReferenceKind,
    trails: &Trails,
) -> ControllerId
    ensures { result ≡ owner_of mappings.now container_owner kind trails.now }
{
    if kind.is_imported() {
        container_owner
    } else {
        owner_at(mappings, trails, container_owner)
    }
}

/// The slot of a reference, with its number in its class, and of an index, to which these trails lead.
fn waiting_with(
    mappings: &MappingOrder,
    container: &Container,
    number: u16,
    reference: &ReferencePlan,
    index: u32,
    trails: Trails,
) -> Waiting
    ensures { result ≡ waiting_with mappings.now container.now number reference.now index trails }
{
    let owner = owner_of(mappings, container.owner, reference.kind, &trails);
    Waiting {
        container_class: container.class,
        slot: BareSlot {
            class: reference.class,
            kind: reference.kind,
            parent: container.number,
            owner,
            reference: number,
            index,
        },
        trails,
        depth: container.depth,
    }
}

/// Adds the slots of a reference; with it these of the container's trails go on.
fn add_reference(
    alloc: Global,
    children: &mut Vec<Waiting>,
    mappings: &MappingOrder,
    container: &Container,
    number: u16,
    reference: &ReferencePlan,
    trails: &Trails,
) -> Result<(), AllocError>
    requires { trails.now ≡ trails_through mappings.now container.now.trails number }
    ensures { OnOk result (children.new.items ≡ children.old.items
        ++ waiting_of_reference mappings.now container.now (number, reference.now)) }
{
    let count = reference.count as usize;
    let mut lists = by_index(alloc, mappings, number, count, trails)?;
    for index in 0..reference.count {
        let leading = mem::replace(&mut lists[index as usize], Trails::new(alloc));
        children.push(waiting_with(mappings, container, number, reference, index, leading))?;
    }
    Ok(())
}

/// The slots directly inside a container with these references, if they fit in the room. It takes time
/// in proportion to the slots, the container's trails and those that lead on to the slots.
#[tactic(auto, unfolding(crate::specs::slot_tree::WaitingSlots::waiting_of_references))]
pub(crate) fn waiting_of_references(
    alloc: Global,
    room: usize,
    mappings: &MappingOrder,
    container: &Container,
    references: &[ReferencePlan],
) -> Result<Option<Vec<Waiting>>, AllocError>
    requires { length references.now ≤ 65536 }
    ensures { IfOk result (λ v.
        Fits room (waiting_of_references mappings.now container.now references.now) v) }
{
    let lists = by_reference(alloc, mappings, references.len(), &container.trails)?;
    let mut children = Vec::new(alloc);
    for (number, reference) in references.iter().enumerate() {
        if reference.count as usize > room - children.len() {
            return Ok(None);
        }
        add_reference(
            alloc,
            &mut children,
            mappings,
            container,
            number as u16,
            reference,
            &lists[number],
        )?;
    }
    Ok(Some(children))
}

/// What the slots inside a slot with this number have from it.
pub(crate) fn container_of(
    alloc: Global,
    depth: usize,
    number: u16,
    slot: &Waiting,
) -> Result<Container, AllocError>
    ensures { IfOk result (λ c. c ≡ container_of depth number slot.now) }
{
    let trails = slot.trails.copy(alloc)?;
    Ok(Container {
        class: Some(slot.slot.class),
        number: Some(SlotId(number)),
        owner: slot.slot.owner,
        trails,
        depth,
    })
}
