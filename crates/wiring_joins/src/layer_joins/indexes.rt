//! The layer connections of all classes.
ghost use Rattle.std.specs.Prelude.{◌≡◌, Some, IfOk, slice_get};
ghost use Rattle.std.specs.Option.{option_copied};
ghost use Rattle.wiring_places.specs.place_rules.Parts.{container_class, class_plan, inside_of};
ghost use Rattle.wiring_places.specs.place_rules.Layers.{fitting};
ghost use Rattle.wiring_joins.specs.layer_joins.Indexes.{AreIndexes, AreClassIndexes};

use crate::layer_joins::index::{LayerIndex, class_index};
use room_wiring::Slot;
use std::alloc::{AllocError, Global};
use wiring_plan::{ClassPlan, LayerPlan, StructurePlan};

/// The layer connections of the subsystem and of the actor classes, by class number.
#[derive(Drop)]
pub struct Indexes {
    pub subsystem: LayerIndex,
    pub classes: Vec<LayerIndex>,
}

fn class_indexes(
    alloc: Global,
    plan: &StructurePlan,
    classes: &[ClassPlan],
) -> Result<Vec<LayerIndex>, AllocError>
    ensures { IfOk result (λ v. AreClassIndexes plan.now classes.now v.items) }
{
    let mut indexes = Vec::with_capacity(alloc, classes.len())?;
    for class in classes {
        indexes.push(class_index(alloc, plan, class)?)?;
    }
    Ok(indexes)
}

/// The layer connections of all classes. It takes time in proportion to them.
pub fn indexes_of(alloc: Global, plan: &StructurePlan) -> Result<Indexes, AllocError>
    ensures { IfOk result (λ t. AreIndexes plan.now t) }
{
    let subsystem = class_index(alloc, plan, &plan.subsystem)?;
    let classes = class_indexes(alloc, plan, plan.classes.as_slice())?;
    Ok(Indexes { subsystem, classes })
}

fn index_at(indexes: &Vec<LayerIndex>, class: u16) -> Option<&LayerIndex>
    ensures { option_copied result ≡ slice_get indexes.now.items class }
{
    indexes.get(usize::from(class))
}

/// The slot of a number.
pub(crate) fn slot_at(slots: &[Slot], slot: usize) -> Option<&Slot>
    ensures { option_copied result ≡ slice_get slots.now slot }
{
    slots.get(slot)
}

impl Indexes {
    /// The first layer connection of an actor class, by its number, that fits.
    fn fitting_in(
        &self,
        plan: &StructurePlan,
        class: u16,
        reference: u16,
        protocol: u16,
    ) -> Option<LayerPlan>
        requires { AreIndexes plan.now self.now }
        ensures { result ≡ fitting plan.now (class_plan plan.now class) reference (Some protocol) }
    {
        match index_at(&self.classes, class) {
            Some(index) => index.fitting(reference, protocol),
            None => None,
        }
    }

    /// The first layer connection inside a slot that fits.
    fn fitting_inside(
        &self,
        plan: &StructurePlan,
        slot: Option<&Slot>,
        reference: u16,
        protocol: u16,
    ) -> Option<LayerPlan>
        requires { AreIndexes plan.now self.now }
        ensures { result ≡ fitting plan.now (inside_of plan.now (option_copied slot.entry))
            reference (Some protocol) }
    {
        match slot {
            Some(slot) => {
                if slot.kind.is_imported() {
                    None
                } else {
                    self.fitting_in(plan, slot.class, reference, protocol)
                }
            }
            None => None,
        }
    }

    /// The first layer connection of a container that fits.
    pub fn fitting(
        &self,
        plan: &StructurePlan,
        slots: &[Slot],
        container: u32,
        reference: u16,
        protocol: Option<u16>,
    ) -> Option<LayerPlan>
        requires { AreIndexes plan.now self.now }
        ensures { result
            ≡ fitting plan.now (container_class plan.now slots.now container) reference protocol }
    {
        let Some(protocol) = protocol else {
            return None;
        };
        if container == 0 {
            return self.subsystem.fitting(reference, protocol);
        }
        let slot = slot_at(slots, container as usize - 1);
        self.fitting_inside(plan, slot, reference, protocol)
    }
}
