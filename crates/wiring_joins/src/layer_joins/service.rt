//! The service for a service access point.
ghost use Rattle.std.specs.Prelude.{◌≡◌, length, slice_get};
ghost use Rattle.std.specs.Option.{option_copied};
ghost use Rattle.room_wiring.specs.declared.slot.Slot.{Slot as AnySlot};
ghost use Rattle.std.specs.Prelude.{List};
ghost use Rattle.wiring_places.specs.place_rules.Layers.{parent_number, slot_if, service, service_at};
ghost use Rattle.wiring_places.specs.slot_children.Table.{IsTableOf};
ghost use Rattle.wiring_joins.specs.layer_joins.Indexes.{AreIndexes};

use crate::layer_joins::indexes::{Indexes, slot_at};
use room_kinds::SlotId;
use room_wiring::Slot;
use wiring_places::{Children, container_of_parent};
use wiring_plan::{LayerPlan, StructurePlan};

fn parent_number(parent: Option<SlotId>) -> Option<u16>
    ensures { result ≡ parent_number parent }
{
    match parent {
        Some(slot) => Some(slot.0),
        None => None,
    }
}

fn slot_if(slots: &[Slot], slot: Option<u16>) -> Option<&Slot>
    ensures { option_copied result ≡ slot_if slots.now slot }
{
    match slot {
        Some(slot) => slot_at(slots, usize::from(slot)),
        None => None,
    }
}

/// The slot and the port of the service that a layer connection of a container gives.
fn service_at(children: &Children, container: u32, layer: LayerPlan) -> Option<(u16, u16)>
    ensures { (slots : List AnySlot) → IsTableOf children.now slots
        → result ≡ service_at slots container layer }
{
    match children.of(container, layer.provider).first() {
        Some(slot) => Some((*slot, layer.service)),
        None => None,
    }
}

/// The slot and the port of the service for the service access points of a protocol in a slot.
#[tactic(auto, using(crate::proofs::layer_joins::Services::service_none, crate::proofs::layer_joins::Services::service_found, crate::proofs::layer_joins::Services::service_above, crate::proofs::layer_joins::Services::service_end))]
pub(crate) fn service(
    plan: &StructurePlan,
    slots: &[Slot],
    children: &Children,
    indexes: &Indexes,
    slot: u16,
    protocol: Option<u16>,
) -> Option<(u16, u16)>
    requires children { IsTableOf children.now slots.now }
    requires indexes { AreIndexes plan.now indexes.now }
    ensures { result
        ≡ service plan.now slots.now (length slots.now) protocol (slice_get slots.now slot) }
{
    let mut at = Some(slot);
    let mut left = slots.len();
    while left > 0 {
        let Some(x) = slot_if(slots, at) else {
            return None;
        };
        let container = container_of_parent(x.parent);
        match indexes.fitting(plan, slots, container, x.reference, protocol) {
            Some(layer) => return service_at(children, container, layer),
            None => at = parent_number(x.parent),
        }
        left -= 1;
    }
    None
}
