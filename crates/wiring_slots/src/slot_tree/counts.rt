//! Whether a structure has few slots, before any is named.

ghost use Rattle.std.specs.Prelude.{◌≡◌, IfOk};
ghost use Rattle.wiring_slots.specs.slot_tree.Placing.{IsNumbered, TellsFew};

use crate::slot_tree::mapping_order::MappingOrder;
use crate::slot_tree::names::SlotNames;
use crate::slot_tree::slots::slots_of;
use room_kinds::Sequence;
use std::alloc::{AllocError, Global};
use wiring_plan::StructurePlan;

/// Whether a structure has at most 4,096 slots, whatever they are called and whoever owns them. It
/// takes time in proportion to the slots, and stops where there are more.
pub fn has_few_slots(alloc: Global, plan: &StructurePlan) -> Result<bool, AllocError>
    requires { IsNumbered plan.now }
    ensures { IfOk result (λ b. TellsFew plan.now b) }
{
    let nameless = SlotNames {
        classes: Sequence::new(alloc),
        subsystem: Sequence::new(alloc),
    };
    let unmapped = MappingOrder::new(alloc);
    match slots_of(alloc, plan, &nameless, &unmapped)? {
        Some(_) => Ok(true),
        None => Ok(false),
    }
}
