//! The mappings that lead to a slot, and who owns it.

ghost use Rattle.std.specs.Prelude.{◌≡◌};
ghost use Rattle.wiring_slots.specs.slot_tree.Owners.{owner_at};
ghost use Rattle.wiring_slots.specs.slot_tree.Runs.{trails_of};

use crate::slot_tree::mapping_order::MappingOrder;
use crate::slot_tree::runs::{Run, Trails};
use room_kinds::ControllerId;

/// A mapping that leads through a slot or to it, and how many of its steps have led there.
#[derive(Clone, Copy, Drop)]
pub(crate) struct Trail {
    pub(crate) mapping: usize,
    pub(crate) steps: usize,
}

/// The owner after the trails of a run, where it is this one before them.
fn owner_after(mappings: &MappingOrder, run: Run, owner_before: ControllerId) -> ControllerId
    ensures { result ≡ owner_at mappings.now owner_before (trails_of run) }
{
    let mut owner = owner_before;
    let mut first = run.first;
    while first < run.end {
        let group = mappings.group_at(run, first);
        let mapped = mappings.mapped_at(Trail {
            mapping: first,
            steps: run.steps,
        });
        owner = mapped.unwrap_or(owner);
        first = group.end;
    }
    owner
}

/// The controller of the last declared mapping that ends at a slot; where none does, this one.
pub(crate) fn owner_at(
    mappings: &MappingOrder,
    trails: &Trails,
    container_owner: ControllerId,
) -> ControllerId
    ensures { result ≡ owner_at mappings.now container_owner trails.now }
{
    let mut owner = container_owner;
    for run in trails.runs() {
        owner = owner_after(mappings, *run, owner);
    }
    owner
}
