//! The slots that have been placed. Their paths share the texts of their containers' paths.

ghost use Rattle.std.specs.Prelude.{◌≡◌, ◌++◌, ◌∷◌, [], length, IfOk, OnOk};
ghost use Rattle.wiring_slots.specs.slot_tree.PlacedSlots.{with_path, with_paths, all_placed, number_of, container_path};

use room_kinds::{ControllerId, ReferenceKind, SlotId};
use room_wiring::{Path, Paths, SharedPaths, Slot};
use std::alloc::{AllocError, Global};

/// A slot without its path.
#[derive(Clone, Copy, Drop)]
pub(crate) struct BareSlot {
    pub(crate) class: u16,
    pub(crate) kind: ReferenceKind,
    pub(crate) parent: Option<SlotId>,
    pub(crate) owner: ControllerId,
    pub(crate) reference: u16,
    pub(crate) index: u32,
}

fn with_path(path: Path, slot: BareSlot) -> Slot
    ensures { result ≡ with_path path slot }
{
    Slot {
        path,
        class: slot.class,
        kind: slot.kind,
        parent: slot.parent,
        owner: slot.owner,
        reference: slot.reference,
        index: slot.index,
    }
}

fn number_of(slot: Option<SlotId>) -> Option<usize>
    ensures { result ≡ number_of slot }
{
    match slot {
        Some(slot) => Some(usize::from(slot.0)),
        None => None,
    }
}

/// Gives each slot the path with its number.
fn with_paths(
    alloc: Global,
    paths: &SharedPaths,
    slots: &[BareSlot],
) -> Result<Vec<Slot>, AllocError>
    requires { length slots.now ≡ length paths.now }
    ensures { IfOk result (λ v. v.items ≡ with_paths paths.now slots.now) }
{
    let mut named = Vec::new(alloc);
    for (number, slot) in slots.iter().enumerate() {
        named.push(with_path(paths.path(number)?, *slot))?;
    }
    Ok(named)
}

/// Slots in the order of their numbers, and the path of each.
#[derive(Drop)]
pub(crate) struct Placed {
    pub(crate) slots: Vec<BareSlot>,
    pub(crate) paths: Paths,
}

impl Placed {
    pub(crate) fn new(alloc: Global) -> Placed
        ensures slots { result.slots.items ≡ [] }
        ensures paths { result.paths ≡ [] }
    {
        Placed {
            slots: Vec::new(alloc),
            paths: Paths::new(alloc),
        }
    }

    pub(crate) fn len(&self) -> usize
        ensures { result ≡ length self.now.slots.items }
    {
        self.slots.len()
    }

    /// Adds the next slot, whose path has these bytes behind that of its container.
    pub(crate) fn add(
        &mut self,
        alloc: Global,
        end: &[u8],
        slot: BareSlot,
    ) -> Result<(), AllocError>
        ensures slots { OnOk result (self.new.slots.items ≡ self.old.slots.items ++ slot ∷ []) }
        ensures paths { OnOk result (self.new.paths
            ≡ self.old.paths ++ (container_path self.old.paths slot ++ end.now) ∷ []) }
    {
        self.paths.add(alloc, number_of(slot.parent), end)?;
        self.slots.push(slot)?;
        Ok(())
    }

    /// The slots with their paths.
    pub(crate) fn finish(self, alloc: Global) -> Result<Vec<Slot>, AllocError>
        requires { length self.slots.items ≡ length self.paths }
        ensures { IfOk result (λ v. v.items ≡ all_placed self) }
    {
        let paths = self.paths.share(alloc)?;
        with_paths(alloc, &paths, self.slots.as_slice())
    }
}
