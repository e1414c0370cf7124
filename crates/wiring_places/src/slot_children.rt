//! The slots that stand for the references of each container, by index.
ghost use Rattle.std.specs.Prelude.{◌≡◌, ℕ, ◌+◌, ◌*◌, ◌^◌, ◌<◌, ◌≤◌, ◌==◌, [], ◌∷◌, ◌++◌, length, IfOk, OnOk, if◌then◌else◌};
ghost use Rattle.wiring_places.specs.place_rules.Parts.{container_of_parent};
ghost use Rattle.wiring_places.specs.slot_children.Table.{IsTableOf, children_in, row_at, row_key};

use room_kinds::SlotId;
use room_wiring::Slot;
use std::alloc::{AllocError, Global};
use std::collections::HashMap;

/// For each reference of each container the slots that stand for it, in order of index. Containers are
/// numbered: the subsystem is 0, and the inside of slot `s` is `s + 1`.
#[derive(Drop)]
pub struct Children {
    rows: HashMap<u64, Vec<u16>>,
}

/// The number of the container that is the inside of this slot; that of the subsystem where there is none.
pub fn container_of_parent(parent: Option<SlotId>) -> u32
    ensures { result ≡ container_of_parent parent }
{
    match parent {
        Some(slot) => u32::from(slot.0) + 1,
        None => 0,
    }
}

fn row_key(container: u32, reference: u16) -> u64
    ensures { result ≡ row_key container reference }
{
    u64::from(container) * 65536 + u64::from(reference)
}

impl Children {
    /// A table without rows. It takes no memory.
    #[tactic(auto, unfolding(crate::specs::slot_children::Table::row_at))]
    fn new(alloc: Global) -> Children
        ensures { (key : ℕ) → row_at result key ≡ [] }
    {
        Children {
            rows: HashMap::new(alloc),
        }
    }

    /// The slots of a reference of a container, in order of index.
    #[tactic(auto, unfolding(crate::specs::slot_children::Table::row_at))]
    pub fn of(&self, container: u32, reference: u16) -> &[u16]
        ensures { result.now ≡ children_in self.now container reference }
    {
        match self.rows.get(&row_key(container, reference)) {
            Some(row) => row.as_slice(),
            None => &[],
        }
    }

    /// Takes a row out; an empty one where there is none.
    #[tactic(auto, unfolding(crate::specs::slot_children::Table::row_at))]
    fn take_row(&mut self, alloc: Global, key: u64) -> Vec<u16>
        ensures row { result.items ≡ row_at self.old key }
        ensures others { (k : ℕ)
            → row_at self.new k ≡ (if key == k then [] else row_at self.old k) }
    {
        match self.rows.remove(&key) {
            Some(row) => row,
            None => Vec::new(alloc),
        }
    }

    /// Puts a row in.
    #[tactic(auto, unfolding(crate::specs::slot_children::Table::row_at))]
    fn put_row(&mut self, key: u64, row: Vec<u16>) -> Result<(), AllocError>
        ensures { OnOk result ((k : ℕ)
            → row_at self.new k ≡ (if key == k then row.items else row_at self.old k)) }
    {
        self.rows.insert(key, row)?;
        Ok(())
    }

    /// Adds a slot at the end of a row.
    fn add(&mut self, alloc: Global, key: u64, slot: u16) -> Result<(), AllocError>
        ensures { OnOk result ((k : ℕ)
            → row_at self.new k
            ≡ (if key == k then row_at self.old k ++ slot ∷ [] else row_at self.old k)) }
    {
        let mut row = self.take_row(alloc, key);
        row.push(slot)?;
        self.put_row(key, row)
    }
}

/// The slots by container and reference. It takes time in proportion to them.
pub fn children_table(alloc: Global, slots: &[Slot]) -> Result<Children, AllocError>
    requires { length slots.now ≤ 2 ^ 16 }
    ensures { IfOk result (λ t. IsTableOf t slots.now) }
{
    let mut table = Children::new(alloc);
    for (i, slot) in slots.iter().enumerate() {
        let key = row_key(container_of_parent(slot.parent), slot.reference);
        table.add(alloc, key, i as u16)?;
    }
    Ok(table)
}
