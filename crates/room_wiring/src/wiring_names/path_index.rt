//! The slots of a wiring by their paths.
ghost use Rattle.std.specs.Prelude.{◌≡◌, IfOk, OnOk, position};
ghost use Rattle.name_tables.specs.name_numbers.Names.{same};
ghost use Rattle.room_wiring.specs.wiring_names.Lookup.{slot_paths};
ghost use Rattle.room_wiring.specs.wiring_names.Hashes.{path_hashes, FindsFirst, NotesFirst};

use crate::Wiring;
use crate::paths::hash_of;
use indexmap::IndexMap;
use room_kinds::SlotId;
use std::alloc::{AllocError, Global};

/// Of each hash of a slot's path the first slot that has it. A path may stand in pieces, and so
/// cannot be a key itself.
#[derive(Drop)]
pub struct PathIndex {
    first: IndexMap<u64, usize>,
}

/// Notes the place of a hash that has none yet.
fn note_first(first: &mut IndexMap<u64, usize>, hash: u64, place: usize) -> Result<(), AllocError>
    ensures { OnOk result (NotesFirst first.old first.new hash place) }
{
    if !first.contains_key(&hash) {
        first.insert(hash, place)?;
    }
    Ok(())
}

fn first_places(alloc: Global, wiring: &Wiring) -> Result<IndexMap<u64, usize>, AllocError>
    ensures { IfOk result (λ m. FindsFirst m (path_hashes wiring.now)) }
{
    let mut first = IndexMap::new(alloc);
    for s in 0..wiring.slot_count() {
        let path = &wiring.slot(SlotId(s as u16)).path;
        note_first(&mut first, path.hash(), s as usize)?;
    }
    Ok(first)
}

impl PathIndex {
    /// The index of a wiring's slots. It takes time and memory in proportion to their number.
    pub fn of(alloc: Global, wiring: &Wiring) -> Result<PathIndex, AllocError>
        ensures { IfOk result (λ n. FindsFirst n.first (path_hashes wiring.now)) }
    {
        let first = first_places(alloc, wiring)?;
        Ok(PathIndex { first })
    }

    /// The first slot with this path. Equal paths have equal hashes, so none stands before the first
    /// slot with its hash; nearly always it is that very slot.
    pub(crate) fn slot(&self, wiring: &Wiring, path: &[u8]) -> Option<usize>
        requires { FindsFirst self.now.first (path_hashes wiring.now) }
        ensures { result ≡ position (same path.now) (slot_paths wiring.now) }
    {
        let place = *self.first.get(&hash_of(path))?;
        wiring.find_from(place, path)
    }
}
