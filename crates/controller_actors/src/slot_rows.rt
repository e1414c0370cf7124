//! Which row of its owner's table each slot has.
ghost use Rattle.std.specs.Prelude.{◌≡◌, ◌<◌, length, slice_index, IfOk};
ghost use Rattle.controller_actors.specs.Rows.{AreRows, own_below};

use room_kinds::{ControllerId, SlotId};
use room_wiring::Wiring;
use service_messages::is_own;
use std::alloc::{AllocError, Global};
use std::marker::Model;

/// For each slot of a wiring its row in the table of the controller that owns it: how many of the slots
/// before it have the same owner. All controllers share it, so that each keeps rows for its own slots alone.
/// Contracts see the list of these numbers.
#[derive(Drop)]
pub struct SlotRows {
    rows: Vec<u16>,
}

impl Model for SlotRows {
    ghost use Rattle.std.specs.Prelude.{ℕ, List};

    ghost Value = { List ℕ };

    ghost view = { λ r. r.rows.items };
}

impl SlotRows {
    /// The rows of the slots of a wiring. The time is in proportion to the number of slots.
    pub fn of(alloc: Global, wiring: &Wiring) -> Result<SlotRows, AllocError>
        ensures { IfOk result (AreRows wiring.now) }
    {
        let mut rows = Vec::with_capacity(alloc, wiring.slot_count() as usize)?;
        // How many slots of each controller came so far.
        let mut counts = vec![in alloc; 0u32; usize::from(wiring.controller_count())]?;
        for number in 0..wiring.slot_count() {
            let owner = usize::from(wiring.slot(SlotId(number as u16)).owner.0);
            let count = counts[owner];
            rows.push(count as u16)?;
            counts[owner] = count + 1;
        }
        Ok(SlotRows { rows })
    }

    /// The row of a slot. It takes no memory.
    pub(crate) fn row(&self, slot: SlotId) -> usize
        requires { slot.0 < length self.now }
        ensures { result ≡ slice_index self.now slot.0 }
    {
        usize::from(self.rows[usize::from(slot.0)])
    }
}

/// How many slots controller `me` owns.
#[tactic(auto, using(crate::proofs::OwnRows::own_one, crate::proofs::OwnRows::own_same, crate::proofs::OwnRows::own_few))]
pub(crate) fn own_count(wiring: &Wiring, me: ControllerId) -> u32
    ensures { result ≡ own_below wiring.now me.0 (length wiring.now.slots) }
{
    let mut count = 0;
    for number in 0..wiring.slot_count() {
        if is_own(wiring, me, SlotId(number as u16)) {
            count += 1;
        }
    }
    count
}
