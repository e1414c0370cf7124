//! The parts of a slot.
ghost use Rattle.std.specs.Prelude.{◌≡◌, ◌<◌, length, position, option_map};
ghost use Rattle.actor_duties.specs.Words.{part_at, is_slot_for};
ghost use Rattle.service_messages.specs.slot_runs.Runs.{IsDepthFirst, AreRunEnds};

use crate::slot_runs::runs::SlotRuns;
use room_kinds::SlotId;
use room_wiring::{Slot, Wiring};

/// Whether a slot is the one of a reference of a container at an index.
fn is_slot_for(slot: &Slot, container: SlotId, reference: u16, index: u64) -> bool
    ensures { result ≡ is_slot_for container.0 reference index slot.now }
{
    slot.parent == Some(container) && slot.reference == reference && u64::from(slot.index) == index
}

impl SlotRuns {
    #[tactic(auto, using(crate::proofs::slot_runs::Sought::sought_on))]
    fn part_numbered(
        &self,
        wiring: &Wiring,
        container: SlotId,
        reference: u16,
        index: u64,
    ) -> Option<SlotId>
        requires order { IsDepthFirst wiring.now }
        requires runs { AreRunEnds wiring.now self.now }
        requires there { container.0 < length wiring.now.slots }
        ensures { option_map (λ s. s.0) result
            ≡ position (is_slot_for container.0 reference index) wiring.now.slots }
    {
        let end = self.end(wiring, container);
        let mut part = u32::from(container.0) + 1;
        while part < end {
            let slot = SlotId(part as u16);
            if is_slot_for(wiring.slot(slot), container, reference, index) {
                return Some(slot);
            }
            part = self.end(wiring, slot);
        }
        None
    }

    /// The slot of a reference of a container at an index; none where the index is out of range. The
    /// time is in proportion to the number of the container's parts. It takes no memory.
    #[tactic(auto, unfolding(actor_duties::specs::Words::part_at))]
    pub fn part_at(
        &self,
        wiring: &Wiring,
        container: SlotId,
        reference: u16,
        index: i64,
    ) -> Option<SlotId>
        requires order { IsDepthFirst wiring.now }
        requires runs { AreRunEnds wiring.now self.now }
        requires there { container.0 < length wiring.now.slots }
        ensures { option_map (λ s. s.0) result ≡ part_at wiring.now container.0 reference index }
    {
        let Ok(index) = u64::try_from(index) else {
            return None;
        };
        self.part_numbered(wiring, container, reference, index)
    }
}
