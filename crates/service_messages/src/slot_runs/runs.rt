//! Where the runs of slots end.
ghost use Rattle.std.specs.Prelude.{◌≡◌, ◌<◌, ◌≤◌, ℕ, true, length, slice_index, IfOk};
ghost use Rattle.actor_duties.specs.Lives.{is_made_with, has_part};
ghost use Rattle.service_messages.specs.slot_runs.Runs.{is_inside, IsDepthFirst, IsRunEnd, AreRunEnds, IsNextMade};

use crate::look_up::is_own;
use crate::slot_runs::look_up::{is_fixed, is_inside};
use room_kinds::{ControllerId, SharedSequence, SlotId};
use room_wiring::Wiring;
use std::alloc::{AllocError, Global};
use std::marker::Model;

/// For each slot of a wiring the number behind the last slot that lies below it, or behind the slot
/// itself where nothing does. The numbers are kept once, however many controllers share them. Contracts
/// see the list of these numbers.
#[derive(Drop)]
pub struct SlotRuns {
    ends: SharedSequence<u32>,
}

impl Model for SlotRuns {
    ghost use Rattle.std.specs.Prelude.{ℕ, List};

    ghost Value = { List ℕ };

    ghost view = { λ r. r.ends };
}

impl SlotRuns {
    /// The runs of a wiring whose slots are numbered depth first. The time is in proportion to the
    /// number of slots.
    pub fn new(alloc: Global, wiring: &Wiring) -> Result<SlotRuns, AllocError>
        requires { IsDepthFirst wiring.now }
        ensures { IfOk result (AreRunEnds wiring.now) }
    {
        let count = wiring.slot_count();
        let mut ends = vec![in alloc; 0u32; count as usize]?;
        for slot in (0..count).rev() {
            let end = end_from(wiring, ends.as_slice(), slot);
            ends[slot as usize] = end;
        }
        let ends = SharedSequence::of(alloc, ends)?;
        Ok(SlotRuns { ends })
    }

    /// One more owner of the same numbers. It takes no memory.
    pub fn share(&self) -> Result<SlotRuns, AllocError>
        ensures { IfOk result (λ runs. runs ≡ self.now) }
    {
        let ends = self.ends.share()?;
        Ok(SlotRuns { ends })
    }

    /// Where the run of a slot ends. It takes no memory.
    pub fn end(&self, wiring: &Wiring, slot: SlotId) -> u32
        requires runs { AreRunEnds wiring.now self.now }
        requires slot { slot.0 < length wiring.now.slots }
        ensures end { result ≡ slice_index self.now slot.0 }
        ensures run { IsRunEnd wiring.now slot.0 result }
    {
        self.ends.as_slice()[usize::from(slot.0)]
    }

    /// The next slot behind slot `slot` that is made with slot `top`, in whose run it stands; where
    /// there is none, the number at which the run of `top` ends. What isn't made with its container is
    /// passed over in one step. It takes no memory.
    #[tactic(auto, using(crate::proofs::slot_runs::Made::search_begun, crate::proofs::slot_runs::Made::search_on, crate::proofs::slot_runs::Made::search_found, crate::proofs::slot_runs::Made::search_ended))]
    pub fn next_made(&self, wiring: &Wiring, top: SlotId, slot: SlotId) -> u32
        requires order { IsDepthFirst wiring.now }
        requires runs { AreRunEnds wiring.now self.now }
        requires there { top.0 < length wiring.now.slots }
        requires made { is_made_with wiring.now top.0 slot.0 ≡ true }
        ensures { IsNextMade wiring.now top.0 (slice_index self.now top.0) slot.0 result }
    {
        let end = self.end(wiring, top);
        let mut next = u32::from(slot.0) + 1;
        while next < end && !is_fixed(wiring, SlotId(next as u16)) {
            next = self.end(wiring, SlotId(next as u16));
        }
        next
    }

    /// Whether a controller has a part of a slot: whether it owns the slot or one that is made with it. The
    /// time is in proportion to what is made with the slot. It takes no memory.
    #[tactic(auto, using(crate::proofs::slot_runs::OwnParts::part_found))]
    pub fn has_part(&self, wiring: &Wiring, controller: ControllerId, top: SlotId) -> bool
        requires order { IsDepthFirst wiring.now }
        requires runs { AreRunEnds wiring.now self.now }
        requires there { top.0 < length wiring.now.slots }
        ensures { result ≡ has_part wiring.now controller.0 top.0 }
    {
        let end = self.end(wiring, top);
        let mut next = u32::from(top.0);
        while next < end {
            let slot = SlotId(next as u16);
            if is_own(wiring, controller, slot) {
                return true;
            }
            next = self.next_made(wiring, top, slot);
        }
        false
    }
}

/// Where the run of a slot ends, by where those of the slots behind it end.
#[tactic(auto, using(crate::proofs::slot_runs::RunLemmas::run_begun, crate::proofs::slot_runs::RunLemmas::run_on, crate::proofs::slot_runs::RunLemmas::run_ended, crate::proofs::slot_runs::RunLemmas::past_inside))]
fn end_from(wiring: &Wiring, ends: &[u32], slot: u32) -> u32
    requires count { length ends.now ≡ length wiring.now.slots }
    requires there { slot < length wiring.now.slots }
    requires known { (u : ℕ) → slot < u → u < length wiring.now.slots
        → IsRunEnd wiring.now u (slice_index ends.now u) }
    ensures { IsRunEnd wiring.now slot result }
{
    let count = wiring.slot_count();
    let mut end = slot + 1;
    while end < count && is_inside(wiring, SlotId(slot as u16), SlotId(end as u16)) {
        end = ends[end as usize];
    }
    end
}
