//! How a controller's frame service starts: which actors live, and what its directory tells.
ghost use Rattle.std.specs.Prelude.{◌≡◌, ◌<◌, length, map, IfOk};
ghost use Rattle.std.specs.List.{range_with_len};
ghost use Rattle.actor_world.specs.Start.{lives_from_start};
ghost use Rattle.service_messages.specs.slot_runs.Runs.{IsDepthFirst};
ghost use Rattle.frame_lives.specs.Shown.{shown};
ghost use Rattle.frame_service.specs.frame_start.First.{first_known, first_row};

use frame_lives::{Row, SlotLives};
use room_kinds::{ControllerId, SlotId};
use room_wiring::Wiring;
use service_messages::{container_of, is_fixed, is_own};
use std::alloc::{AllocError, Global};

/// Whether a slot lives from the start, by those before it: it is fixed, and its container does.
#[tactic(auto, using(crate::proofs::frame_start::Started::not_fixed, crate::proofs::frame_start::Started::at_top, crate::proofs::frame_start::Started::by_container))]
fn lives_from_start(wiring: &Wiring, starts: &[bool], slot: SlotId) -> bool
    requires order { IsDepthFirst wiring.now }
    requires there { slot.0 < length wiring.now.slots }
    requires before { starts.now ≡ map (lives_from_start wiring.now) (range_with_len 0 slot.0) }
    ensures { result ≡ lives_from_start wiring.now slot.0 }
{
    if !is_fixed(wiring, slot) {
        return false;
    }
    match container_of(wiring, slot) {
        Some(container) => starts[usize::from(container.0)],
        None => true,
    }
}

/// The row of a slot at the start.
fn first_row(wiring: &Wiring, me: ControllerId, slot: SlotId, starts: bool) -> Row
    requires there { slot.0 < length wiring.now.slots }
    requires me { me.0 < length wiring.now.controllers }
    ensures { result ≡ first_row wiring.now me.0 slot.0 starts }
{
    let lives = is_own(wiring, me, slot) && starts;
    let told = wiring.tells(slot, me) && starts;
    Row {
        generation: if lives { 1 } else { 0 },
        lives,
        told: if told { 1 } else { 0 },
    }
}

/// What a controller knows at the start: each of its slots that is fixed and not below an optional one
/// lives with generation 1, every other has generation 0; and its directory tells 1 of each such slot
/// that is announced to it. The time is in proportion to the number of slots; only what lives or is told
/// makes a page of rows.
#[tactic(auto, using(crate::proofs::frame_start::Started::one_more, crate::proofs::frame_start::Started::all_started))]
pub fn first_lives(
    alloc: Global,
    wiring: &Wiring,
    me: ControllerId,
) -> Result<SlotLives, AllocError>
    requires order { IsDepthFirst wiring.now }
    requires me { me.0 < length wiring.now.controllers }
    ensures { IfOk result (λ known. shown known ≡ first_known wiring.now me.0) }
{
    let mut starts = Vec::new(alloc);
    let mut known = SlotLives::new(alloc);
    for number in 0..wiring.slot_count() {
        let slot = SlotId(number as u16);
        let lives = lives_from_start(wiring, starts.as_slice(), slot);
        known.push(first_row(wiring, me, slot, lives))?;
        starts.push(lives)?;
    }
    Ok(known)
}
