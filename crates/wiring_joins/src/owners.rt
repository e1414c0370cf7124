//! The controllers that run slots.
ghost use Rattle.std.specs.Prelude.{◌≡◌, slice_get};
ghost use Rattle.wiring_places.specs.place_rules.Partners.{owner_of};

use room_wiring::Slot;

/// The controller that runs a slot; controller 0 where there is no such slot.
pub(crate) fn owner_of(slots: &[Slot], slot: u16) -> u8
    ensures { result ≡ owner_of (slice_get slots.now slot) }
{
    match slots.get(usize::from(slot)) {
        Some(slot) => slot.owner.0,
        None => 0,
    }
}
