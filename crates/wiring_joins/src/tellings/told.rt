//! The answers on who is told.
ghost use Rattle.std.specs.Prelude.{◌≡◌, ℕ, ◌^◌, ◌<◌, ◌≤◌, ◌==◌, ◌&&◌, not, Bool, List, false, length, slice_index_or, IfOk};
ghost use Rattle.wiring_places.specs.place_rules.Partners.{lets_tell, any_joined, is_told};
ghost use Rattle.wiring_joins.specs.tellings.Marked.{marked, IsFor, Marking, IsRow};
ghost use Rattle.wiring_joins.specs.tellings.Told.{SaysWhoIsTold};

use crate::owners::owner_of;
use crate::tellings::marks::Marks;
use room_kinds::Sequence;
use room_wiring::{Partner, Slot};
use std::alloc::{AllocError, Global};
use wiring_places::Place;

/// Marks the controllers that are told of a place's slot because of what the place is joined to.
fn mark_place(marks: &mut Marks, slots: &[Slot], place: Place, partner: Partner)
    ensures { (n controllers : ℕ) → IsFor n controllers marks.old
        → Marking n controllers (λ s d. lets_tell slots.now s d place partner) marks.old marks.new }
{
    if !place.role.is_end() {
        return;
    }
    match partner {
        Partner::Nobody => {}
        Partner::End { slot, .. } => marks.tell(place.slot, owner_of(slots, slot.0)),
        Partner::Socket { .. } => marks.tell_all(place.slot),
    }
}

/// The marks for all places.
fn marks_of(
    alloc: Global,
    slots: &[Slot],
    controllers: u8,
    places: &[Place],
    partners: &[Partner],
) -> Result<Marks, AllocError>
    requires few { length slots.now ≤ 2 ^ 16 }
    requires joined { length places.now ≡ length partners.now }
    ensures { IfOk result (λ m.
        (s d : ℕ) → s < length slots.now → d < controllers
        → marked m s d ≡ any_joined (lets_tell slots.now s d) places.now partners.now) }
{
    let mut marks = Marks::new(alloc, slots.len(), controllers)?;
    for (i, place) in places.iter().enumerate() {
        mark_place(&mut marks, slots, *place, partners[i]);
    }
    Ok(marks)
}

/// Whether a controller is told of a slot that this owner runs.
fn is_marked(marks: &Marks, slot: u16, owner: u8, controller: u8) -> bool
    ensures { result ≡ (not (owner == controller) && marked marks.now slot controller) }
{
    owner != controller && marks.has(slot, controller)
}

/// The answers of one slot, which this controller runs.
fn row_of(
    alloc: Global,
    marks: &Marks,
    controllers: u8,
    slot: u16,
    owner: u8,
) -> Result<Sequence<bool>, AllocError>
    ensures { IfOk result (λ row. IsRow marks.now slot owner controllers row) }
{
    let mut row = Sequence::new(alloc);
    for d in 0..controllers {
        row.push(is_marked(marks, slot, owner, d))?;
    }
    Ok(row)
}

/// For each slot and each controller whether the slot's owner tells the controller of the actors in the
/// slot: another controller, where an end place of a slot that it runs is joined to an end place of the
/// slot, or an end place of the slot is joined to a socket. It takes time in proportion to the places,
/// and to the slots times the controllers.
pub fn told_controllers(
    alloc: Global,
    slots: &[Slot],
    controllers: u8,
    places: &[Place],
    partners: &[Partner],
) -> Result<Sequence<Sequence<bool>>, AllocError>
    requires few { length slots.now ≤ 2 ^ 16 }
    requires joined { length places.now ≡ length partners.now }
    ensures { IfOk result (λ told.
        SaysWhoIsTold slots.now places.now partners.now controllers told) }
{
    let marks = marks_of(alloc, slots, controllers, places, partners)?;
    let mut told = Sequence::new(alloc);
    for (s, slot) in slots.iter().enumerate() {
        told.push(row_of(alloc, &marks, controllers, s as u16, slot.owner.0)?)?;
    }
    Ok(told)
}
