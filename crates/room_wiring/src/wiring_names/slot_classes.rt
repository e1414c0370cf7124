//! The names of the classes that slots have.
ghost use Rattle.std.specs.Prelude.{◌≡◌, ◌<◌, Some, length, slice_get, option_map, IfOk};
ghost use Rattle.std.specs.Option.{option_copied};
ghost use Rattle.room_wiring.specs.Slots.{class_at};
ghost use Rattle.room_wiring.specs.wiring_names.Tables.{numbers_of_class};
ghost use Rattle.room_wiring.specs.wiring_names.Index.{AreNumbersOf, FindsForSlots, GoesOn, names_at};

use crate::Wiring;
use crate::wiring_names::class_names::ClassNumbers;
use indexmap::IndexSet;
use room_kinds::{Sequence, SlotId};
use std::alloc::{AllocError, Global};

/// The names of the class of each slot. Slots of one class share them, and a class that no slot has takes
/// nothing: a model may declare many more classes than it uses.
#[derive(Drop)]
pub struct SlotClasses<'a> {
    /// For each slot the place of its class in `classes`.
    places: Sequence<usize>,
    classes: Sequence<ClassNumbers<'a>>,
}

/// The place of a class among those that have been numbered; it is numbered now, if it is a new one.
fn note_class<'a>(
    alloc: Global,
    wiring: &'a Wiring,
    class: u16,
    seen: &mut IndexSet<u16>,
    classes: &mut Sequence<ClassNumbers<'a>>,
) -> Result<usize, AllocError>
    requires known { class < length wiring.now.classes }
    requires numbers { AreNumbersOf wiring.now seen.old.keys classes.old }
    ensures numbers { IfOk result (λ _place. AreNumbersOf wiring.now seen.new.keys classes.new) }
    ensures goes_on { IfOk result (λ _place. GoesOn classes.old classes.new) }
    ensures found { IfOk result (λ place.
        slice_get classes.new place ≡ option_map numbers_of_class (class_at wiring.now class)) }
{
    let (place, is_new) = seen.insert_full(class)?;
    if is_new {
        let numbers = ClassNumbers::of(alloc, wiring.class(class))?;
        classes.push(numbers)?;
    }
    Ok(place)
}

impl<'a> SlotClasses<'a> {
    /// Numbers the names of the classes that slots have.
    pub fn of(alloc: Global, wiring: &'a Wiring) -> Result<SlotClasses<'a>, AllocError>
        ensures { IfOk result (λ found. FindsForSlots wiring.now found) }
    {
        let mut seen = IndexSet::new(alloc);
        let mut places = Sequence::new(alloc);
        let mut classes = Sequence::new(alloc);
        for s in 0..wiring.slot_count() {
            let class = wiring.slot(SlotId(s as u16)).class;
            let place = note_class(alloc, wiring, class, &mut seen, &mut classes)?;
            places.push(place)?;
        }
        Ok(SlotClasses { places, classes })
    }

    /// The names of a slot's class; none where there is no such slot.
    pub fn of_slot(&self, slot: SlotId) -> Option<&ClassNumbers<'a>>
        ensures { option_copied result ≡ names_at self.now slot.0 }
    {
        let place = *self.places.as_slice().get(usize::from(slot.0))?;
        self.classes.as_slice().get(place)
    }
}
