//! The numbered names of a wiring.
ghost use Rattle.std.specs.Prelude.{◌≡◌, length, IfOk, option_map, option_and_then};
ghost use Rattle.std.specs.Option.{option_copied};
ghost use Rattle.room_wiring.specs.Slots.{class_of};
ghost use Rattle.room_wiring.specs.wiring_names.Lookup.{narrowed, place_of, slot_called, port_called, state_called, signal_called, signal_table, port_of};
ghost use Rattle.room_wiring.specs.wiring_names.Tables.{numbers_of_class};

use crate::Wiring;
use crate::wiring_names::class_names::ClassNumbers;
use crate::wiring_names::path_index::PathIndex;
use crate::wiring_names::slot_classes::SlotClasses;
use name_tables::Numbers;
use room_kinds::SlotId;
use std::alloc::{AllocError, Global};
use std::marker::Model;

/// A wiring whose names have been numbered. A contract sees the tables of the wiring.
///
/// Where the names of the wiring tell things apart (`IsWellNamed`) a name has the number of what it
/// names.
#[derive(Drop)]
pub struct Names<'a> {
    wiring: &'a Wiring,
    slots: PathIndex,
    classes: SlotClasses<'a>,
}

impl<'a> Model for Names<'a> {
    ghost use Rattle.room_wiring.specs.declared.tables.Tables.{Tables};
    ghost use Rattle.room_wiring.specs.wiring_names.Index.{IsIndexOf};

    ghost Value = { Tables };

    ghost view = { λ n. n.wiring.now };

    ghost invariant = { λ n. IsIndexOf n.wiring.now n.slots n.classes };
}

/// The place as a `u16`; 0 where it is too large, or where there is none.
fn narrow(place: Option<usize>) -> u16
    ensures { result ≡ narrowed place }
{
    match place {
        Some(i) => { if i < 65536 { i as u16 } else { 0 } }
        None => 0,
    }
}

#[tactic(auto, unfolding(crate::specs::wiring_names::Lookup::place_of))]
fn number_of(numbers: &Numbers<'_>, name: &[u8]) -> u16
    ensures { result ≡ place_of numbers.now name.now }
{
    narrow(numbers.number_of(name))
}

impl<'a> Names<'a> {
    /// Numbers the names of a wiring. It takes time and memory in proportion to the tables.
    pub fn of(alloc: Global, wiring: &'a Wiring) -> Result<Names<'a>, AllocError>
        ensures { IfOk result (λ n. n ≡ wiring.now) }
    {
        let slots = PathIndex::of(alloc, wiring)?;
        let classes = SlotClasses::of(alloc, wiring)?;
        Ok(Names {
            wiring,
            slots,
            classes,
        })
    }

    /// How many controllers there are.
    pub fn controller_count(&self) -> u8
        ensures { result ≡ length self.now.controllers }
    {
        self.wiring.controller_count()
    }

    /// The slot with this path, the first where there are several; slot 0 where there is none.
    #[tactic(auto, unfolding(crate::specs::wiring_names::Lookup::place_of))]
    pub fn slot(&self, path: &[u8]) -> SlotId
        ensures { result ≡ record { 0 = slot_called self.now path.now } }
    {
        SlotId(narrow(self.slots.slot(self.wiring, path)))
    }

    /// The port of a slot with this name; port 0 where there is none.
    pub fn port(&self, slot: SlotId, name: &[u8]) -> u16
        ensures { result ≡ port_called self.now slot.0 name.now }
    {
        match self.class(slot) {
            Some(class) => number_of(&class.ports, name),
            None => 0,
        }
    }

    /// The state of a slot's class with this label; state 0 where there is none.
    pub fn state(&self, slot: SlotId, label: &[u8]) -> u16
        ensures { result ≡ state_called self.now slot.0 label.now }
    {
        match self.class(slot) {
            Some(class) => number_of(&class.states, label),
            None => 0,
        }
    }

    /// The signal of a port of a slot with this name; signal 0 where there is none.
    pub fn signal(&self, slot: SlotId, port: u16, name: &[u8]) -> u16
        ensures { result ≡ signal_called self.now slot.0 port name.now }
    {
        match self.signals(slot, port) {
            Some(signals) => number_of(signals, name),
            None => 0,
        }
    }

    fn signals(&self, slot: SlotId, port: u16) -> Option<&Numbers<'a>>
        ensures { option_copied result ≡ option_map signal_table (option_and_then (port_of port) (class_of self.now slot.0)) }
    {
        match self.class(slot) {
            Some(class) => class.signals.as_slice().get(usize::from(port)),
            None => None,
        }
    }

    fn class(&self, slot: SlotId) -> Option<&ClassNumbers<'a>>
        ensures { option_copied result ≡ option_map numbers_of_class (class_of self.now slot.0) }
    {
        self.classes.of_slot(slot)
    }
}
