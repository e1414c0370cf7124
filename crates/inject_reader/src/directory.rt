//! Look-ups of names at a wiring.
ghost use Rattle.std.specs.Prelude.{◌≡◌, ◌<◌, Some, false, length, slice_get, option_map, option_and_then, IfOk, IfSome};
ghost use Rattle.std.specs.Option.{option_map_or};
ghost use Rattle.name_tables.specs.name_numbers.Names.{same};
ghost use Rattle.room_wiring.specs.Slots.{slot_at, class_of, slot_named};
ghost use Rattle.room_wiring.specs.Places.{place_count};
ghost use Rattle.inject_reader.specs.Guesses.{IsNoLater};
ghost use Rattle.room_wiring.specs.wiring_names.Lookup.{port_of};
ghost use Rattle.text_reading.specs.Numerals.{value_of};
ghost use Rattle.inject_reader.specs.Meaning.{is_own, slot_meant, end_place, port_named, port_in_class, port_meant, coming, signal_meant};

use crate::parts::{coming, coming_at, first_coming, narrow, port_place, signal_place};
use room_kinds::SlotId;
use room_wiring::wiring_names::Names;
use room_wiring::{ClassNames, PortNames, SignalNames, Wiring};
use std::alloc::{AllocError, Global};
use std::marker::Model;
use text_reading::value;

/// A wiring with its names numbered. A contract sees the tables of the wiring.
///
/// A name is looked up under its number; only where something else has that number it is searched
/// for. At a wiring whose names tell things apart nothing has such a name, so that a text is
/// refused after the first search.
#[derive(Drop)]
pub struct Directory<'a> {
    wiring: &'a Wiring,
    names: Names<'a>,
}

impl<'a> Model for Directory<'a> {
    ghost use Rattle.std.specs.Prelude.{◌≡◌};
    ghost use Rattle.room_wiring.specs.declared.tables.Tables.{Tables};

    ghost Value = { Tables };

    ghost view = { λ d. d.wiring.now };

    ghost invariant = { λ d. d.names ≡ d.wiring.now };
}

fn has_path(wiring: &Wiring, s: SlotId, path: &[u8]) -> bool
    ensures { result ≡ option_map_or (λ x. same x.path path.now) (slot_at wiring.now s.0) false }
{
    match wiring.get_slot(s) {
        Some(slot) => slot.path.is(path),
        None => false,
    }
}

/// The first slot with this path, searched for.
#[tactic(auto, unfolding(room_wiring::specs::Slots::slot_named))]
fn first_with_path(wiring: &Wiring, path: &[u8]) -> Option<SlotId>
    ensures { option_map (λ s. s.0) result ≡ slot_named wiring.now path.now }
{
    for s in 0..wiring.slot_count() {
        let slot = SlotId(s as u16);
        if wiring.slot(slot).path.is(path) {
            return Some(slot);
        }
    }
    None
}

/// A place of a port at which injections come in, with the names of the port.
#[derive(Clone, Copy)]
pub struct EndPlace<'a> {
    pub port: u16,
    pub place: u32,
    pub names: &'a PortNames,
}

impl<'a> Directory<'a> {
    /// Numbers the names of a wiring. It takes time and memory in proportion to the tables.
    pub fn of(alloc: Global, wiring: &'a Wiring) -> Result<Directory<'a>, AllocError>
        ensures { IfOk result (λ d. d ≡ wiring.now) }
    {
        let names = Names::of(alloc, wiring)?;
        Ok(Directory { wiring, names })
    }

    fn slot_named(&self, path: &[u8]) -> Option<SlotId>
        ensures { option_map (λ s. s.0) result ≡ slot_named self.now path.now }
    {
        let guess = self.names.slot(path);
        if has_path(self.wiring, guess, path) {
            return Some(guess);
        }
        first_with_path(self.wiring, path)
    }

    fn is_own(&self, s: SlotId) -> bool
        ensures { result ≡ option_map_or (λ x. is_own x.kind) (slot_at self.now s.0) false }
    {
        match self.wiring.get_slot(s) {
            Some(slot) => !slot.kind.is_imported(),
            None => false,
        }
    }

    /// The slot with this path, unless it is an imported one.
    #[tactic(auto, unfolding(crate::specs::Meaning::slot_meant))]
    pub fn slot(&self, path: &[u8]) -> Option<SlotId>
        ensures { option_map (λ s. s.0) result ≡ slot_meant self.now path.now }
    {
        let slot = self.slot_named(path)?;
        if self.is_own(slot) { Some(slot) } else { None }
    }

    /// The number of the port of a slot's class with this name.
    fn port_named(&self, s: SlotId, class: &'a ClassNames, name: &[u8]) -> Option<u16>
        requires { class_of self.now s.0 ≡ Some class.now }
        ensures { result ≡ port_named class.now name.now }
    {
        let guess = usize::from(self.names.port(s, name));
        narrow(port_place(class.ports.as_slice(), name, guess)?)
    }

    fn places(&self, s: SlotId, class: &ClassNames, port: u16) -> u32
        requires class { class_of self.now s.0 ≡ Some class.now }
        requires port { port < length class.now.ports }
        ensures { result ≡ place_count self.now s.0 port }
    {
        self.wiring.places(s, port)
    }

    /// A place of this port, if it is an end port that has it.
    fn end_place(
        &self,
        s: SlotId,
        class: &'a ClassNames,
        port: u16,
        digits: &[u8],
    ) -> Option<EndPlace<'a>>
        requires { class_of self.now s.0 ≡ Some class.now }
        ensures end { option_map (λ e. (e.port, e.names.now)) result
            ≡ option_and_then (end_place self.now s.0 (value_of digits.now) port) (slice_get
            class.now.ports port) }
        ensures place { IfSome result (λ e. e.place ≡ value_of digits.now) }
        ensures known { IfSome result (λ e. slice_get class.now.ports e.port ≡ Some e.names.now) }
    {
        let names = class.ports.as_slice().get(usize::from(port))?;
        let place = value(digits);
        if names.kind.is_end() && place < u64::from(self.places(s, class, port)) {
            Some(EndPlace {
                port,
                place: place as u32,
                names,
            })
        } else {
            None
        }
    }

    fn end_in_class(
        &self,
        s: SlotId,
        class: &'a ClassNames,
        name: &[u8],
        digits: &[u8],
    ) -> Option<EndPlace<'a>>
        requires { class_of self.now s.0 ≡ Some class.now }
        ensures end { option_map (λ e. (e.port, e.names.now)) result
            ≡ port_in_class self.now s.0 name.now (value_of digits.now) class.now }
        ensures place { IfSome result (λ e. e.place ≡ value_of digits.now) }
        ensures known { IfSome result (λ e. slice_get class.now.ports e.port ≡ Some e.names.now) }
    {
        let port = self.port_named(s, class, name)?;
        self.end_place(s, class, port, digits)
    }

    /// The place of these digits at the end port or internal end port of this name.
    #[tactic(auto, unfolding(crate::specs::Meaning::port_meant))]
    pub fn end(&self, s: SlotId, name: &[u8], digits: &[u8]) -> Option<EndPlace<'a>>
        ensures end { option_map (λ e. (e.port, e.names.now)) result
            ≡ port_meant self.now s.0 name.now (value_of digits.now) }
        ensures place { IfSome result (λ e. e.place ≡ value_of digits.now) }
        ensures known { IfSome result (λ e.
            option_and_then (port_of e.port) (class_of self.now s.0) ≡ Some e.names.now) }
    {
        let class = self.wiring.class_of(s)?;
        self.end_in_class(s, class, name, digits)
    }

    /// A place among the signals that come in at a port, before which none has this name.
    fn signal_guess(&self, s: SlotId, port: u16, names: &PortNames, name: &[u8]) -> usize
        requires { option_and_then (port_of port) (class_of self.now s.0) ≡ Some names.now }
        ensures { IsNoLater result (λ y. same y.name name.now) (coming names.now) }
    {
        usize::from(self.names.signal(s, port, name)).saturating_sub(first_coming(names))
    }

    /// The signal with this name that comes in at a port, with its number.
    #[tactic(auto, unfolding(crate::specs::Meaning::signal_meant))]
    pub fn signal(
        &self,
        s: SlotId,
        port: u16,
        names: &'a PortNames,
        name: &[u8],
    ) -> Option<(u16, &'a SignalNames)>
        requires { option_and_then (port_of port) (class_of self.now s.0) ≡ Some names.now }
        ensures { option_map (λ y. (y.0, y.1.now)) result ≡ signal_meant names.now name.now }
    {
        let guess = self.signal_guess(s, port, names, name);
        let place = signal_place(coming(names), name, guess)?;
        coming_at(names, place)
    }
}
