//! The look-ups of a wiring.
ghost use Rattle.std.specs.Prelude.{◌≡◌, ◌+◌, ◌<◌, ◌≤◌, Some, length, slice_get, option_map, position, nat_eq, IfSome};
ghost use Rattle.std.specs.Option.{option_copied};
ghost use Rattle.std.specs.List.{position_or_len};
ghost use lib.Pointwise.{pointwise};
ghost use Rattle.name_tables.specs.name_numbers.Names.{same};
ghost use Rattle.room_wiring.specs.wiring_names.Lookup.{slot_paths};
ghost use Rattle.room_wiring.specs.Slots.{slot_at, class_at, class_of, port_at, path_text, port_text, slot_named};
ghost use Rattle.room_wiring.specs.Places.{port_count, span_at, place_count, partner_at, is_told};
ghost use Rattle.room_wiring.specs.Consistent.{IsConsistent};
ghost use Rattle.room_outside.specs.line_text.Output.{Puts};

use crate::names::{ClassNames, PortNames};
use crate::slot::{Partner, Slot};
use crate::tables::{PlaceSpan, Tables};
use room_kinds::{ControllerId, SlotId};
use room_outside::{Failed, LineBuffer, Sink};
use std::marker::Model;

/// The slots, controllers and classes of a model by number, and what each place is joined to. A
/// contract sees the tables; they name only what they have (`IsConsistent`). No look-up takes
/// memory.
#[derive(Drop, Debug)]
pub struct Wiring {
    tables: Tables,
}

impl Model for Wiring {
    ghost use Rattle.room_wiring.specs.declared.tables.Tables.{Tables};

    ghost Value = { Tables };

    ghost use Rattle.room_wiring.specs.Consistent.{IsConsistent};

    ghost view = { λ w. w.tables };

    ghost invariant = { λ w. IsConsistent w.tables };
}

impl Wiring {
    /// The wiring with these tables.
    pub fn new(tables: Tables) -> Wiring
        requires { IsConsistent tables }
        ensures { result ≡ tables }
    {
        Wiring { tables }
    }

    /// How many slots there are.
    pub fn slot_count(&self) -> u32
        ensures count { result ≡ length self.now.slots }
        ensures consistent { IsConsistent self.now }
    {
        self.tables.slots.len() as u32
    }

    pub fn slot(&self, s: SlotId) -> &Slot
        requires { s.0 < length self.now.slots }
        ensures slot { slot_at self.now s.0 ≡ Some result.now }
        ensures consistent { IsConsistent self.now }
    {
        &self.tables.slots.as_slice()[usize::from(s.0)]
    }

    /// The slot of a number; none where there is no such slot.
    pub fn get_slot(&self, s: SlotId) -> Option<&Slot>
        ensures slot { option_copied result ≡ slot_at self.now s.0 }
        ensures known { IfSome result (λ x. x.now.class < length self.now.classes) }
    {
        self.tables.slots.as_slice().get(usize::from(s.0))
    }

    /// Adds the path of a slot to a line; nothing, where there is no such slot.
    #[inline(always)]
    #[tactic(auto, unfolding(crate::specs::Slots::path_text))]
    pub fn put_path<K: Sink>(
        &self,
        out: &mut LineBuffer,
        sink: &mut K,
        s: SlotId,
    ) -> Result<(), Failed>
        ensures { Puts result
            (record { written = K.written sink.old; held = out.old })
            (record { written = K.written sink.new; held = out.new })
            (path_text self.now s.0) }
    {
        match self.get_slot(s) {
            Some(slot) => slot.path.put(out, sink),
            None => out.put(sink, b""),
        }
    }

    /// How many controllers there are. The environment has this number.
    pub fn controller_count(&self) -> u8
        ensures count { result ≡ length self.now.controllers }
        ensures consistent { IsConsistent self.now }
    {
        self.tables.controllers.len() as u8
    }

    pub fn controller_name(&self, c: ControllerId) -> &str
        requires { c.0 < length self.now.controllers }
        ensures { slice_get self.now.controllers c.0 ≡ Some result.now }
    {
        self.tables.controllers.as_slice()[usize::from(c.0)].as_str()
    }

    /// How many places port `port` of slot `s` has.
    #[tactic(auto, unfolding(crate::specs::Places::place_count))]
    pub fn places(&self, s: SlotId, port: u16) -> u32
        requires slot { s.0 < length self.now.slots }
        requires port { port < port_count self.now s.0 }
        ensures { result ≡ place_count self.now s.0 port }
    {
        self.span(s, port).count
    }

    /// What place `place` of port `port` of slot `s` is joined to.
    #[tactic(auto, unfolding(crate::specs::Places::partner_at, crate::specs::Places::place_count))]
    pub fn partner(&self, s: SlotId, port: u16, place: u32) -> Partner
        requires slot { s.0 < length self.now.slots }
        requires port { port < port_count self.now s.0 }
        requires place { place < place_count self.now s.0 port }
        ensures { result ≡ partner_at self.now s.0 port place }
    {
        let first = self.span(s, port).first;
        self.tables.partners.as_slice()[first as usize + place as usize]
    }

    /// Whether the owner of slot `s` tells controller `d` of the actors in that slot.
    #[tactic(auto, unfolding(crate::specs::Places::is_told))]
    pub fn tells(&self, s: SlotId, d: ControllerId) -> bool
        requires slot { s.0 < length self.now.slots }
        requires controller { d.0 < length self.now.controllers }
        ensures { result ≡ is_told self.now s.0 d.0 }
    {
        self.tables.told.as_slice()[usize::from(s.0)].as_slice()[usize::from(d.0)]
    }

    /// The first slot with this path.
    #[tactic(auto, unfolding(crate::specs::Slots::slot_named))]
    pub fn find(&self, path: &str) -> Option<SlotId>
        ensures { result ≡ option_map (λ i. record { 0 = i }) (slot_named self.now path.now) }
    {
        match first_with_path(self.tables.slots.as_slice(), path.as_bytes()) {
            Some(place) => Some(SlotId(place as u16)),
            None => None,
        }
    }

    /// The first slot with this path. The search begins at a place before which no slot has the path.
    pub(crate) fn find_from(&self, first: usize, path: &[u8]) -> Option<usize>
        requires within { first ≤ length self.now.slots }
        requires early { first ≤ position_or_len (same path.now) (slot_paths self.now) }
        ensures { result ≡ position (same path.now) (slot_paths self.now) }
    {
        let slots = self.tables.slots.as_slice();
        match first_with_path(&slots[first..], path) {
            Some(further) => Some(first + further),
            None => None,
        }
    }

    pub fn class(&self, class: u16) -> &ClassNames
        requires { class < length self.now.classes }
        ensures class { class_at self.now class ≡ Some result.now }
        ensures consistent { IsConsistent self.now }
    {
        &self.tables.classes.as_slice()[usize::from(class)]
    }

    /// The class of a number; none where there is no such class.
    pub fn get_class(&self, class: u16) -> Option<&ClassNames>
        ensures { option_copied result ≡ class_at self.now class }
    {
        self.tables.classes.as_slice().get(usize::from(class))
    }

    /// The class of a slot; none where there is no such slot.
    #[tactic(auto, unfolding(crate::specs::Slots::class_of))]
    pub fn class_of(&self, s: SlotId) -> Option<&ClassNames>
        ensures { option_copied result ≡ class_of self.now s.0 }
    {
        match self.get_slot(s) {
            Some(slot) => self.get_class(slot.class),
            None => None,
        }
    }

    /// How many ports a slot has, `frame` among them; none where there is no such slot.
    #[tactic(auto, unfolding(crate::specs::Places::port_count))]
    pub fn port_count(&self, s: SlotId) -> usize
        ensures { result ≡ port_count self.now s.0 }
    {
        match self.class_of(s) {
            Some(class) => class.ports.len(),
            None => 0,
        }
    }

    /// A port of the class of a slot, by its number; none where the class has no such port, or where
    /// there is no such slot.
    #[tactic(auto, unfolding(crate::specs::Slots::port_at))]
    pub fn port_of(&self, s: SlotId, port: u16) -> Option<&PortNames>
        ensures { option_copied result ≡ port_at self.now s.0 port }
    {
        match self.class_of(s) {
            Some(class) => class.ports.as_slice().get(usize::from(port)),
            None => None,
        }
    }

    /// The name of a port of a slot; empty, where there is no such port.
    #[tactic(auto, unfolding(crate::specs::Slots::port_text))]
    pub fn port_name(&self, s: SlotId, port: u16) -> &[u8]
        ensures { result.now ≡ port_text self.now s.0 port }
    {
        match self.port_of(s, port) {
            Some(port) => port.name.as_bytes(),
            None => b"",
        }
    }

    #[tactic(auto, unfolding(crate::specs::Places::span_at))]
    fn span(&self, s: SlotId, port: u16) -> PlaceSpan
        requires slot { s.0 < length self.now.slots }
        requires port { port < port_count self.now s.0 }
        ensures span { result ≡ span_at self.now s.0 port }
        ensures inside { result.first + result.count ≤ length self.now.partners }
    {
        let first = self.tables.first_ports.as_slice()[usize::from(s.0)];
        self.tables.ports.as_slice()[first as usize + usize::from(port)]
    }
}

fn first_with_path(slots: &[Slot], path: &[u8]) -> Option<usize>
    ensures found { result ≡ position (λ x. pointwise nat_eq x.path path.now) slots.now }
    ensures within { IfSome result (λ i. i < length slots.now) }
{
    slots.iter().position(|slot| slot.path.is(path))
}
