//! The table of import places and plugs.
ghost use Rattle.std.specs.Prelude.{◌≡◌, ◌++◌, ◌∷◌, [], ◌<◌, not, filter, length, if◌then◌else◌, All, OnOk};
ghost use Rattle.actor_duties.specs.State.{Empty};
ghost use Rattle.actor_duties.specs.Words.{updated, is_incarnation};
ghost use Rattle.service_messages.specs.slot_runs.Runs.{IsDepthFirst, AreRunEnds};
ghost use Rattle.frame_lives.specs.Steps.{is_among};
ghost use Rattle.frame_service.specs.frame_imports.import_places.Places.{place_of};
ghost use Rattle.frame_service.specs.frame_imports.import_places.Lending.{lending, with_places, with_plugs, nothing_lent, is_import_of, forgotten, forgotten_where};

use crate::frame_imports::frame_peers::Lent;
use crate::frame_imports::import_places::place::ImportPlace;
use crate::frame_imports::import_places::plugs::Plugs;
use frame_lives::Pages;
use room_kinds::{Incarnation, SlotId};
use room_wiring::Wiring;
use service_messages::{SlotRuns, is_imported, is_part_of};
use std::alloc::{AllocError, Global};
use std::marker::Model;

/// What each imported slot holds, and the plugs of each slot, by slot number. What the tables say
/// (`lending`) is a pair of functions of slot numbers. No look-up takes memory.
///
/// They stand in pages, which take memory for a slot only where it, or a later one of its page, has asked
/// for a home or was lent (`Pages`). So they take none where nothing is lent.
#[derive(Drop)]
pub struct Imports {
    places: Pages<ImportPlace>,
    plugs: Pages<Plugs>,
}

impl Model for Imports {
    ghost use Rattle.frame_service.specs.frame_imports.import_places.Lending.{Kept};

    ghost Value = { Kept };

    ghost view = { λ x. record { places = x.places; plugs = x.plugs } };
}

impl Lent for Imports {
    ghost places = { λ x. (lending x).places };

    ghost plugs = { λ x. (lending x).plugs };

    fn held(&self, slot: SlotId) -> Option<Incarnation> {
        self.place(slot).held()
    }

    fn tied(&self, slot: SlotId) -> Option<Incarnation> {
        self.place(slot).tied()
    }

    #[tactic(auto, unfolding(crate::specs::frame_imports::import_places::Lending::lending))]
    fn plugs_of(&self, slot: SlotId) -> &[Incarnation] {
        match self.plugs.get(usize::from(slot.0)) {
            Some(plugs) => plugs.as_slice(),
            None => &[],
        }
    }
}

impl Imports {
    /// All import places are empty, and there are no plugs. It takes no memory.
    #[tactic(auto, unfolding(crate::specs::frame_imports::import_places::Lending::lending))]
    pub fn new(alloc: Global) -> Imports
        ensures { lending result ≡ nothing_lent }
    {
        Imports {
            places: Pages::new(alloc),
            plugs: Pages::new(alloc),
        }
    }

    /// What a slot holds.
    #[tactic(auto, unfolding(crate::specs::frame_imports::import_places::Lending::lending))]
    pub fn place(&self, slot: SlotId) -> ImportPlace
        ensures { place_of result ≡ (lending self.now).places slot.0 }
    {
        self.places.item(usize::from(slot.0))
    }

    /// A slot holds something else.
    pub fn set_place(&mut self, slot: SlotId, place: ImportPlace) -> Result<(), AllocError>
        ensures { OnOk result (lending self.new ≡ with_places (lending self.old) (updated
            (lending self.old).places slot.0 (place_of place))) }
    {
        let held = self.places.reach(usize::from(slot.0))?;
        *held = place;
        Ok(())
    }

    /// A slot holds nothing any more. It takes no memory.
    fn empty_place(&mut self, slot: SlotId)
        ensures { lending self.new
            ≡ with_places (lending self.old) (updated (lending self.old).places slot.0 Empty) }
    {
        if let Some(place) = self.places.get_mut(usize::from(slot.0)) {
            *place = ImportPlace::Empty;
        }
    }

    /// A slot has one more plug, its youngest.
    pub fn add_plug(&mut self, slot: SlotId, plug: Incarnation) -> Result<(), AllocError>
        ensures { OnOk result (lending self.new ≡ with_plugs (lending self.old) (updated
            (lending self.old).plugs slot.0 ((lending self.old).plugs slot.0 ++ plug ∷ []))) }
    {
        let plugs = self.plugs.reach(usize::from(slot.0))?;
        plugs.push(plug)?;
        Ok(())
    }

    /// A plug of a slot goes, if it is there.
    pub fn remove_plug(&mut self, slot: SlotId, plug: Incarnation)
        ensures { lending self.new ≡ with_plugs (lending self.old) (updated (lending self.old).plugs
            slot.0 (filter (λ q. not (is_incarnation q plug)) ((lending self.old).plugs slot.0))) }
    {
        if let Some(plugs) = self.plugs.get_mut(usize::from(slot.0)) {
            plugs.remove(plug);
        }
    }

    /// All plugs of a slot go.
    fn clear_plugs(&mut self, slot: SlotId)
        ensures { lending self.new
            ≡ with_plugs (lending self.old) (updated (lending self.old).plugs slot.0 []) }
    {
        if let Some(plugs) = self.plugs.get_mut(usize::from(slot.0)) {
            plugs.clear();
        }
    }

    /// A slot holds nothing any more, if it is an imported one of a container.
    #[tactic(auto, using(crate::proofs::frame_imports::import_places::Written::place_kept))]
    fn clear_place(&mut self, wiring: &Wiring, container: SlotId, slot: SlotId)
        ensures { lending self.new ≡ with_places (lending self.old)
            (updated (lending self.old).places slot.0 (if is_import_of wiring.now container.0 slot.0
            then Empty
            else (lending self.old).places slot.0)) }
    {
        if is_imported(wiring, slot) && is_part_of(wiring, slot, container) {
            self.empty_place(slot);
        }
    }

    /// No imported slot of a container holds anything any more. The time is in proportion to the number
    /// of its parts.
    fn clear_places(&mut self, wiring: &Wiring, runs: &SlotRuns, container: SlotId)
        requires order { IsDepthFirst wiring.now }
        requires runs { AreRunEnds wiring.now runs.now }
        requires there { container.0 < length wiring.now.slots }
        ensures { lending self.new ≡ with_places (lending self.old) (λ i.
            if is_import_of wiring.now container.0 i then Empty else (lending self.old).places i) }
    {
        let end = runs.end(wiring, container);
        let mut part = u32::from(container.0) + 1;
        while part < end {
            let slot = SlotId(part as u16);
            self.clear_place(wiring, container, slot);
            part = runs.end(wiring, slot);
        }
    }

    /// What stood in a slot has ended: nothing is lent to it or of it any more.
    fn forget(&mut self, wiring: &Wiring, runs: &SlotRuns, slot: SlotId)
        requires order { IsDepthFirst wiring.now }
        requires runs { AreRunEnds wiring.now runs.now }
        requires there { slot.0 < length wiring.now.slots }
        ensures { lending self.new ≡ forgotten wiring.now slot.0 (lending self.old) }
    {
        self.clear_plugs(slot);
        self.clear_places(wiring, runs, slot);
    }

    /// These actors have ended: nothing is lent to them or of them any more. The time is in proportion to
    /// the number of their parts.
    pub fn end_all(&mut self, wiring: &Wiring, runs: &SlotRuns, ended: &[Incarnation])
        requires order { IsDepthFirst wiring.now }
        requires runs { AreRunEnds wiring.now runs.now }
        requires there { All (λ x. x.slot.0 < length wiring.now.slots) ended.now }
        ensures { lending self.new
            ≡ forgotten_where wiring.now (is_among ended.now) (lending self.old) }
    {
        for actor in ended {
            self.forget(wiring, runs, actor.slot);
        }
    }
}
