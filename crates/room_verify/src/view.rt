//! What is seen of the system in which a replay stands.
ghost use Rattle.std.specs.Prelude.{◌≡◌, ◌<◌, ◌≤◌, ◌∷◌, ◌++◌, [], length, map, nat_le, IfOk, OnOk};
ghost use Rattle.std.specs.Option.{option_map_or};
ghost use Rattle.std.specs.List.{filter, flat_map};
ghost use Rattle.room_wiring.specs.Places.{port_count, place_count};
ghost use Rattle.actor_duties.specs.State.{Link};
ghost use Rattle.actor_duties.specs.Words.{is_imported, places_of, slots_of};
ghost use Rattle.inject_reader.specs.Fitting.{has_end_places};
ghost use Rattle.chart_behaviour.specs.ModelCharts.{state_number};
ghost use Rattle.controller_actors.specs.Bodies.{IsWell};
ghost use Rattle.controller_actors.specs.Seen.{attributes_of};
ghost use Rattle.controller.specs.States.{IsStateOf, shown_in};
ghost use Rattle.room_show.specs.Text.{no_state};
ghost use Rattle.room_verify.specs.Shown.{actor_seen, controller_seen, is_end_port, living, peer_seen, peers_seen, place_seen, port_seen, shown, slot_seen};
ghost use Rattle.room_verify.specs.Showing.{actors_observer, body_at};
ghost use Rattle.room_verify.specs.Worlds.{Stands, world_in};

use crate::replay::Replay;
use controller::{ControllerState, Plant};
use controller_actors::Actors;
use room_kinds::{ControllerId, Incarnation, Msg, PortKind, SlotId, Stamp};
use room_show::{ActorView, ControllerView, NO_STATE, PeerView, PlaceView, Snapshot};
use room_wiring::Wiring;
use service_messages::{is_imported, is_own, is_spp};
use std::alloc::{AllocError, Global};

/// Whether the places of ports of this kind are end places.
fn has_end_places(kind: PortKind) -> bool
    ensures { result ≡ has_end_places kind }
{
    match kind {
        PortKind::End | PortKind::Internal | PortKind::Sap | PortKind::Spp => true,
        PortKind::Frame | PortKind::Relay => false,
    }
}

/// Whether a port of a slot has end places.
#[tactic(auto, unfolding(crate::specs::Shown::is_end_port))]
fn is_end_port(wiring: &Wiring, slot: SlotId, port: u16) -> bool
    ensures { result ≡ is_end_port wiring.now slot.0 port }
{
    match wiring.port_of(slot, port) {
        Some(found) => has_end_places(found.kind),
        None => false,
    }
}

/// The actors of a controller that is looked at.
#[derive(Clone, Copy)]
pub struct Look<'a> {
    pub(crate) alloc: Global,
    pub(crate) plant: &'a Plant,
    pub(crate) me: ControllerId,
    pub(crate) actors: &'a Actors,
}

/// The peers of an actor.
impl Look<'_> {
    /// Adds the peer of a place of a port, if it has one.
    fn add_peer(
        &self,
        who: Incarnation,
        port: u16,
        place: u32,
        peers: &mut Vec<PeerView>,
    ) -> Result<(), AllocError>
        requires well { IsWell self.now.plant.now self.now.me.0 self.now.actors.now }
        ensures { OnOk result (peers.new.items ≡ peers.old.items
            ++ peer_seen self.now.plant.now.wiring self.now.me.0 (body_at self.now) who port place) }
    {
        let found = self
            .actors
            .peer(self.plant, self.me, who, port, u64::from(place));
        match found {
            Some(peer) => {
                peers.push(PeerView { port, place, peer })?;
                Ok(())
            }
            None => Ok(()),
        }
    }

    /// Adds the peers at the places that the model gives a port.
    fn add_model_peers(
        &self,
        who: Incarnation,
        port: u16,
        peers: &mut Vec<PeerView>,
    ) -> Result<(), AllocError>
        requires well { IsWell self.now.plant.now self.now.me.0 self.now.actors.now }
        requires slot { who.slot.0 < length self.now.plant.now.wiring.slots }
        requires port { port < port_count self.now.plant.now.wiring who.slot.0 }
        ensures { OnOk result (peers.new.items ≡ peers.old.items
            ++ flat_map
            (peer_seen self.now.plant.now.wiring self.now.me.0 (body_at self.now) who port)
            (places_of self.now.plant.now.wiring who.slot.0 port)) }
    {
        for place in 0..self.plant.wiring.places(who.slot, port) {
            self.add_peer(who, port, place, peers)?;
        }
        Ok(())
    }

    /// Adds the peer of a linked place, where it stands behind those of the model.
    #[tactic(auto, using(crate::proofs::ViewLaw::link_passed, crate::proofs::ViewLaw::link_added))]
    fn add_linked_peer(
        &self,
        who: Incarnation,
        port: u16,
        first: u32,
        place: u32,
        peers: &mut Vec<PeerView>,
    ) -> Result<(), AllocError>
        requires well { IsWell self.now.plant.now self.now.me.0 self.now.actors.now }
        ensures { OnOk result (peers.new.items ≡ peers.old.items
            ++ flat_map
            (peer_seen self.now.plant.now.wiring self.now.me.0 (body_at self.now) who port)
            (filter (nat_le first) (place ∷ []))) }
    {
        if place < first {
            return Ok(());
        }
        self.add_peer(who, port, place, peers)
    }

    /// Adds the peers at the places that are linked by name, from the place `first` on.
    fn add_linked_peers(
        &self,
        who: Incarnation,
        port: u16,
        first: u32,
        peers: &mut Vec<PeerView>,
    ) -> Result<(), AllocError>
        requires well { IsWell self.now.plant.now self.now.me.0 self.now.actors.now }
        ensures { OnOk result (peers.new.items ≡ peers.old.items
            ++ flat_map
            (peer_seen self.now.plant.now.wiring self.now.me.0 (body_at self.now) who port)
            (filter (nat_le first)
            (map (λ (x : Link). x.place) ((body_at self.now).links.linked who.slot.0 port)))) }
    {
        let count = self.actors.link_count(self.plant, self.me, who.slot, port);
        for index in 0..count {
            let linked = self
                .actors
                .linked_place(self.plant, self.me, who.slot, port, index);
            if let Some(place) = linked {
                self.add_linked_peer(who, port, first, place, peers)?;
            }
        }
        Ok(())
    }

    /// Adds the peers at the places of a port: at those of the model, and at a service provision point then at
    /// those that are linked by name.
    #[tactic(auto, using(crate::proofs::ViewLaw::no_end_port, crate::proofs::ViewLaw::model_port, crate::proofs::ViewLaw::linked_port))]
    fn add_port_peers(
        &self,
        who: Incarnation,
        port: u16,
        peers: &mut Vec<PeerView>,
    ) -> Result<(), AllocError>
        requires well { IsWell self.now.plant.now self.now.me.0 self.now.actors.now }
        requires slot { who.slot.0 < length self.now.plant.now.wiring.slots }
        requires port { port < port_count self.now.plant.now.wiring who.slot.0 }
        ensures { OnOk result (peers.new.items ≡ peers.old.items
            ++ port_seen self.now.plant.now.wiring self.now.me.0 (body_at self.now) who port) }
    {
        let wiring = &self.plant.wiring;
        if !is_end_port(wiring, who.slot, port) {
            return Ok(());
        }
        self.add_model_peers(who, port, peers)?;
        if !is_spp(wiring, who.slot, port) {
            return Ok(());
        }
        let first = wiring.places(who.slot, port);
        self.add_linked_peers(who, port, first, peers)
    }

    /// The peers of an actor, in order of port and place.
    #[tactic(auto, unfolding(crate::specs::Shown::peers_seen))]
    fn peers(&self, who: Incarnation) -> Result<Vec<PeerView>, AllocError>
        requires well { IsWell self.now.plant.now self.now.me.0 self.now.actors.now }
        requires slot { who.slot.0 < length self.now.plant.now.wiring.slots }
        ensures { IfOk result (λ v. v.items
            ≡ peers_seen self.now.plant.now.wiring self.now.me.0 (body_at self.now) who) }
    {
        let mut peers = Vec::new(self.alloc);
        for port in 0..self.plant.wiring.port_count(who.slot) {
            self.add_port_peers(who, port as u16, &mut peers)?;
        }
        Ok(peers)
    }
}

/// An actor.
impl Look<'_> {
    /// The number of the state of the actor in a slot.
    fn state(&self, slot: SlotId) -> u16
        ensures { result
            ≡ option_map_or state_number ((body_at self.now).machines slot.0) no_state }
    {
        match self.actors.state(self.plant, self.me, slot) {
            Some(number) => number,
            None => NO_STATE,
        }
    }

    /// The numbers of the attributes of the actor in a slot.
    fn attributes(&self, slot: SlotId) -> Result<Vec<i64>, AllocError>
        ensures { IfOk result (λ v. v.items
            ≡ option_map_or attributes_of ((body_at self.now).machines slot.0) []) }
    {
        match self.actors.attributes(self.plant, self.me, slot) {
            Some(numbers) => numbers.to_vec(self.alloc),
            None => Ok(Vec::new(self.alloc)),
        }
    }

    /// The messages that the actor in a slot keeps for later, oldest first.
    fn deferred(&self, slot: SlotId) -> Result<Vec<Msg>, AllocError>
        ensures { IfOk result (λ v. v.items ≡ (body_at self.now).deferred slot.0) }
    {
        let mut kept = Vec::new(self.alloc);
        for i in 0..usize::MAX {
            match self.actors.deferred_at(self.plant, self.me, slot, i) {
                Some(msg) => kept.push(msg.copy(self.alloc)?)?,
                None => return Ok(kept),
            }
        }
        Err(AllocError)
    }

    /// A live actor.
    #[tactic(auto, unfolding(crate::specs::Shown::actor_seen))]
    fn actor(&self, who: Incarnation) -> Result<ActorView, AllocError>
        requires well { IsWell self.now.plant.now self.now.me.0 self.now.actors.now }
        requires slot { who.slot.0 < length self.now.plant.now.wiring.slots }
        ensures { IfOk result (λ v. v ≡ actor_seen actors_observer self.now.plant.now.wiring
            self.now.me.0 (body_at self.now) who) }
    {
        let attributes = self.attributes(who.slot)?;
        let deferred = self.deferred(who.slot)?;
        let peers = self.peers(who)?;
        Ok(ActorView {
            who,
            state: self.state(who.slot),
            attributes: attributes.into(),
            deferred: deferred.into(),
            peers: peers.into(),
        })
    }
}

/// A controller.
impl Look<'_> {
    /// Who lives in a slot of the controller, if anybody does.
    fn living(&self, slot: SlotId) -> Option<Incarnation>
        ensures { result ≡ living self.now.plant.now.wiring self.now.me.0
            (body_at self.now).frame.lives slot.0 }
    {
        if !is_own(&self.plant.wiring, self.me, slot) {
            return None;
        }
        match self.actors.live(self.plant, self.me, slot) {
            Some(generation) => Some(Incarnation { slot, generation }),
            None => None,
        }
    }

    /// Adds the actor that lives in a slot, if one does.
    fn add_actor(&self, slot: SlotId, actors: &mut Vec<ActorView>) -> Result<(), AllocError>
        requires well { IsWell self.now.plant.now self.now.me.0 self.now.actors.now }
        requires slot { slot.0 < length self.now.plant.now.wiring.slots }
        ensures { OnOk result (actors.new.items ≡ actors.old.items
            ++ slot_seen actors_observer self.now.plant.now.wiring self.now.me.0 (body_at self.now)
            slot.0) }
    {
        match self.living(slot) {
            Some(who) => {
                actors.push(self.actor(who)?)?;
                Ok(())
            }
            None => Ok(()),
        }
    }

    /// The live actors, in order of slot.
    fn actors(&self) -> Result<Vec<ActorView>, AllocError>
        requires well { IsWell self.now.plant.now self.now.me.0 self.now.actors.now }
        ensures { IfOk result (λ v. v.items ≡ flat_map
            (slot_seen actors_observer self.now.plant.now.wiring self.now.me.0 (body_at self.now))
            (slots_of self.now.plant.now.wiring)) }
    {
        let mut actors = Vec::new(self.alloc);
        for number in 0..self.plant.wiring.slot_count() {
            self.add_actor(SlotId(number as u16), &mut actors)?;
        }
        Ok(actors)
    }

    /// Adds the import place of an imported slot whose container lives at the controller.
    fn add_place(&self, slot: SlotId, places: &mut Vec<PlaceView>) -> Result<(), AllocError>
        ensures { OnOk result (places.new.items ≡ places.old.items
            ++ place_seen self.now.plant.now.wiring (body_at self.now).frame slot.0) }
    {
        if !is_imported(&self.plant.wiring, slot) {
            return Ok(());
        }
        match self.actors.place(self.plant, self.me, slot) {
            Some(state) => {
                places.push(PlaceView { slot, state })?;
                Ok(())
            }
            None => Ok(()),
        }
    }

    /// The import places of live containers, in order of slot.
    fn places(&self) -> Result<Vec<PlaceView>, AllocError>
        ensures { IfOk result (λ v. v.items ≡ flat_map
            (place_seen self.now.plant.now.wiring (body_at self.now).frame)
            (slots_of self.now.plant.now.wiring)) }
    {
        let mut places = Vec::new(self.alloc);
        for number in 0..self.plant.wiring.slot_count() {
            self.add_place(SlotId(number as u16), &mut places)?;
        }
        Ok(places)
    }
}

/// What is seen of a controller.
#[tactic(auto, unfolding(crate::specs::Shown::controller_seen))]
fn controller_view(
    alloc: Global,
    plant: &Plant,
    state: &ControllerState,
) -> Result<ControllerView, AllocError>
    requires { IsStateOf plant.now state.now }
    ensures { IfOk result (λ v. v ≡ controller_seen actors_observer plant.now.wiring state.now.me.0
        (shown_in plant.now state.now)) }
{
    let look = Look {
        alloc,
        plant,
        me: state.me(),
        actors: state.actors(),
    };
    let actors = look.actors()?;
    let places = look.places()?;
    Ok(ControllerView {
        clock: Stamp(state.mail().clock()),
        turns: state.mail().turns(),
        actors: actors.into(),
        places: places.into(),
    })
}

impl Replay {
    /// The snapshot of the world in which the replay stands, under a stamp.
    #[tactic(auto, unfolding(crate::specs::Shown::shown))]
    pub fn view(&self, alloc: Global, plant: &Plant, at: u64) -> Result<Snapshot, AllocError>
        requires { Stands plant.now self.now }
        ensures { IfOk result (λ s. s
            ≡ shown actors_observer plant.now.wiring (world_in plant.now self.now) at) }
    {
        let mut controllers = Vec::new(alloc);
        for state in self.controllers.as_slice() {
            controllers.push(controller_view(alloc, plant, state)?)?;
        }
        Ok(Snapshot {
            at,
            controllers: controllers.into(),
        })
    }
}
