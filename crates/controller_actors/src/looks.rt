//! What can be seen of a controller's actors between two turns.
ghost use Rattle.std.specs.Prelude.{◌≡◌, ◌<◌, ◌^◌, IfSome, length, map, option_copied, option_map, slice_get, unwrap_or};
ghost use Rattle.actor_duties.specs.Words.{endpoint};
ghost use Rattle.actor_duties.specs.State.{Link};
ghost use Rattle.actor_duties.specs.Peers.{peer};
ghost use Rattle.frame_lives.specs.Known.{live_in};
ghost use Rattle.frame_service.specs.Places.{shown_place};
ghost use Rattle.chart_behaviour.specs.ModelCharts.{state_number};
ghost use Rattle.controller_actors.specs.Bodies.{IsWell, body_of, slot_at, vacant};
ghost use Rattle.controller_actors.specs.Seen.{attributes_of};

use crate::actor_commands::Services;
use crate::actor_slots::ActorSlot;
use crate::actors::Actors;
use crate::plant::Plant;
use room_kinds::{ControllerId, Endpoint, Generation, Incarnation, Msg, PlaceState, SlotId};
use service_messages::is_own;

/// Looks at the actors of controller `me`. None of them takes memory.
impl Actors {
    /// The generation that lives in a slot of the controller's own.
    #[tactic(auto, unfolding(crate::specs::Bodies::body_of))]
    pub fn live(&self, plant: &Plant, me: ControllerId, slot: SlotId) -> Option<Generation>
        ensures { result ≡ live_in (body_of plant.now me.0 self.now).frame.lives slot.0 }
    {
        let (_plant, _me) = (plant, me);
        self.services.frame.live(slot)
    }

    /// What stands in a slot, and what that keeps; none where the slot isn't the controller's own.
    fn slot(&self, plant: &Plant, me: ControllerId, slot: SlotId) -> Option<&ActorSlot>
        ensures { unwrap_or (option_copied result) vacant
            ≡ slot_at plant.now.wiring me.0 self.now.slots.items slot.0 }
    {
        if !is_own(&plant.wiring, me, slot) {
            return None;
        }
        self.slots.as_slice().get(plant.row_of(slot))
    }

    /// The number of the state of the actor that stands in a slot, 65535 where its class has no chart; none
    /// where nobody stands.
    #[tactic(auto, unfolding(crate::specs::Bodies::body_of))]
    pub fn state(&self, plant: &Plant, me: ControllerId, slot: SlotId) -> Option<u16>
        ensures { result
            ≡ option_map state_number ((body_of plant.now me.0 self.now).machines slot.0) }
    {
        match self.slot(plant, me, slot) {
            Some(found) => found.occupant.state(),
            None => None,
        }
    }

    /// The numbers of the attributes of the actor that stands in a slot, in order of declaration; no numbers
    /// where its class has no chart, and none at all where nobody stands.
    #[tactic(auto, unfolding(crate::specs::Bodies::body_of))]
    pub fn attributes(&self, plant: &Plant, me: ControllerId, slot: SlotId) -> Option<&[i64]>
        ensures { option_copied result
            ≡ option_map attributes_of ((body_of plant.now me.0 self.now).machines slot.0) }
    {
        match self.slot(plant, me, slot) {
            Some(found) => found.occupant.attributes(),
            None => None,
        }
    }

    /// One of the messages that are kept for later in a slot, by how many are older.
    #[tactic(auto, unfolding(crate::specs::Bodies::body_of))]
    pub fn deferred_at(
        &self,
        plant: &Plant,
        me: ControllerId,
        slot: SlotId,
        i: usize,
    ) -> Option<&Msg>
        ensures { option_copied result
            ≡ slice_get ((body_of plant.now me.0 self.now).deferred slot.0) i }
    {
        match self.slot(plant, me, slot) {
            Some(found) => found.deferred.get(i),
            None => None,
        }
    }

    /// The peer of a place of a port of a live actor; none where the place is out of range.
    #[tactic(auto, unfolding(crate::specs::Bodies::body_of))]
    pub fn peer(
        &self,
        plant: &Plant,
        me: ControllerId,
        who: Incarnation,
        port: u16,
        place: u64,
    ) -> Option<Endpoint>
        requires well { IsWell plant.now me.0 self.now }
        ensures peer { result
            ≡ peer plant.now.wiring me.0 (body_of plant.now me.0 self.now).frame
            (body_of plant.now me.0 self.now).links
            (endpoint who.slot.0 who.generation.0 port place) }
        ensures near { IfSome result (λ e. place < 2 ^ 32) }
    {
        self.services.peer(&plant.wiring, me, who, port, place)
    }

    /// How many places of a port are linked by name.
    #[tactic(auto, unfolding(crate::specs::Bodies::body_of))]
    pub fn link_count(&self, plant: &Plant, me: ControllerId, slot: SlotId, port: u16) -> usize
        ensures { result ≡ length ((body_of plant.now me.0 self.now).links.linked slot.0 port) }
    {
        let (_plant, _me) = (plant, me);
        self.services.links.link_count(slot, port)
    }

    /// The place of one of the links of a port, which stand in order of place.
    #[tactic(auto, unfolding(crate::specs::Bodies::body_of))]
    pub fn linked_place(
        &self,
        plant: &Plant,
        me: ControllerId,
        slot: SlotId,
        port: u16,
        index: usize,
    ) -> Option<u32>
        ensures { result
            ≡ slice_get (map (λ (x : Link). x.place)
            ((body_of plant.now me.0 self.now).links.linked slot.0 port)) index }
    {
        if self.link_count(plant, me, slot, port) <= index {
            return None;
        }
        Some(self.services.links.linked_place(slot, port, index))
    }

    /// What the import place of an imported slot holds, with its container's generation; none where its
    /// container doesn't live at this controller.
    #[tactic(auto, unfolding(crate::specs::Bodies::body_of))]
    pub fn place(&self, plant: &Plant, me: ControllerId, slot: SlotId) -> Option<PlaceState>
        ensures { result
            ≡ shown_place plant.now.wiring (body_of plant.now me.0 self.now).frame slot.0 }
    {
        let _me = me;
        self.services.frame.place(&plant.wiring, slot)
    }
}
