//! The services that a controller's actors call.
ghost use Rattle.frame_service.specs.State.{frame_in};
ghost use Rattle.controller_actors.specs.Served.{Serves, links_in};

use crate::actor_commands::Services;
use frame_service::FrameState;
use layer_service::Links;
use room_kinds::{ControllerId, Endpoint, FrameCommand, Incarnation, NameCommand, Outbox, SlotId};
use room_wiring::Wiring;
use std::alloc::AllocError;

/// The services of a controller: the frame service, and the registrations and links of its service points.
/// No look-up takes memory.
#[derive(Drop)]
pub struct ActorServices {
    pub frame: FrameState,
    pub links: Links,
}

impl Services for ActorServices {
    ghost frame_of = { λ s. frame_in s.frame };

    ghost links_of = { λ s. links_in s };

    ghost serves = { λ t me s. Serves t me s };

    /// An endpoint that the place is linked to by name goes before what the frame service says.
    #[tactic(auto, unfolding(actor_duties::specs::Peers::peer))]
    fn peer(
        &self,
        wiring: &Wiring,
        me: ControllerId,
        who: Incarnation,
        port: u16,
        place: u64,
    ) -> Option<Endpoint> {
        let _me = me;
        match self.links.peer_at(who.slot, port, place) {
            Some(linked) => Some(linked),
            None => self.frame.peer(wiring, who, port, place),
        }
    }

    fn link_count(&self, slot: SlotId, port: u16) -> usize {
        self.links.link_count(slot, port)
    }

    fn linked_place(&self, slot: SlotId, port: u16, index: usize) -> u32 {
        self.links.linked_place(slot, port, index)
    }

    fn ask_frame(
        &mut self,
        wiring: &Wiring,
        me: ControllerId,
        who: Incarnation,
        command: &FrameCommand,
        out: &mut Outbox,
    ) -> Result<(), AllocError> {
        let _me = me;
        self.frame.request(wiring, who, command, out)
    }

    fn ask_name(
        &mut self,
        wiring: &Wiring,
        me: ControllerId,
        who: Incarnation,
        command: &NameCommand,
        out: &mut Outbox,
    ) -> Result<(), AllocError> {
        self.links.request(wiring, me, who, command, out)
    }
}
