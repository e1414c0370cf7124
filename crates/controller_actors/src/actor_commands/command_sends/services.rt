//! What the services of a controller tell its actors, and do for them.
ghost use Rattle.std.specs.Prelude.{◌≡◌, ◌<◌, ◌^◌, ◌++◌, ℕ, IfSome, OnOk, length, map, slice_index};
ghost use Rattle.room_wiring.specs.declared.tables.Tables.{Tables};
ghost use Rattle.actor_duties.specs.Words.{endpoint};
ghost use Rattle.actor_duties.specs.State.{Frame, Links, Link};
ghost use Rattle.actor_duties.specs.Peers.{peer};
ghost use Rattle.controller_actors.specs.actor_commands.command_sends.Asking.{FrameAsked, NameAsked};

use room_kinds::{ControllerId, Endpoint, FrameCommand, Incarnation, NameCommand, Outbox, SlotId};
use room_wiring::Wiring;
use std::alloc::AllocError;

/// The services of a controller: to whom the places of its actors lead, and what its actors ask of
/// the frame service and of the layer service.
pub trait Services {
    /// The frame service's state: who lives where, directories, imports and plugs.
    ghost frame_of: { Self → Frame };

    /// The links by name, of each port in order of place.
    ghost links_of: { Self → Links };

    /// These are the services of a controller of this wiring.
    ghost serves: { Tables → ℕ → Self → Type 0 };

    /// The peer of a place of a port of a live actor of controller `me`; none where the place is out of
    /// range.
    fn peer(
        &self,
        wiring: &Wiring,
        me: ControllerId,
        who: Incarnation,
        port: u16,
        place: u64,
    ) -> Option<Endpoint>
        requires serves { serves wiring.now me.0 self.now }
        ensures peer { result ≡ peer wiring.now me.0 (frame_of self.now) (links_of self.now)
            (endpoint who.slot.0 who.generation.0 port place) }
        ensures near { IfSome result (λ e. place < 2 ^ 32) };

    /// How many places of a port are linked by name.
    fn link_count(&self, slot: SlotId, port: u16) -> usize
        ensures { result ≡ length ((links_of self.now).linked slot.0 port) };

    /// The place of one of the links of a port. Nothing is said of an index behind the last link.
    fn linked_place(&self, slot: SlotId, port: u16, index: usize) -> u32
        ensures { index < length ((links_of self.now).linked slot.0 port)
            → result ≡ slice_index
            (map (λ (x : Link). x.place) ((links_of self.now).linked slot.0 port)) index };

    /// A command of an actor of controller `me` on the life or the import of actors.
    fn ask_frame(
        &mut self,
        wiring: &Wiring,
        me: ControllerId,
        who: Incarnation,
        command: &FrameCommand,
        out: &mut Outbox,
    ) -> Result<(), AllocError>
        requires serves { serves wiring.now me.0 self.old }
        requires there { who.slot.0 < length wiring.now.slots }
        ensures serves { OnOk result (serves wiring.now me.0 self.new) }
        ensures asked { OnOk result (FrameAsked wiring.now me.0 who command.now (frame_of self.old)
            (links_of self.old) (frame_of self.new) (links_of self.new) out.old out.new) };

    /// A command of an actor of controller `me` on the names of its service points.
    fn ask_name(
        &mut self,
        wiring: &Wiring,
        me: ControllerId,
        who: Incarnation,
        command: &NameCommand,
        out: &mut Outbox,
    ) -> Result<(), AllocError>
        requires serves { serves wiring.now me.0 self.old }
        ensures serves { OnOk result (serves wiring.now me.0 self.new) }
        ensures asked { OnOk result (NameAsked wiring.now me.0 who command.now (frame_of self.old)
            (links_of self.old) (frame_of self.new) (links_of self.new) out.old out.new) };
}
