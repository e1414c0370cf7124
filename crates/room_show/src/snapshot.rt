//! What is seen of a system at a moment of a run.
use room_kinds::{Endpoint, Incarnation, Msg, PlaceState, Sequence, SlotId, Stamp};

/// The number of the state of an actor whose class has no chart.
pub const NO_STATE: u16 = 65_535;

/// A system at a moment of a run: its controllers in order of number, after all that happened up to a stamp.
#[derive(Drop)]
pub struct Snapshot {
    pub at: u64,
    pub controllers: Sequence<ControllerView>,
}

/// A controller: its clock, how many turns it took, the actors that live there and the import places of its live
/// containers, both in order of their slots.
#[derive(Drop)]
pub struct ControllerView {
    pub clock: Stamp,
    pub turns: u64,
    pub actors: Sequence<ActorView>,
    pub places: Sequence<PlaceView>,
}

/// A live actor: the number of its state, the numbers of its attributes in order of declaration, the messages that
/// it keeps for later, oldest first, and its peers in order of port and place. An actor whose class has no chart
/// has the state 65,535 and no attributes.
#[derive(Drop)]
pub struct ActorView {
    pub who: Incarnation,
    pub state: u16,
    pub attributes: Sequence<i64>,
    pub deferred: Sequence<Msg>,
    pub peers: Sequence<PeerView>,
}

/// A place of a port of an actor, and the endpoint to which it leads.
#[derive(Clone, Copy, PartialEq, Eq)]
pub struct PeerView {
    pub port: u16,
    pub place: u32,
    pub peer: Endpoint,
}

/// An imported slot, and what its place holds.
#[derive(Clone, Copy, Drop, PartialEq, Eq)]
pub struct PlaceView {
    pub slot: SlotId,
    pub state: PlaceState,
}
