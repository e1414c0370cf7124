//! Numbers with names of their own.

/// The number of a slot, from 0, depth first.
#[derive(Clone, Copy, Debug, PartialEq, Eq, PartialOrd, Ord)]
pub struct SlotId(pub u16);

/// The number of a controller, from 0 in order of declaration. The environment has the number
/// after the last controller's.
#[derive(Clone, Copy, Debug, PartialEq, Eq, PartialOrd, Ord)]
pub struct ControllerId(pub u8);

/// How often an actor was created in its slot; 0 for none yet. In the target of a message 0 means
/// whoever stands there.
#[derive(Clone, Copy, Debug, PartialEq, Eq, PartialOrd, Ord)]
pub struct Generation(pub u32);

/// A time of a logical clock (Lamport 1978).
#[derive(Clone, Copy, Debug, PartialEq, Eq, PartialOrd, Ord)]
pub struct Stamp(pub u64);

/// 0 system, 1 panic, 2 high, 3 general, 4 low, 5 background. Lower numbers go first.
#[derive(Clone, Copy, Debug, PartialEq, Eq, PartialOrd, Ord)]
pub struct Priority(pub u8);

/// An actor that stands, or stood, in a slot.
#[derive(Clone, Copy, Debug, PartialEq, Eq)]
pub struct Incarnation {
    pub slot: SlotId,
    pub generation: Generation,
}

/// A place of a port of an incarnation. Ports are numbered from 0, which is `frame`; places from 0.
#[derive(Clone, Copy, Debug, PartialEq, Eq)]
pub struct Endpoint {
    pub slot: SlotId,
    pub generation: Generation,
    pub port: u16,
    pub place: u32,
}
