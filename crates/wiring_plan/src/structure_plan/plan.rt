//! A model's structure by number.

use room_kinds::{PortKind, ReferenceKind, Sequence};

/// A port that a side of a binding names.
#[derive(Clone, Copy, Drop, PartialEq, Eq)]
pub enum SidePlan {
    /// A port of the class that has the binding.
    Own { port: u16 },
    /// A port of the class of one of its references.
    Inner { reference: u16, port: u16 },
}

/// A binding of a class.
#[derive(Clone, Copy, Drop, PartialEq, Eq)]
pub struct BindingPlan {
    pub left: SidePlan,
    pub right: SidePlan,
}

/// A layer connection of a class: the service access points below `reference` get the service
/// `service`, a port of the class of the reference `provider`.
#[derive(Clone, Copy, Drop, PartialEq, Eq)]
pub struct LayerPlan {
    pub reference: u16,
    pub provider: u16,
    pub service: u16,
}

/// How many places a port has at the beginning.
#[derive(Clone, Copy, Drop, PartialEq, Eq)]
pub enum PlacesPlan {
    One,
    Number(u32),
    /// None at the beginning; its bindings give it places.
    Any,
}

/// A port, service access point or service provision point.
#[derive(Clone, Copy, Drop, PartialEq, Eq)]
pub struct PortPlan {
    pub kind: PortKind,
    pub places: PlacesPlan,
    /// The number of its protocol class; none at `frame`.
    pub protocol: Option<u16>,
}

/// A reference to an actor class.
#[derive(Clone, Copy, Drop, PartialEq, Eq)]
pub struct ReferencePlan {
    pub class: u16,
    pub kind: ReferenceKind,
    /// How many slots it stands for; 1 where it has no number.
    pub count: u32,
}

/// A class that has references. Ports and references stand in order of their numbers, `frame` first;
/// bindings and layer connections in order of declaration.
#[derive(Drop)]
pub struct ClassPlan {
    pub ports: Sequence<PortPlan>,
    pub references: Sequence<ReferencePlan>,
    pub bindings: Sequence<BindingPlan>,
    pub layers: Sequence<LayerPlan>,
}

/// The structure of a model: its actor classes by number, and the subsystem class that is wired, which
/// has no ports.
#[derive(Drop)]
pub struct StructurePlan {
    pub classes: Sequence<ClassPlan>,
    pub subsystem: ClassPlan,
}
