//! What a class knows of its ports, references and types, by number.

use crate::Places;
use room_kinds::{NumberType, PortKind, ReferenceKind};

/// A port, service access point or service provision point of an actor class.
#[derive(Clone, Copy, Drop, Debug, PartialEq, Eq)]
pub struct PortEntry {
    pub kind: PortKind,
    /// Whether it sends the incoming messages of its protocol and receives the outgoing ones. True
    /// at a SAP, false at a SPP and at `frame`.
    pub conjugated: bool,
    /// As the port is declared; none where it has no brackets, and at SAPs, SPPs and `frame`.
    pub places: Option<Places>,
    /// The number of its protocol class; none at `frame`, and where no protocol class has the name.
    pub protocol: Option<usize>,
}

/// A reference to an actor class.
#[derive(Clone, Copy, Drop, Debug, PartialEq, Eq)]
pub struct ReferenceEntry {
    pub kind: ReferenceKind,
    /// The number in brackets. A reference that has one is replicated, also where it is 1.
    pub count: Option<u64>,
    /// The number of its actor class; none where no actor class has the name.
    pub class: Option<usize>,
}

/// A type.
#[derive(Clone, Copy, Drop, Debug, PartialEq, Eq)]
pub enum TypeEntry {
    /// An integer type or `boolean`.
    Number(NumberType),
    /// The data class of this number.
    Class(usize),
    /// No type has the name.
    Unknown,
}
