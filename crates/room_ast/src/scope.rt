//! What actions, guards and triggers can name in a class.
ghost use Rattle.std.specs.Prelude.{◌+◌, ◌<◌, ◌^◌, length};

use crate::name::Name;
use room_kinds::{NumberType, PortKind, ReferenceKind, SharedSequence};

/// A class as its actions see it.
#[derive(Drop, Debug)]
pub struct Scope {
    /// The class's numbers in the order in which they lie: an attribute that is one number under
    /// its name, the numbers of a data class under dotted names.
    pub attributes: Vec<ScopeAttribute>,
    /// The ports in the order of their numbers, so that `frame` comes first.
    pub ports: Vec<ScopePort>,
    /// The references in the order of their numbers.
    pub references: Vec<ScopeReference>,
    ghost few_attributes: { length attributes.items < 2 ^ 32 },
    ghost few_ports: { length ports.items < 2 ^ 16 },
    ghost few_references: { length references.items < 2 ^ 16 },
}

/// A number of the class: `x` of an integer type, or `p.x` where `p` is of a data class.
#[derive(Drop, Debug)]
pub struct ScopeAttribute {
    pub path: Vec<Name>,
    pub kind: NumberType,
    /// The number with which it begins. It lies in the range of its type.
    pub initial: i64,
}

/// A port, service access point or service provision point.
#[derive(Drop, Debug)]
pub struct ScopePort {
    pub name: Name,
    pub kind: PortKind,
    /// Whether it sends the incoming messages of its protocol and receives the outgoing ones.
    pub conjugated: bool,
    /// The signals of its protocol, which all its ports share. They are numbered from 0, incoming ones
    /// first.
    pub incoming: SharedSequence<ScopeSignal>,
    pub outgoing: SharedSequence<ScopeSignal>,
    ghost few_signals: { length incoming + length outgoing < 2 ^ 16 },
}

/// A message of a protocol, with the types of its numbers.
#[derive(Drop, Debug)]
pub struct ScopeSignal {
    pub name: Name,
    pub numbers: Vec<NumberType>,
}

/// A reference to an actor class.
#[derive(Drop, Debug)]
pub struct ScopeReference {
    pub name: Name,
    pub kind: ReferenceKind,
}
