//! Actor classes, and what their interface and structure hold.

use crate::chart::StateMachine;
use crate::name::Name;
use crate::protocol::{Attribute, Usercode};
use room_kinds::{ReferenceKind, Sequence};

/// `eventdriven`, which may be missing, `ActorClass` name, `extends` base, which may be missing, and
/// `{` interface, structure, behavior `}`
#[derive(Drop)]
pub struct ActorClass {
    pub event_driven: bool,
    pub name: Name,
    /// The class that this one extends.
    pub base: Option<Name>,
    pub interface: Option<Sequence<InterfaceItem>>,
    pub structure: Option<Sequence<StructureItem>>,
    pub behavior: Option<Behavior>,
}

#[derive(Drop)]
pub enum InterfaceItem {
    Port(Port),
    Service(ServiceProvision),
}

#[derive(Drop)]
pub enum StructureItem {
    Usercode(Usercode),
    External(ExternalPort),
    Port(Port),
    Access(ServiceAccess),
    Implementation(ServiceImplementation),
    Attribute(Attribute),
    Reference(ActorRef),
    Binding(Binding),
    Layer(LayerConnection),
}

/// `Behavior` `{` and `StateMachine` `{` graph `}` `}`
#[derive(Drop)]
pub struct Behavior {
    pub machine: Option<StateMachine>,
}

/// `conjugated`, which may be missing, `Port` name, `[` places `]`, `:` protocol
#[derive(Drop)]
pub struct Port {
    pub conjugated: bool,
    pub name: Name,
    pub places: Option<Places>,
    pub protocol: Name,
}

/// How many places a port has.
#[derive(Clone, Copy, Debug, PartialEq, Eq)]
pub enum Places {
    Number(u64),
    /// `*`: as many as its bindings give it.
    Any,
}

/// `external` `Port` name: an interface port that the class's own behavior has.
#[derive(Drop)]
pub struct ExternalPort {
    pub name: Name,
}

/// `SPP` name `:` protocol
#[derive(Drop)]
pub struct ServiceProvision {
    pub name: Name,
    pub protocol: Name,
}

/// `SAP` name `:` protocol
#[derive(Drop)]
pub struct ServiceAccess {
    pub name: Name,
    pub protocol: Name,
}

/// `ServiceImplementation` `of` name
#[derive(Drop)]
pub struct ServiceImplementation {
    pub name: Name,
}

/// A word for its kind, which may be missing, `ActorRef` name, `[` count `]`, `:` class.
/// A reference without a word is fixed, and one without a count stands for one actor.
#[derive(Drop)]
pub struct ActorRef {
    pub kind: Option<ReferenceKind>,
    pub name: Name,
    pub count: Option<u64>,
    pub class: Name,
}

/// `Binding` side `and` side
#[derive(Drop)]
pub struct Binding {
    pub left: Side,
    pub right: Side,
}

/// A port of the class itself, or a port of one of its references.
#[derive(Drop)]
pub enum Side {
    Own(Name),
    Inner { reference: Name, port: Name },
}

/// `LayerConnection` `ref` reference `satisfied_by` provider `.` service
#[derive(Drop)]
pub struct LayerConnection {
    pub reference: Name,
    pub provider: Name,
    pub service: Name,
}
