//! The names of a class and of what belongs to it.
use crate::label::Label;
use room_kinds::{NumberType, PortKind, ReferenceKind as Kind, Sequence, SharedSequence};

/// A signal, with a type for each number of its messages.
#[derive(Drop, Debug)]
pub struct SignalNames {
    pub name: Label,
    pub numbers: Sequence<NumberType>,
}

/// A port, a service access point or a service provision point. Its signals are those of its
/// protocol, which all its ports share, numbered from 0, incoming ones first; a conjugated port sends the incoming ones and
/// receives the outgoing ones. `conjugated` is true at a service access point, and false at a
/// service provision point and at `frame`.
#[derive(Drop, Debug)]
pub struct PortNames {
    pub name: Label,
    pub kind: PortKind,
    pub conjugated: bool,
    /// The number of the protocol class; none at `frame`.
    pub protocol: Option<u16>,
    /// The name of the protocol class; none at `frame`.
    pub protocol_name: Option<Label>,
    pub incoming: SharedSequence<SignalNames>,
    pub outgoing: SharedSequence<SignalNames>,
}

/// A reference to an actor class. One without a number has the count 1.
#[derive(Drop, Debug)]
pub struct RefNames {
    pub name: Label,
    pub kind: Kind,
    pub class: u16,
    pub count: u32,
}

/// An attribute, with how many numbers it stands for.
#[derive(Drop, Debug)]
pub struct AttrNames {
    pub name: Label,
    pub numbers: u32,
}

/// The names of an actor class. The port of number n stands at place n of `ports`, so that `frame`
/// comes first; references, states and attributes stand in order of declaration. The label of a
/// state joins the names from the top graph down to it by `.`.
#[derive(Drop, Debug)]
pub struct ClassNames {
    pub name: Label,
    pub ports: Sequence<PortNames>,
    pub references: Sequence<RefNames>,
    pub states: Sequence<Label>,
    pub attributes: Sequence<AttrNames>,
}
