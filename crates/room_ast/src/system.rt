//! The logical system, subsystem classes, threads and mappings.

use crate::actor::{ActorRef, Binding, LayerConnection};
use crate::name::Name;
use room_kinds::Sequence;

/// `LogicalSystem` name `{` references `}`
#[derive(Drop)]
pub struct System {
    pub name: Name,
    pub references: Sequence<SubsystemRef>,
}

/// `SubSystemRef` name `:` class
#[derive(Drop)]
pub struct SubsystemRef {
    pub name: Name,
    pub class: Name,
}

/// `SubSystemClass` name `{` items `}`
#[derive(Drop)]
pub struct Subsystem {
    pub name: Name,
    pub items: Sequence<SubsystemItem>,
}

#[derive(Drop)]
pub enum SubsystemItem {
    Reference(ActorRef),
    Binding(Binding),
    Layer(LayerConnection),
    Thread(LogicalThread),
    Mapping(Mapping),
}

/// `LogicalThread` name
#[derive(Drop)]
pub struct LogicalThread {
    pub name: Name,
}

/// `ActorInstanceMapping` path `->` thread, and nested mappings in braces, whose paths go on
/// from this one's.
#[derive(Drop)]
pub struct Mapping {
    pub path: MappingPath,
    pub thread: Name,
    pub nested: Option<Vec<Mapping>>,
}

/// Segments joined by slashes, with or without a slash at the front.
#[derive(Drop)]
pub struct MappingPath {
    pub has_slash: bool,
    pub first: Segment,
    pub others: Sequence<Segment>,
}

/// name, and `:` index
#[derive(Drop)]
pub struct Segment {
    pub name: Name,
    pub index: Option<u64>,
}
