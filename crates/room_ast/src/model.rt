//! A whole model, its imports and its classes.

use crate::actor::ActorClass;
use crate::name::Name;
use crate::protocol::{DataClass, ProtocolClass};
use crate::system::{Subsystem, System};
use crate::text::Text;
use room_kinds::Sequence;

/// `RoomModel` name `{` imports, classes `}`
#[derive(Drop)]
pub struct Model {
    pub name: Dotted,
    pub imports: Sequence<Import>,
    pub classes: Sequence<Class>,
}

/// Names joined by dots.
#[derive(Drop)]
pub struct Dotted {
    pub first: Name,
    pub others: Sequence<Name>,
}

/// `import` path, `.*` where all is imported, and where from
#[derive(Drop)]
pub struct Import {
    pub path: Dotted,
    pub all: bool,
    pub source: Option<ImportSource>,
}

/// `from`, which may be missing, and a STRING
#[derive(Drop)]
pub struct ImportSource {
    pub has_word: bool,
    pub text: Text,
}

/// What a model declares.
#[derive(Drop)]
pub enum Class {
    System(System),
    Subsystem(Subsystem),
    Actor(ActorClass),
    Protocol(ProtocolClass),
    Data(DataClass),
}
