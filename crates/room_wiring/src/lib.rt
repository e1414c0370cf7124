//! The wiring of a model: its slots, controllers and classes by number, and who is joined to whom.
//!
//! A slot is a place in the tree of actor references where an actor may stand; a port has places,
//! and two end places that are joined exchange messages (ROOM: Selic, Gullekson and Ward 1994).
//! The numbering and the owners of slots are this project's own. All look-ups are accesses of
//! tables and take no memory.
#![tactic(auto)]

mod label;
mod names;
mod path;
mod paths;
mod single;
mod slot;
mod tables;
mod wiring;
pub mod wiring_names;

pub use label::Label;
pub use names::{AttrNames, ClassNames, PortNames, RefNames, SignalNames};
pub use path::Path;
pub use paths::{Paths, SharedPaths};
pub use room_kinds::{NumberType, PortKind, ReferenceKind as Kind};
pub use slot::{Partner, Slot};
pub use tables::{PlaceSpan, Tables};
pub use wiring::Wiring;
