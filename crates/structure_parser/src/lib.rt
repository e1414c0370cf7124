//! Readers of the structure of a model: names, imports, values, protocol and data classes, ports, references, bindings,
//! layers, threads, mappings, the logical system and subsystem classes.
//!
//! Each production of the grammar is a function that reads exactly its tokens; `room_parser` puts them together.
#![tactic(auto)]

mod mapping;
mod named;
mod ports;
mod reference;
mod subsystems;
mod systems;
pub mod value_parser;

pub use ports::{access, external_port, implementation, port, provision};
pub use reference::{actor_ref, binding, layer};
pub use subsystems::subsystem;
pub use systems::system;
pub use value_parser::{ImportPart, attribute, data_class, dotted, protocol_class, usercode};
