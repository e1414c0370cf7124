//! Tables of a model's classes, in which names are found without a search.

mod container;
mod names;
mod ports;
mod references;
mod tables;
mod types;

pub use container::Container;
pub use names::{actor_names, add_name, data_names, protocol_names, subsystem_names};
pub use ports::{external_names, interface_items, interface_name, push_if, structure_items};
pub use references::as_reference;
pub use tables::{ClassNames, Tables, tables_of};
pub use types::{as_field, carried_type, messages_of, type_entry};
