//! The names of a wiring, each found by a table: the paths of its slots by their hashes, and per
//! class the names of the ports with their signals and the labels of the states.

mod class_names;
mod named;
mod names;
mod path_index;
mod slot_classes;

pub use names::Names;
