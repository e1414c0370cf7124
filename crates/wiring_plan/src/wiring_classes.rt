//! The names of actor classes and of what belongs to them, by number, as texts name them.

mod attributes;
mod classes;
mod labels;
mod ports;
mod signals;
mod states;

pub use classes::classes_of;
pub use labels::label_of;
