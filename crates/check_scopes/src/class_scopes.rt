//! What the actions of actor classes can name: the numbers of their attributes, their ports with the
//! messages that pass there, and their references.

mod fields;
mod numbers;
mod ports;
mod protocols;
mod references;
mod scopes;
mod signals;
mod tables;

pub use protocols::signal_table;
pub use scopes::{actor_classes, scopes_of};
pub use signals::{SignalTable, Signals};
