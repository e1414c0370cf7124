//! How many places each port of each slot has, and where they stand in the row of all places.

mod containers;
mod counts;
mod places;
mod served;
mod slot_counts;
mod spans;

pub use containers::container_stretches;
pub use places::all_places;
pub use served::{served_table, service_key};
pub use slot_counts::port_counts;
pub use spans::{first_ports, spans_of};
