//! The states of a chart in the order of their numbers, and its transitions by where they begin.

mod groups;
mod keys;
mod places;

pub use groups::group_by;
pub use keys::{find_graph, graph_keys, index_of};
pub use places::{Place, places_of};
