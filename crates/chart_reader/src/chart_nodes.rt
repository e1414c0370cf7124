//! The nodes that the transitions of a chart lead to, and whether they lead in a circle.
//!
//! A chain of ROOM's state machines (Selic, Gullekson and Ward 1994) goes on at choice points, entry
//! points, exit points and borders of composite states. It ends where they lead in no circle.

mod circles;
mod keys;
mod steps;

pub use circles::{has_circle, node_order, parts_of, target_index};
pub use keys::{graph_key, named_key, origin_key, plain_key, point_key, target_key};
pub use steps::{Step, steps_of};
