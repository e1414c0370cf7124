//! What each place is joined to, by the far ends of the chains of paired faces.

mod across;
mod faults;
mod partners;

pub use across::across_faces;
pub use faults::{has_socket_away, has_socket_pair};
pub use partners::partners_of;
