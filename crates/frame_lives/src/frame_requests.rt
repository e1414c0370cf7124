//! The requests of actors for the life of others, and what comes of them: the commands `incarnate` and
//! `destroy`, which go to the owner of the slot, and the answers, of which the container is told.

mod answers;
mod requests;

pub use answers::{create_done, create_refused, destroy_done};
pub use requests::{destroy, incarnate};
