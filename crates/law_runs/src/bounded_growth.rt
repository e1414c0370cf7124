//! How fast the numbers of a controller's services rise: by at most one at a message. So the number of
//! messages that a controller has treated says whether it may treat one more.
//!
//! No code: laws of the definitions.

mod generations;
mod places;

pub use generations::{duties_raise_by_one, starts_are_low};
pub use places::{duties_grow_by_one, registrations_grow_by_one};
