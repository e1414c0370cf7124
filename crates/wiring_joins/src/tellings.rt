//! Which controllers the owner of each slot tells of the actors that come and go there.

mod marks;
mod told;

pub use told::told_controllers;
