//! What a controller keeps of its service points: how far each is registered under a name, and the
//! endpoints that its places are linked to (ROOM has layer connections; meeting by name at run time
//! is this project's own).

mod link;
mod links;
mod point;
mod points;
mod sent;

pub use links::Links;
