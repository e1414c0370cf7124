//! What places the ports of the slots have, which of them are paired, and what is joined by that.
//!
//! Bindings and layer connections are ROOM's (Selic, Gullekson and Ward 1994); that a binding pairs the
//! first free places of its two sides, and takes new places at a port without a fixed number, is this
//! project's own. The definitions stand in `specs/`; this crate has the types that they speak of.

mod place;
mod stretch;

pub use place::{LayerJoin, Place, Role};
pub use stretch::{Stretch, Supply};
