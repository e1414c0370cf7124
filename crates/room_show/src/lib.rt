//! The system at a moment of a run (`Snapshot`), and its text (`show_text`).
#![tactic(auto)]

mod lines;
mod snapshot;
mod text;

pub use snapshot::{ActorView, ControllerView, NO_STATE, PeerView, PlaceView, Snapshot};
pub use text::show_text;
