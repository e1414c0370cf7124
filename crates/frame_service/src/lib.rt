//! The frame service of a controller: which actors live in its slots, what its directory tells of other
//! slots, and what is lent to whom; with the duties of the kinds 0 to 11, 17 and 18, and the commands of
//! actors on the life and the import of actors (ROOM: Selic, Gullekson and Ward 1994; the service as messages
//! between controllers is this project's own).
#![tactic(auto)]

mod answers;
mod duties;
mod forms;
mod frame_endings;
pub mod frame_imports;
mod frame_start;
mod imports;
mod lives;
mod requests;
mod service;
mod state;

pub use state::FrameState;
