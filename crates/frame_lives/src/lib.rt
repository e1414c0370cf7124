//! What a controller knows of the actors in slots: the last generation of each of its own slots and
//! whether it lives, and the directory, in which it keeps what the owners of other slots tell. Actors
//! are made and ended here (ROOM: Selic, Gullekson and Ward 1994; generations and directories are this
//! project's own). `Pages` are tables by slot number that take memory where something was written.
#![tactic(auto)]

mod blank;
mod creation;
mod done;
mod ending;
pub mod frame_requests;
mod page;
mod pages;
mod row;
mod slot_lives;

pub use blank::Blank;
pub use done::DutyDone;
pub use frame_requests::{create_done, create_refused, destroy, destroy_done, incarnate};
pub use pages::Pages;
pub use row::Row;
pub use slot_lives::SlotLives;
