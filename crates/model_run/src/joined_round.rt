//! A round of a run: the workers of all controllers, one after another or each on a thread of its own, and the
//! joined step on the calling thread, in which all mail is fetched and each controller takes a turn.

mod at_once;
mod halves;
mod joined;
mod round;
mod seat;
mod seats;
mod workers;

pub use round::{round_at_once, round_in_order};
