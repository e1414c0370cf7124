//! The turns of a run, done again by the charts of its actors (`replays_of`): what the journals don't tell, as the values
//! of guards and attributes and what is said to nobody, and where the journals first tell something else.

mod hearing;
mod machine;
mod replay;
mod sound;
mod trace;

pub use replay::{Replays, replays_of};
pub use trace::Passed;
