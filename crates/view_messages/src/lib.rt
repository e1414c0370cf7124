//! What became of one message of a run: where it was posted, fetched and treated, which transition took it or which
//! would have, and what was sent by that (`tell_message`).
//!
//! The journals say what happened; the tree of the model says which transitions were tried, in the order in which
//! charts are tried (docs/CHARTS.md). The values of guards and of attributes are those of the actors' charts, which do
//! the run again (`replays_of`); they also tell what nobody hears, and where the journals are those of another model.
#![tactic(auto)]

mod chain;
pub mod chart_replays;
mod dated;
mod explain;
mod injected;
mod posted;
mod replayed;
mod takers;
mod transitions;
mod tried;

pub use explain::{Explained, tell_message};
pub use replayed::Replayed;
