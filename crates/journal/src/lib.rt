//! The journals of a run, and their text (`text_to`). The lines are written by calls of their own
//! (`entries`, `naming`), so that another form of the text can share them.
#![tactic(auto)]

pub mod entries;
mod entry;
mod lines;
pub mod naming;
mod same;
mod speaker;
mod text;

pub use entry::{Did, Entry, Journal, Journals, Left};
pub use same::same_notes;
pub use speaker::speaker_after;
pub use text::text_to;
