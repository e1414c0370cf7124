//! The parts of a model's text, one inside the other (`Item`, `parts_of`), and the charts of actor classes as the text has
//! them: each state, transition and code at its place (`Chart`, `Code`), those of the bases of a class first, what the
//! codes do (`Deeds`), and the ways that lead through a chart (`Ways`).
//!
//! All calls are safe and end; that they find what they should is shown by cases.
#![tactic(auto)]

mod by_port;
mod chart;
mod classes;
mod code;
mod deeds;
mod ends;
mod items;
mod keys;
mod source;
mod ways;

pub use by_port::ByPort;
pub use chart::{Chart, Part, State, event_in};
pub use classes::ClassItems;
pub use code::Code;
pub use deeds::{Deeds, Index, Send, Sent, sent_in};
pub use ends::{Ends, ends_of, is_word};
pub use items::{Item, head_of, is_mark, parts_of, tokens_of};
pub use keys::{joined, named};
pub use source::Source;
pub use ways::Ways;
