//! Journals read from their text.
#![tactic(auto)]

mod fault;
mod fill;
mod full_sink;
pub mod journal_fits;
pub mod journal_lines;
pub mod journal_texts;
mod ranges;
mod reader;

pub use fault::ReadFaultOf;
pub use journal_texts::{forms_differ, reads_back, texts_differ, tied_texts_differ};
pub use ranges::look_through;
pub use reader::read_journals;
