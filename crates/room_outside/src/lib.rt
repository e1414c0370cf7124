//! The outside of a run: named texts that it reads, streams that it writes, and a gate at which
//! its workers may be held.
//!
//! Each is a trait, so that what is proved of a run holds over files as over memory. A shelf and a
//! sink count their faults, and a call may answer a fault only where that count rose: no body can
//! make one up. All of it is this project's own.
#![tactic(auto)]

mod calls;
mod files;
mod gate;
pub mod line_text;
mod meet;
mod mem_shelf;
mod mem_sink;
mod read_before;
mod shelf;
mod sink;
mod sure;
mod system;

pub use files::TextFile;
pub use gate::{ControllerNo, Gate, OpenGate};
pub use line_text::{LineBuffer, Part, write_line, write_only_line};
pub use meet::MeetGate;
pub use mem_shelf::MemShelf;
pub use mem_sink::MemSink;
pub use read_before::{ReadBefore, read_file};
pub use shelf::{MAX_TEXT, ReadRefused, Shelf, read_limit, read_whole};
pub use sink::{Sink, WriteFault, write_whole};
pub use sure::{SureShelf, SureSink};
pub use system::{FileShelf, OutSink, Stream};

/// A read or a write failed.
#[derive(Clone, Copy, Debug, PartialEq, Eq)]
pub struct Failed;
