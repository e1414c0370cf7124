//! Lines of text on their way to a sink: the parts of which a line is written, and the buffer
//! through which it goes. Nothing here takes memory.

mod buffer;
mod laying;
mod lines;
mod part;
mod short_numbers;

pub use buffer::LineBuffer;
pub use lines::{write_line, write_only_line};
pub use part::Part;
