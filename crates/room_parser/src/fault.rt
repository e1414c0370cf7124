//! Why a text is no model.

/// Why a text is no model.
#[derive(Clone, Copy, PartialEq, Eq)]
pub enum ParseFault {
    /// No model has these tokens. The line, from 1, is that of the first token with which no model
    /// goes on, or of the end of the text.
    Syntax { line: u32 },
    /// Memory ran out.
    Memory,
}
