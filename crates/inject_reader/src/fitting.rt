//! Lines that fit.
//!
//! No code: the law.
ghost use Rattle.inject_reader.specs.Fitting.{ReadLinesFit};

/// The lines that an injection text is read as name what the wiring has: the end ports and internal
/// end ports that a text can name have end places.
pub fn read_lines_fit()
    ensures { ReadLinesFit }
{}
