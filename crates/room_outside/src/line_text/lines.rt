//! Whole lines.
ghost use Rattle.room_outside.specs.Written.{Writes};
ghost use Rattle.room_outside.specs.line_text.Lines.{line};
ghost use Rattle.room_outside.specs.line_text.Parts.{part_texts};
ghost use Rattle.room_outside.specs.line_text.Output.{Puts, at_rest};

use crate::line_text::buffer::LineBuffer;
use crate::line_text::part::Part;
use crate::{Failed, Sink, WriteFault};

/// Writes a line of these parts, in one piece where a piece holds it. What the buffer held before
/// is lost.
pub fn write_line<K: Sink>(out: &mut LineBuffer, sink: &mut K, parts: &[Part]) -> Result<(), Failed>
    ensures { Puts result
        (at_rest (K.written sink.old) out.old) (at_rest (K.written sink.new) out.new)
        (line (part_texts parts.now)) }
{
    out.clear();
    out.put_all(sink, parts)?;
    out.end_line(sink)
}

/// Writes a text that is one line of these parts, in one piece where a piece holds it.
pub fn write_only_line<K: Sink>(sink: &mut K, parts: &[Part]) -> Result<(), WriteFault>
    ensures { Writes result (K.written sink.old) (K.written sink.new)
        (line (part_texts parts.now)) }
{
    let mut out = LineBuffer::new();
    match write_line(&mut out, sink, parts) {
        Ok(()) => Ok(()),
        Err(Failed) => Err(out.fault()),
    }
}
