//! The text of journals in form 2.
ghost use Rattle.std.specs.Prelude.{◌≡◌, ◌++◌, OnOk, IfErr};
ghost use Rattle.room_outside.specs.Written.{Appends, BreaksOffAfter};
ghost use Rattle.room_outside.specs.line_text.Output.{Puts, at_rest};
ghost use Rattle.journal.specs.Text.{journal_text, left_text, unposted_text, end_line};
ghost use Rattle.tied_journals.specs.Tied.{Tied};
ghost use Rattle.tied_journals.specs.Text.{tied_controller_text, tied_controllers_text, below_text, rest_text, tied_text_of};

use crate::fetches::write_tied_journal;
use journal::entries::{write_end, write_journal, write_left, write_title, write_unposted};
use journal::{Journal, Journals};
use room_outside::{Failed, LineBuffer, Part, Sink, WriteFault, write_line};
use room_wiring::Wiring;

/// Writes a controller's journal under its line.
#[tactic(auto, unfolding(crate::specs::Text::tied_controller_text))]
fn write_controller<K: Sink>(
    out: &mut LineBuffer,
    sink: &mut K,
    wiring: &Wiring,
    c: usize,
    journal: &Journal,
) -> Result<(), Failed>
    ensures { Puts result
        (at_rest (K.written sink.old) out.old) (at_rest (K.written sink.new) out.new)
        (tied_controller_text wiring.now c journal.now) }
{
    write_title(out, sink, wiring, c)?;
    write_tied_journal(out, sink, wiring, journal.as_slice())
}

fn write_controllers<K: Sink>(
    out: &mut LineBuffer,
    sink: &mut K,
    wiring: &Wiring,
    journals: &[Journal],
) -> Result<(), Failed>
    ensures { Puts result
        (at_rest (K.written sink.old) out.old) (at_rest (K.written sink.new) out.new)
        (tied_controllers_text wiring.now 0 journals.now) }
{
    for (c, journal) in journals.iter().enumerate() {
        write_controller(out, sink, wiring, c, journal)?;
    }
    Ok(())
}

/// Writes what was left, what was not posted, and the end.
#[tactic(auto, unfolding(crate::specs::Text::below_text))]
fn write_below<K: Sink>(
    out: &mut LineBuffer,
    sink: &mut K,
    wiring: &Wiring,
    journals: &Journals,
) -> Result<(), Failed>
    ensures { Puts result
        (at_rest (K.written sink.old) out.old) (at_rest (K.written sink.new) out.new)
        (below_text wiring.now journals.now) }
{
    write_left(out, sink, wiring, journals.left.as_slice())?;
    write_unposted(out, sink, journals.unposted.as_slice())?;
    write_end(out, sink, journals.done)
}

/// Writes what stands below the controllers' journals.
#[tactic(auto, unfolding(crate::specs::Text::rest_text))]
fn write_rest<K: Sink>(
    out: &mut LineBuffer,
    sink: &mut K,
    wiring: &Wiring,
    journals: &Journals,
) -> Result<(), Failed>
    ensures { Puts result
        (at_rest (K.written sink.old) out.old) (at_rest (K.written sink.new) out.new)
        (rest_text wiring.now journals.now) }
{
    write_line(out, sink, &[Part::Text(b"environment")])?;
    write_journal(out, sink, wiring, journals.environment.as_slice())?;
    write_below(out, sink, wiring, journals)
}

/// Writes the whole text through a buffer.
#[tactic(auto, unfolding(crate::specs::Text::tied_text_of))]
fn write_text<K: Sink>(
    out: &mut LineBuffer,
    sink: &mut K,
    wiring: &Wiring,
    journals: &Journals,
) -> Result<(), Failed>
    ensures { Puts result
        (at_rest (K.written sink.old) out.old) (at_rest (K.written sink.new) out.new)
        (tied_text_of wiring.now journals.now) }
{
    write_line(out, sink, &[Part::Text(b"room-journal 2")])?;
    write_controllers(out, sink, wiring, journals.controllers.as_slice())?;
    write_rest(out, sink, wiring, journals)
}

/// Appends the lines of form 2 of any journals. Of a fetch that is tied to no post they tell less
/// than there is, so only of tied journals are they the text; else as `text_to`.
pub fn lines_to<K: Sink>(
    journals: &Journals,
    wiring: &Wiring,
    sink: &mut K,
) -> Result<(), WriteFault>
    ensures ok { OnOk result (Appends (K.written sink.old) (K.written sink.new)
        (tied_text_of wiring.now journals.now)) }
    ensures fault { IfErr result (λ fault. BreaksOffAfter fault.taken
        (K.written sink.old) (K.written sink.new) (tied_text_of wiring.now journals.now)) }
{
    let mut out = LineBuffer::new();
    match write_text(&mut out, sink, wiring, journals) {
        Ok(()) => Ok(()),
        Err(Failed) => Err(out.fault()),
    }
}

/// Appends the text of tied journals in form 2: each line in one piece, and a line of more than
/// 4,096 bytes in pieces of 4,096 bytes and then its rest. It takes no memory.
///
/// At a fault a front of the text was appended, and the fault tells its length. A name that the
/// wiring doesn't have is written as nothing, and such a state as `-`; of journals that fit the
/// wiring (`Fits`) it has them all.
pub fn text_to<K: Sink>(
    journals: &Journals,
    wiring: &Wiring,
    sink: &mut K,
) -> Result<(), WriteFault>
    requires { Tied journals.now }
    ensures ok { OnOk result (Appends (K.written sink.old) (K.written sink.new)
        (tied_text_of wiring.now journals.now)) }
    ensures fault { IfErr result (λ fault. BreaksOffAfter fault.taken
        (K.written sink.old) (K.written sink.new) (tied_text_of wiring.now journals.now)) }
{
    lines_to(journals, wiring, sink)
}
