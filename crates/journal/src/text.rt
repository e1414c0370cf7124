//! The text of the journals of a run.
ghost use Rattle.std.specs.Prelude.{OnOk, IfErr};
ghost use Rattle.room_outside.specs.Written.{Appends, BreaksOffAfter};
ghost use Rattle.journal.specs.Text.{text_of};

use crate::entries::write_text;
use crate::entry::Journals;
use room_outside::{Failed, LineBuffer, Sink, WriteFault};
use room_wiring::Wiring;

/// Appends the text of the journals: each line in one piece, and a line of more than 4,096 bytes in
/// pieces of 4,096 bytes and then its rest. It takes no memory.
///
/// At a fault a front of the text was appended, and the fault tells its length. A name that the
/// wiring doesn't have is written as nothing, and such a state as `-`; of journals that fit the
/// wiring (`Fits`) it has them all.
pub fn text_to<K: Sink>(
    journals: &Journals,
    wiring: &Wiring,
    sink: &mut K,
) -> Result<(), WriteFault>
    ensures ok { OnOk result (Appends (K.written sink.old) (K.written sink.new)
        (text_of wiring.now journals.now)) }
    ensures fault { IfErr result (λ fault. BreaksOffAfter fault.taken
        (K.written sink.old) (K.written sink.new) (text_of wiring.now journals.now)) }
{
    let mut out = LineBuffer::new();
    match write_text(&mut out, sink, wiring, journals) {
        Ok(()) => Ok(()),
        Err(Failed) => Err(out.fault()),
    }
}
