//! A stream of bytes that can only grow.
ghost use Rattle.std.specs.Prelude.{◌≡◌, ◌<◌, ◌≤◌, [], length, take, Ok, IfOk, OnOk, OnErr, IfErr};
ghost use Rattle.room_outside.specs.Faults.{Rose, last_count};
ghost use Rattle.room_outside.specs.Written.{Written, Appends, BreaksOffAfter};

use crate::Failed;

/// What is written to.
///
/// A contract sees the bytes that were written, where the sink tells them, and a count of write
/// faults, which never falls. A call's count rose where it is greater at the end of the call than
/// at its beginning, or stands at the last value of a `u64`.
pub trait Sink {
    // What was written so far.
    ghost written: { Self → Written };

    /// Takes bytes from the front of `piece` and says how many. A failed write takes none. Of a
    /// piece that isn't empty it takes none only where the count of faults rose.
    fn write(&mut self, piece: &[u8]) -> Result<usize, Failed>
        ensures within { IfOk result (λ n. n ≤ length piece.now) }
        ensures taken { IfOk result (λ n. Appends (written self.old) (written self.new) (take n piece.now)) }
        ensures failed { OnErr result (Appends (written self.old) (written self.new) []) }
        ensures fault { OnErr result (Rose (written self.old).faults (written self.new).faults) }
        ensures none { result ≡ Ok 0 → 0 < length piece.now → Rose (written self.old).faults (written self.new).faults };
}

/// A write failed, after a front of the bytes was taken.
#[derive(Clone, Copy, Debug, PartialEq, Eq)]
pub struct WriteFault {
    /// How many bytes were taken. It stands still at the last value of its type.
    pub taken: usize,
}

impl WriteFault {
    pub(crate) fn after(taken: usize) -> WriteFault
        ensures taken { result.taken ≡ taken }
        ensures range { result.taken ≤ last_count }
    {
        WriteFault { taken }
    }
}

/// Writes a whole piece, in as many writes as it needs. It takes no memory.
///
/// At a fault a front of the piece was appended, shorter than the piece, and the fault tells how
/// many bytes that is. It comes only where the sink's count of faults rose in this call.
#[inline(always)]
pub fn write_whole<K: Sink>(sink: &mut K, piece: &[u8]) -> Result<(), WriteFault>
    ensures ok { OnOk result (Appends (K.written sink.old) (K.written sink.new) piece.now) }
    ensures fault { IfErr result (λ fault. BreaksOffAfter fault.taken
        (K.written sink.old) (K.written sink.new) piece.now) }
{
    let mut rest = piece;
    while !rest.is_empty() {
        match sink.write(rest) {
            Ok(0) | Err(Failed) => {
                let taken = piece.len() - rest.len();
                return Err(WriteFault { taken });
            }
            Ok(n) => rest = rest.split_at(n).1,
        }
    }
    Ok(())
}
