//! Named texts that can only be read.
ghost use Rattle.std.specs.Prelude.{◌≡◌, ◌<◌, ◌≤◌, length, vec_len, IfOk, IfSome, OnErr, IsErrOf};
ghost use Rattle.room_outside.specs.Faults.{Rose};
ghost use Rattle.room_outside.specs.Shown.{Shown, Keeps, IsReadAt};

use crate::Failed;
use std::alloc::{AllocError, Global};

/// What is read from.
///
/// A contract sees the text under a name, where the shelf tells it, and for each name a count of
/// read faults, which never falls. A call's count rose where it is greater at the end of the call
/// than at its beginning, or stands at the last value of a `u64`.
pub trait Shelf {
    // The texts and the counts of faults.
    ghost shown: { Self → Shown };

    /// Puts bytes of the text, from the offset `from` on, at the front of `buf` and says how many.
    /// Where `buf` has room, it puts none only at the end of the text or past it. A read of a name
    /// that has no text fails, and raises the count of that name.
    fn read_at(&mut self, name: &str, from: u64, buf: &mut [u8]) -> Result<usize, Failed>
        ensures within { IfOk result (λ n. n ≤ length buf.new) }
        ensures read { IfOk result (λ n. IfSome ((shown self.old).text name.now) (λ text. IsReadAt text from n buf.new)) }
        ensures fault { OnErr result (Rose ((shown self.old).faults name.now) ((shown self.new).faults name.now)) }
        ensures keeps { Keeps (shown self.old) (shown self.new) };
}

/// Why a text was not read.
#[derive(Clone, Copy, Debug, PartialEq, Eq)]
pub enum ReadRefused {
    /// A read failed.
    ReadFault,
    /// The text has more bytes than are allowed.
    TooLong,
    /// Memory ran out.
    Memory,
}

/// How many bytes a read asks for. A shelf of files keeps the file open from one to the next.
const PIECE: usize = 4_096;

/// The most bytes of a text that `read_whole` reads.
pub const MAX_TEXT: u64 = 1_048_576;

/// Reads a whole text of at most 1,048,576 bytes, in pieces of 4,096 bytes.
///
/// Each read but the last takes at least one byte. `ReadFault` comes only where the count of
/// faults of this name rose in this call, `TooLong` only above the limit and after more bytes than
/// that were read. The texts stay as they are.
pub fn read_whole<S: Shelf>(
    alloc: Global,
    shelf: &mut S,
    name: &str,
) -> Result<Vec<u8>, ReadRefused>
    ensures whole { IfOk result (λ v. IfSome ((S.shown shelf.old).text name.now) (λ text. v.items ≡ text)) }
    ensures short { IfOk result (λ v. vec_len v ≤ 1048576) }
    ensures too_long { IsErrOf result ReadRefused.TooLong → IfSome ((S.shown shelf.old).text name.now) (λ text. 1048576 < length text) }
    ensures fault { IsErrOf result ReadRefused.ReadFault → Rose ((S.shown shelf.old).faults name.now) ((S.shown shelf.new).faults name.now) }
    ensures keeps { Keeps (S.shown shelf.old) (S.shown shelf.new) }
{
    read_limit(alloc, shelf, name, MAX_TEXT)
}

/// `read_whole` with another limit, of at most 268,435,456 bytes.
pub fn read_limit<S: Shelf>(
    alloc: Global,
    shelf: &mut S,
    name: &str,
    limit: u64,
) -> Result<Vec<u8>, ReadRefused>
    requires { limit ≤ 268435456 }
    ensures whole { IfOk result (λ v. IfSome ((S.shown shelf.old).text name.now) (λ text. v.items ≡ text)) }
    ensures short { IfOk result (λ v. vec_len v ≤ limit) }
    ensures too_long { IsErrOf result ReadRefused.TooLong → IfSome ((S.shown shelf.old).text name.now) (λ text. limit < length text) }
    ensures fault { IsErrOf result ReadRefused.ReadFault → Rose ((S.shown shelf.old).faults name.now) ((S.shown shelf.new).faults name.now) }
    ensures keeps { Keeps (S.shown shelf.old) (S.shown shelf.new) }
{
    let limit = limit as usize;
    let mut text = Vec::new(alloc);
    let mut piece = [0u8; PIECE];
    while text.len() <= limit {
        let Ok(n) = shelf.read_at(name, text.len() as u64, &mut piece) else {
            return Err(ReadRefused::ReadFault);
        };
        if n == 0 {
            return Ok(text);
        }
        if text.extend_from_slice(&piece[..n]).is_err() {
            return Err(ReadRefused::Memory);
        }
    }
    Err(ReadRefused::TooLong)
}
