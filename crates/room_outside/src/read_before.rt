//! Files of which some were read before.
ghost use Rattle.std.specs.Prelude.{◌≡◌, ◌≤◌, length, Ok, IfOk, IfSome, OnOk, OnErr, string_bytes};
ghost use Rattle.room_outside.specs.Faults.{Rose, one_more};
ghost use Rattle.room_outside.specs.Files.{files_of, text_under};
ghost use Rattle.room_outside.specs.MemShelf.{that_fit};
ghost use Rattle.room_outside.specs.Shown.{Keeps, IsReadAt};

use crate::files::{TextFile, copy_at, text_under};
use crate::{Failed, FileShelf, Shelf, read_whole};
use std::marker::Model;
use std::rt::Files;

/// The file at a path, named so, if there is one of at most 1,048,576 bytes that can be read.
pub fn read_file<R: Files + AllocGlobal + Drop>(files: R, path: &str) -> Option<TextFile>
    ensures name { IfSome result (λ file. string_bytes file.0 ≡ path.now) }
    ensures short { IfSome result (λ file. length file.1.items ≤ 1048576) }
{
    let name = String::from_str(files.alloc(), path).ok()?;
    let text = read_whole(files.alloc(), &mut FileShelf::new(files), path).ok()?;
    Some((name, text))
}

/// The files of a system, of which some may have been read before: these are given as they were
/// then, and aren't opened again. So their texts are told, and those of no other files. There is one
/// count of faults, which is that of every name.
#[derive(Drop)]
pub struct ReadBefore<R: Files> {
    read: Vec<TextFile>,
    files: FileShelf<R>,
}

impl<R: Files> Model for ReadBefore<R> {
    ghost use Rattle.room_outside.specs.Files.{files_of};
    ghost use Rattle.room_outside.specs.ReadBefore.{ReadState};

    ghost Value = { ReadState };

    ghost view = { λ s. record { read = files_of s.read.items; faults = s.files } };
}

impl<R: Files> ReadBefore<R> {
    /// The files that this runtime reaches, and what was read of them. Of two texts of one name the
    /// first is given.
    pub fn new(files: R, read: Vec<TextFile>) -> ReadBefore<R>
        ensures { result ≡ record { read = files_of read.items; faults = 0 } }
    {
        ReadBefore {
            read,
            files: FileShelf::new(files),
        }
    }
}

impl<R: Files + AllocGlobal> Shelf for ReadBefore<R> {
    ghost use Rattle.room_outside.specs.ReadBefore.{shown_of};

    ghost shown = { shown_of };

    /// Gives as many bytes of a text that was read as fit. Any other name is read from its file.
    fn read_at(&mut self, name: &str, from: u64, buf: &mut [u8]) -> Result<usize, Failed>
        ensures within { IfOk result (λ n. n ≤ length buf.new) }
        ensures read { IfOk result (λ n. IfSome ((shown_of self.old).text name.now) (λ text. IsReadAt text from n buf.new)) }
        ensures fault { OnErr result (Rose ((shown_of self.old).faults name.now) ((shown_of self.new).faults name.now)) }
        ensures keeps { Keeps (shown_of self.old) (shown_of self.new) }
        ensures answer { IfSome (text_under self.old.read name.now) (λ text. result ≡ Ok (that_fit text from buf.old)) }
        ensures ok { OnOk result (self.new ≡ self.old) }
        ensures err { OnErr result (self.new ≡ record self.old { faults = one_more self.old.faults }) }
    {
        match text_under(&self.read, name) {
            Some(text) => Ok(copy_at(text, from, buf)),
            None => self.files.read_at(name, from, buf),
        }
    }
}
