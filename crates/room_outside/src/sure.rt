//! An outside without faults.
ghost use Rattle.std.specs.Prelude.{◌≡◌, ◌<◌, ◌≤◌, [], length, take, Ok, IfOk, IfSome, OnErr};
ghost use Rattle.room_outside.specs.Faults.{Rose};
ghost use Rattle.room_outside.specs.Shown.{Keeps, IsReadAt};
ghost use Rattle.room_outside.specs.Written.{Appends};

use crate::files::{TextFile, copy_at, text_under};
use crate::{Failed, Shelf, Sink};
use std::marker::Model;

/// A shelf that keeps its files and never fails. A name without a file has the empty text.
#[derive(Drop, Debug)]
pub struct SureShelf {
    files: Vec<TextFile>,
}

impl Model for SureShelf {
    ghost use Rattle.std.specs.Prelude.{List, ℕ};

    ghost Value = { List (List ℕ × List ℕ) };

    ghost use Rattle.room_outside.specs.Files.{files_of};

    ghost view = { λ s. files_of s.files.items };
}

impl SureShelf {
    ghost use Rattle.room_outside.specs.Files.{files_of};

    /// A shelf with these files, each under its name. It takes no memory.
    pub fn new(files: Vec<TextFile>) -> SureShelf
        ensures { result ≡ files_of files.items }
    {
        SureShelf { files }
    }
}

impl Shelf for SureShelf {
    ghost use Rattle.room_outside.specs.MemShelf.{shown_surely, sure_text, that_fit};

    ghost shown = { shown_surely };

    /// Gives as many bytes as fit.
    fn read_at(&mut self, name: &str, from: u64, buf: &mut [u8]) -> Result<usize, Failed>
        ensures within { IfOk result (λ n. n ≤ length buf.new) }
        ensures read { IfOk result (λ n. IfSome ((shown_surely self.old).text name.now) (λ text. IsReadAt text from n buf.new)) }
        ensures fault { OnErr result (Rose ((shown_surely self.old).faults name.now) ((shown_surely self.new).faults name.now)) }
        ensures keeps { Keeps (shown_surely self.old) (shown_surely self.new) }
        ensures answer { result ≡ Ok (that_fit (sure_text self.old name.now) from buf.old) }
        ensures state { self.new ≡ self.old }
    {
        let text = text_under(&self.files, name).unwrap_or(&[]);
        Ok(copy_at(text, from, buf))
    }
}

/// A sink that takes every piece whole. It keeps no bytes, tells none and never fails.
#[derive(Clone, Copy, Debug, Default, PartialEq, Eq)]
pub struct SureSink;

impl SureSink {
    pub fn new() -> SureSink {
        SureSink
    }
}

impl Sink for SureSink {
    ghost use Rattle.room_outside.specs.Written.{untold};

    ghost written = { λ _. untold 0 };

    /// Takes the whole piece.
    fn write(&mut self, piece: &[u8]) -> Result<usize, Failed>
        ensures within { IfOk result (λ n. n ≤ length piece.now) }
        ensures taken { IfOk result (λ n. Appends (untold 0) (untold 0) (take n piece.now)) }
        ensures failed { OnErr result (Appends (untold 0) (untold 0) []) }
        ensures fault { OnErr result (Rose 0 0) }
        ensures none { result ≡ Ok 0 → 0 < length piece.now → Rose 0 0 }
        ensures answer { result ≡ Ok (length piece.now) }
    {
        Ok(piece.len())
    }
}
