//! A shelf in memory.
ghost use Rattle.std.specs.Prelude.{◌≡◌, ◌+◌, ◌≤◌, length, Ok, IsErr, IfOk, IfSome, OnErr, MatchOption, replicate};
ghost use Rattle.room_outside.specs.Faults.{Rose};
ghost use Rattle.room_outside.specs.Shown.{Keeps, IsReadAt};

use crate::calls::Calls;
use crate::files::{TextFile, copy_at, place_of, text_under};
use crate::{Failed, Shelf};
use std::alloc::{AllocError, Global};
use std::marker::Model;

/// A shelf that keeps its files. Of two files of one name the first is read. Some of its calls can
/// be made to fail.
#[derive(Drop, Debug)]
pub struct MemShelf {
    files: Vec<TextFile>,
    // One count for each file, and a last one for all other names.
    counts: Vec<u64>,
    calls: Calls,
}

impl Model for MemShelf {
    ghost use Rattle.std.specs.Prelude.{◌≡◌, ◌+◌, length};
    ghost use Rattle.room_outside.specs.MemShelf.{ShelfState};

    ghost Value = { ShelfState };

    ghost use Rattle.room_outside.specs.Files.{files_of};

    ghost view = { λ s. record { files = files_of s.files.items; counts = s.counts.items; calls = s.calls } };

    ghost invariant = { λ s. length s.counts.items ≡ length s.files.items + 1 };
}

impl MemShelf {
    ghost use Rattle.room_outside.specs.Files.{files_of};
    ghost use Rattle.room_outside.specs.MemShelf.{raised, count_of, shown_by};

    /// A shelf with these files, each under its name. `fail` holds the numbers, from 1, of the
    /// calls that fail.
    pub fn new(alloc: Global, files: Vec<TextFile>, fail: Vec<u64>) -> Result<MemShelf, AllocError>
        ensures { IfOk result (λ s. s ≡ record { files = files_of files.items; counts = replicate (length files.items + 1) 0; calls = record { made = 0; fail = fail.items } }) }
    {
        let counts = vec![in alloc; 0; files.len() + 1]?;
        Ok(MemShelf {
            files,
            counts,
            calls: Calls::new(fail),
        })
    }

    /// How many reads of a name have failed.
    pub fn faults(&self, name: &str) -> u64
        ensures { result ≡ count_of self.now name.now }
    {
        self.counts[place_of(&self.files, name)]
    }

    /// Counts one more fault of a name.
    #[tactic(auto, using(crate::proofs::MemShelfLemmas::raise_steps))]
    fn raise(&mut self, name: &str)
        ensures state { self.new ≡ raised self.old name.now }
        ensures fault { Rose (count_of self.old name.now) (count_of self.new name.now) }
        ensures keeps { Keeps (shown_by self.old) (shown_by self.new) }
    {
        let place = place_of(&self.files, name);
        self.counts[place] = self.counts[place].saturating_add(1);
    }
}

impl Shelf for MemShelf {
    ghost use Rattle.room_outside.specs.MemShelf.{shown_by, readable, that_fit, after_read};

    ghost shown = { shown_by };

    /// Gives as many bytes as fit. A call that is made to fail, and one of a name without a file,
    /// raises the count of the name.
    fn read_at(&mut self, name: &str, from: u64, buf: &mut [u8]) -> Result<usize, Failed>
        ensures within { IfOk result (λ n. n ≤ length buf.new) }
        ensures read { IfOk result (λ n. IfSome ((shown_by self.old).text name.now) (λ text. IsReadAt text from n buf.new)) }
        ensures fault { OnErr result (Rose ((shown_by self.old).faults name.now) ((shown_by self.new).faults name.now)) }
        ensures keeps { Keeps (shown_by self.old) (shown_by self.new) }
        ensures answer { MatchOption (readable self.old name.now) (IsErr result) (λ text. result ≡ Ok (that_fit text from buf.old)) }
        ensures state { self.new ≡ after_read self.old name.now }
    {
        let fails = self.calls.next_fails();
        match text_under(&self.files, name) {
            Some(text) if !fails => Ok(copy_at(text, from, buf)),
            _ => {
                self.raise(name);
                Err(Failed)
            }
        }
    }
}
