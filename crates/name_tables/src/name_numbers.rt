//! Names numbered in the order in which they appear, found without a search.

ghost use Rattle.std.specs.Prelude.{◌≡◌, [], ◌∷◌, ◌++◌, not, if◌then◌else◌, IfOk, position, length};
ghost use Rattle.name_tables.specs.name_numbers.Names.{same, is_among, names_of, Numbered};

use indexmap::IndexSet;
use std::alloc::{AllocError, AllocFailed, Global};
use std::marker::Model;

/// Names that are distinct, numbered from 0 in their order. Contracts see them as their list.
#[derive(Drop)]
pub struct Numbers<'a> {
    names: IndexSet<&'a [u8]>,
}

impl<'a> Model for Numbers<'a> {
    ghost use Rattle.std.specs.Prelude.{List, ℕ};
    ghost use Rattle.name_tables.specs.name_numbers.Names.{names_of};

    ghost Value = { List (List ℕ) };

    ghost view = { λ n. names_of n.names.keys };
}

impl<'a> Numbers<'a> {
    /// No names. It takes no memory.
    pub fn new(alloc: Global) -> Self
        ensures { result ≡ [] }
    {
        Numbers {
            names: IndexSet::new(alloc),
        }
    }

    /// Adds a name, and says whether it is a new one.
    pub fn add(&mut self, name: &'a [u8]) -> Result<bool, AllocFailed<&'a [u8]>>
        ensures new { IfOk result (λ b. b ≡ not (is_among self.old name.now)) }
        ensures names { IfOk result (λ b. self.new ≡ (if b then self.old ++ name.now ∷ [] else self.old)) }
    {
        self.names.insert(name)
    }

    /// The number of a name, if it is one of these.
    pub fn number_of(&self, name: &[u8]) -> Option<usize>
        ensures { result ≡ position (same name.now) self.now }
    {
        self.names.get_index_of(name)
    }

    /// Whether a name is one of these.
    pub fn has(&self, name: &[u8]) -> bool
        ensures { result ≡ is_among self.now name.now }
    {
        self.names.contains(name)
    }
}

/// The numbers of names; none where two of them are the same.
pub fn numbered<'a>(alloc: Global, names: &[&'a [u8]]) -> Result<Option<Numbers<'a>>, AllocError>
    ensures { IfOk result (λ found. Numbered found (names_of names.now)) }
{
    let mut numbers = Numbers::new(alloc);
    for name in names {
        if !numbers.add(name)? {
            return Ok(None);
        }
    }
    Ok(Some(numbers))
}
