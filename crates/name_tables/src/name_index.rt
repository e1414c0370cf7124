//! The first place of a name in a list of names, found without a search.

ghost use Rattle.std.specs.Prelude.{◌≡◌, IfOk, OnOk, length, position, is_some};
ghost use Rattle.name_tables.specs.name_numbers.Names.{same, is_among, names_of};
ghost use Rattle.name_tables.specs.name_index.Places.{FindsFirst, FindsByTable, NotesFirst, place_called};

use indexmap::IndexMap;
use std::alloc::{AllocError, Global};
use std::boxed::Box;
use std::marker::Model;

/// Up to this many names are compared one by one, which takes no longer than a table and no memory.
const FEW: usize = 8;

/// A list of names, in which each is found without a search. Contracts see it as the list. A name
/// may stand in it several times; its first place counts.
#[derive(Drop)]
pub struct NameIndex<'a> {
    names: Vec<&'a [u8]>,
    /// The first place of each name; none where the names are few. Most lists are short, so the
    /// table stands behind a box.
    first: Option<Box<IndexMap<&'a [u8], usize>>>,
}

impl<'a> Model for NameIndex<'a> {
    ghost use Rattle.std.specs.Prelude.{List, ℕ};
    ghost use Rattle.name_tables.specs.name_numbers.Names.{names_of};
    ghost use Rattle.name_tables.specs.name_index.Places.{FindsByTable};

    ghost Value = { List (List ℕ) };

    ghost view = { λ n. names_of n.names.items };

    ghost invariant = { λ n. FindsByTable n.first (names_of n.names.items) };
}

/// Notes the place of a name that has none yet.
fn note_first<'a>(
    first: &mut IndexMap<&'a [u8], usize>,
    name: &'a [u8],
    place: usize,
) -> Result<(), AllocError>
    ensures { OnOk result (NotesFirst first.old first.new name.now place) }
{
    if !first.contains_key(name) {
        first.insert(name, place)?;
    }
    Ok(())
}

/// The first place of each name. The table stays as long as the model, so it keeps no room for more.
fn first_places<'a>(
    alloc: Global,
    names: &[&'a [u8]],
) -> Result<IndexMap<&'a [u8], usize>, AllocError>
    ensures { IfOk result (λ m. FindsFirst m (names_of names.now)) }
{
    let mut first = IndexMap::new(alloc);
    for (place, name) in names.iter().enumerate() {
        note_first(&mut first, *name, place)?;
    }
    first.shrink_to_fit();
    Ok(first)
}

/// The first place of each name, where they are more than a few.
fn table_of<'a>(
    alloc: Global,
    names: &[&'a [u8]],
) -> Result<Option<Box<IndexMap<&'a [u8], usize>>>, AllocError>
    ensures { IfOk result (λ m. FindsByTable m (names_of names.now)) }
{
    if names.len() <= FEW {
        return Ok(None);
    }
    let first = first_places(alloc, names)?;
    Ok(Some(Box::new(alloc, first)?))
}

/// The first place at which a name stands in a list, by comparing one after the other.
fn place_among(names: &[&[u8]], name: &[u8]) -> Option<usize>
    ensures { result ≡ place_called name.now names.now }
{
    names.iter().position(|other| name == *other)
}

impl<'a> NameIndex<'a> {
    /// The index of a list of names. It takes time in proportion to the list, and gives back the room
    /// that the list has for more names.
    pub fn of(alloc: Global, names: Vec<&'a [u8]>) -> Result<NameIndex<'a>, AllocError>
        ensures { IfOk result (λ n. n ≡ names_of names.entry.items) }
    {
        let mut names = names;
        names.shrink_to_fit();
        let first = table_of(alloc, names.as_slice())?;
        Ok(NameIndex { names, first })
    }

    /// The first place of a name, from 0; none where it isn't among the names.
    pub fn place_of(&self, name: &[u8]) -> Option<usize>
        ensures { result ≡ position (same name.now) self.now }
    {
        match &self.first {
            None => place_among(self.names.as_slice(), name),
            Some(first) => first.get(name).copied(),
        }
    }

    /// Whether a name is one of these.
    pub fn has(&self, name: &[u8]) -> bool
        ensures { result ≡ is_among self.now name.now }
    {
        self.place_of(name).is_some()
    }

    /// How many names there are, one that stands twice counted twice.
    pub fn len(&self) -> usize
        ensures { result ≡ length self.now }
    {
        self.names.len()
    }

    /// The names in their order.
    pub fn names(&self) -> &[&'a [u8]]
        ensures { names_of result.now ≡ self.now }
    {
        self.names.as_slice()
    }
}
