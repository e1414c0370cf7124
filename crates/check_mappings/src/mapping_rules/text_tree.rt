//! Texts that go on from one another, each with a number, so that equal texts are told without
//! comparing them.
//!
//! The texts are the nodes of a tree: each but the empty one is another text and one byte more.

ghost use Rattle.std.specs.Prelude.{◌≡◌, ◌<◌, ◌∷◌, ◌++◌, [], All, length, map, IfOk};
ghost use Rattle.name_tables.specs.distinct_names.Distinct.{is_distinct};
ghost use Rattle.check_mappings.specs.mapping_rules.TextTrees.{text_in, Numbers};

use indexmap::IndexSet;
use std::alloc::{AllocError, Global};
use std::marker::Model;

/// A text that is another one, told by its number, and one byte more.
#[derive(Clone, Copy, Drop, PartialEq, Eq, Hash)]
struct Branch {
    above: usize,
    byte: u8,
}

/// Distinct texts by number. Contracts see them as their list. The empty text has the number 0, and
/// the branch at a place the number one above it.
#[derive(Drop)]
pub(crate) struct TextTree {
    branches: IndexSet<Branch>,
}

impl Model for TextTree {
    ghost use Rattle.std.specs.Prelude.{List, ℕ};
    ghost use Rattle.check_mappings.specs.mapping_rules.TextTrees.{all_texts, IsTree};

    ghost Value = { List (List ℕ) };

    ghost view = { λ t. all_texts t.branches.keys };

    ghost invariant = { λ t. IsTree t.branches.keys };
}

impl TextTree {
    /// The empty text alone, with the number 0. It takes no memory.
    #[tactic(auto, using(crate::proofs::mapping_rules::TextTrees::no_branches))]
    pub(crate) fn new(alloc: Global) -> TextTree
        ensures { result ≡ [] ∷ [] }
    {
        TextTree {
            branches: IndexSet::new(alloc),
        }
    }

    /// The number of the text that is one byte longer than the text with this number.
    pub(crate) fn longer(&mut self, text: usize, byte: u8) -> Result<usize, AllocError>
        requires { text < length self.old }
        ensures { IfOk result (λ n.
            Numbers self.old self.new n (text_in self.old text ++ byte ∷ [])) }
    {
        let (place, _) = self.branches.insert_full(Branch { above: text, byte })?;
        let count = self.branches.len();
        prove!(place < count);
        Ok(place + 1)
    }

    /// The number of the text that is longer by these bytes than the text with this number.
    pub(crate) fn longer_by(&mut self, text: usize, bytes: &[u8]) -> Result<usize, AllocError>
        requires { text < length self.old }
        ensures { IfOk result (λ n.
            Numbers self.old self.new n (text_in self.old text ++ bytes.now)) }
    {
        let mut reached = text;
        for byte in bytes {
            reached = self.longer(reached, *byte)?;
        }
        Ok(reached)
    }

    /// Whether the texts with these numbers are distinct.
    pub(crate) fn are_distinct(&self, alloc: Global, numbers: &[usize]) -> Result<bool, AllocError>
        requires { All (λ n. n < length self.now) numbers.now }
        ensures { IfOk result (λ b. b ≡ is_distinct (map (text_in self.now) numbers.now)) }
    {
        let _branches = &self.branches;
        let mut seen = IndexSet::new(alloc);
        for number in numbers {
            if !seen.insert(*number)? {
                return Ok(false);
            }
        }
        Ok(true)
    }
}
