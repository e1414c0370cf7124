//! Whether names are distinct, by a table and not by comparing pairs.

ghost use Rattle.std.specs.Prelude.{◌≡◌, IfOk};
ghost use Rattle.name_tables.specs.name_numbers.Names.{names_of};
ghost use Rattle.name_tables.specs.distinct_names.Distinct.{is_distinct};

use crate::name_numbers::numbered;
use std::alloc::{AllocError, Global};

/// Whether no two of the names are the same. It takes time in proportion to the names.
#[tactic(auto, using(crate::proofs::distinct_names::Laws::numbers_are_distinct, crate::proofs::distinct_names::Laws::none_is_not))]
pub fn are_distinct(alloc: Global, names: &[&[u8]]) -> Result<bool, AllocError>
    ensures { IfOk result (λ b. b ≡ is_distinct (names_of names.now)) }
{
    match numbered(alloc, names)? {
        Some(_) => Ok(true),
        None => Ok(false),
    }
}
