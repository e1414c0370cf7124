//! The rule on the size of data classes.

ghost use Rattle.std.specs.Prelude.{◌≡◌, true, map, min, nat_le, IfOk};
ghost use Rattle.std.specs.List.{list_all, sum_by};
ghost use Rattle.room_ast.specs.Trees.{ModelTree};
ghost use Rattle.check_tables.specs.class_tables.Containers.{tables_of};
ghost use Rattle.check_tables.specs.containment_rules.Circles.{data_is_finite};
ghost use Rattle.check_classes.specs.class_sizes.Sizes.{size_by, cap, HasSizes};
ghost use Rattle.check_classes.specs.class_sizes.Rules.{has_small_classes};

use crate::class_sizes::sizes::{size_of_types, sizes_in_order};
use check_tables::{Tables, parts_of_data};
use number_graphs::containment_order;
use room_ast::TypeEntry;
use room_kinds::Sequence;
use std::alloc::{AllocError, Global};

/// The sizes of the data classes, by number: how many numbers each stands for, at most `CAP`. None
/// where a class contains itself.
#[tactic(auto, using(crate::proofs::class_sizes::RuleLaws::none_sized, crate::proofs::class_sizes::RuleLaws::some_sized))]
pub fn sizes_of(
    alloc: Global,
    classes: &[Sequence<TypeEntry>],
) -> Result<Option<Vec<usize>>, AllocError>
    ensures { IfOk result (λ sizes. HasSizes classes.now sizes) }
{
    let parts = parts_of_data(alloc, classes)?;
    let Some(order) = containment_order(alloc, parts.as_slice())? else {
        return Ok(None);
    };
    let sizes = sizes_in_order(alloc, order.as_slice(), classes)?;
    Ok(Some(sizes))
}

/// The most numbers of a data class, and so of a message.
const MOST: usize = 64;

fn all_small(classes: &[Sequence<TypeEntry>], sizes: &[usize]) -> bool
    ensures { result
        ≡ list_all (λ ts. nat_le (min cap (sum_by (size_by sizes.now) ts)) 64) classes.now }
{
    classes
        .iter()
        .all(|types| size_of_types(types.as_slice(), sizes) <= MOST)
}

/// Whether each data class stands for at most 64 numbers, where none contains itself.
#[tactic(auto, using(crate::proofs::class_sizes::RuleLaws::small_by_sizes, crate::proofs::class_sizes::RuleLaws::none_is_finite))]
pub fn has_small_classes(alloc: Global, tables: &Tables) -> Result<bool, AllocError>
    ensures { IfOk result (λ b.
        (m : ModelTree) → tables.now ≡ tables_of m → data_is_finite m ≡ true
        → b ≡ has_small_classes m) }
{
    let classes = tables.data_types.as_slice();
    match sizes_of(alloc, classes)? {
        Some(sizes) => Ok(all_small(classes, sizes.as_slice())),
        None => Ok(false),
    }
}
