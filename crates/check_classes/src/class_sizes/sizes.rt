//! The sizes of types.

ghost use Rattle.std.specs.Prelude.{◌≡◌, ◌+◌, min, length, map, slice_set, IfOk};
ghost use Rattle.std.specs.List.{sum_by};
ghost use Rattle.number_graphs.specs.class_containment.Containment.{IsContainmentOrder};
ghost use Rattle.check_tables.specs.containment_rules.Circles.{classes_of_types};
ghost use Rattle.check_classes.specs.class_sizes.Sizes.{size_by, cap, size_noted, AreSizes};

use room_ast::TypeEntry;
use room_kinds::Sequence;
use std::alloc::{AllocError, Global};

/// More numbers than any rule allows: larger sizes count as this one.
pub const CAP: usize = 4_097;

fn capped_sum(a: usize, b: usize) -> usize
    ensures { result ≡ min cap (a + b) }
{
    a.saturating_add(b).min(CAP)
}

fn size_of_type(entry: TypeEntry, sizes: &[usize]) -> usize
    ensures { result ≡ size_by sizes.now entry }
{
    match entry {
        TypeEntry::Number(_) => 1,
        TypeEntry::Class(class) => match sizes.get(class) {
            Some(size) => *size,
            None => 0,
        },
        TypeEntry::Unknown => 0,
    }
}

/// How many numbers types stand for together, at most `CAP`, where these are the sizes of the data
/// classes.
pub fn size_of_types(types: &[TypeEntry], sizes: &[usize]) -> usize
    ensures { result ≡ min cap (sum_by (size_by sizes.now) types.now) }
{
    let mut size = 0;
    for entry in types {
        size = capped_sum(size, size_of_type(*entry, sizes));
    }
    size
}

/// Notes the size of a class, where those of its fields' classes are noted.
#[tactic(auto, using(crate::proofs::class_sizes::SizeLaws::set_beyond))]
fn note_size(sizes: &mut Vec<usize>, classes: &[Sequence<TypeEntry>], class: usize)
    requires { length sizes.old.items ≡ length classes.now }
    ensures { sizes.new.items
        ≡ slice_set sizes.old.items class (size_noted classes.now sizes.old.items class) }
{
    if let Some(types) = classes.get(class) {
        let size = size_of_types(types.as_slice(), sizes.as_slice());
        sizes[class] = size;
    }
}

/// The sizes of the data classes, taken in an order in which each stands after those of its fields.
pub fn sizes_in_order(
    alloc: Global,
    order: &[usize],
    classes: &[Sequence<TypeEntry>],
) -> Result<Vec<usize>, AllocError>
    ensures { IfOk result (λ v.
        IsContainmentOrder (map classes_of_types classes.now) order.now
        → AreSizes classes.now v.items) }
{
    let mut sizes = vec![in alloc; 0; classes.len()]?;
    for class in order {
        note_size(&mut sizes, classes, *class);
    }
    Ok(sizes)
}
