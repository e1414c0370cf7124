//! How many numbers the attributes of a class stand for.

ghost use Rattle.std.specs.Prelude.{◌≡◌, ◌+◌, min, map};
ghost use Rattle.std.specs.List.{list_all, filter_map, sum_by};
ghost use Rattle.room_ast.specs.Trees.{class_view, actor_view};
ghost use Rattle.room_ast.specs.model_parts.Classes.{as_actor};
ghost use Rattle.check_classes.specs.class_rules.Loops.{of_actor};
ghost use Rattle.check_classes.specs.class_sizes.Sizes.{cap};
ghost use Rattle.check_mappings.specs.count_rules.Counting.{item_size, numbers_fit};

use check_classes::{CAP, size_of_types};
use check_tables::{structure_items, type_entry};
use name_tables::NameIndex;
use room_ast::{ActorClass, Class, StructureItem};

/// The most numbers of an actor class.
const MOST_NUMBERS: usize = 4_096;

/// How many numbers an item of a structure adds, at most `CAP`.
fn item_size(item: &StructureItem, names: &NameIndex, sizes: &[usize]) -> usize
    ensures { result ≡ min cap (item_size names.now sizes.now item.now) }
{
    match item {
        StructureItem::Attribute(attribute) => {
            let entry = type_entry(attribute.type_name.as_bytes(), names);
            size_of_types(&[entry], sizes)
        }
        _ => 0,
    }
}

/// How many numbers the attributes among items stand for together, at most `CAP`.
fn size_of_items(items: &[StructureItem], names: &NameIndex, sizes: &[usize]) -> usize
    ensures { result ≡ min cap (sum_by (item_size names.now sizes.now) items.now) }
{
    let mut size: usize = 0;
    for item in items {
        size = size.saturating_add(item_size(item, names, sizes)).min(CAP);
    }
    size
}

fn actor_numbers_fit(class: &ActorClass, names: &NameIndex, sizes: &[usize]) -> bool
    ensures { result ≡ numbers_fit names.now sizes.now (actor_view class.now) }
{
    size_of_items(structure_items(class), names, sizes) <= MOST_NUMBERS
}

fn numbers_fit(class: &Class, names: &NameIndex, sizes: &[usize]) -> bool
    ensures { result ≡ of_actor (numbers_fit names.now sizes.now) (class_view class.now) }
{
    match class {
        Class::Actor(a) => actor_numbers_fit(a, names, sizes),
        _ => true,
    }
}

fn each_fits(classes: &[Class], names: &NameIndex, sizes: &[usize]) -> bool
    ensures { result
        ≡ list_all (λ c. of_actor (numbers_fit names.now sizes.now) (class_view c)) classes.now }
{
    classes.iter().all(|class| numbers_fit(class, names, sizes))
}

/// Whether the attributes of each actor class stand together for at most 4,096 numbers, by the names
/// and the sizes of the data classes.
#[tactic(auto, using(crate::proofs::count_rules::Views::test_of_actors))]
pub(crate) fn all_numbers_fit(classes: &[Class], names: &NameIndex, sizes: &[usize]) -> bool
    ensures { result ≡ list_all (numbers_fit names.now sizes.now) (filter_map as_actor (map
        class_view classes.now)) }
{
    each_fits(classes, names, sizes)
}
