//! The types of the numbers of each data class, each taken after those of its fields.

ghost use Rattle.std.specs.Prelude.{◌≡◌, ◌++◌, [], length, map, slice_set, IfOk, OnOk};
ghost use Rattle.std.specs.List.{flat_map};
ghost use Rattle.number_graphs.specs.class_containment.Containment.{IsContainmentOrder};
ghost use Rattle.check_tables.specs.containment_rules.Circles.{classes_of_types};
ghost use Rattle.check_scopes.specs.number_kinds.Kinds.{kinds_by, kinds_noted, AreKinds, HasKinds};

use check_tables::parts_of_data;
use number_graphs::containment_order;
use room_ast::TypeEntry;
use room_kinds::{NumberType, Sequence};
use std::alloc::{AllocError, Global};

/// Adds the types of the numbers that a type stands for, where these are those of the data classes.
fn add_kinds(
    kinds: &mut Vec<NumberType>,
    entry: TypeEntry,
    table: &[Sequence<NumberType>],
) -> Result<(), AllocError>
    ensures { OnOk result (kinds.new.items ≡ kinds.old.items ++ kinds_by table.now entry) }
{
    match entry {
        TypeEntry::Number(kind) => {
            kinds.push(kind)?;
            Ok(())
        }
        TypeEntry::Class(class) => match table.get(class) {
            Some(inner) => {
                kinds.extend_from_slice(inner.as_slice())?;
                Ok(())
            }
            None => Ok(()),
        },
        TypeEntry::Unknown => Ok(()),
    }
}

/// The types of the numbers that a type stands for, where these are those of the data classes.
pub fn kinds_of_type(
    alloc: Global,
    entry: TypeEntry,
    table: &[Sequence<NumberType>],
) -> Result<Vec<NumberType>, AllocError>
    ensures { IfOk result (λ v. v.items ≡ kinds_by table.now entry) }
{
    let mut kinds = Vec::new(alloc);
    add_kinds(&mut kinds, entry, table)?;
    Ok(kinds)
}

fn kinds_of_types(
    alloc: Global,
    types: &[TypeEntry],
    table: &[Sequence<NumberType>],
) -> Result<Vec<NumberType>, AllocError>
    ensures { IfOk result (λ v. v.items ≡ flat_map (kinds_by table.now) types.now) }
{
    let mut kinds = Vec::new(alloc);
    for entry in types {
        add_kinds(&mut kinds, *entry, table)?;
    }
    Ok(kinds)
}

/// Notes the types of the numbers of a class, where those of its fields' classes are noted.
#[tactic(auto, using(crate::proofs::number_kinds::KindLaws::set_beyond))]
fn note_kinds(
    alloc: Global,
    table: &mut Vec<Sequence<NumberType>>,
    classes: &[Sequence<TypeEntry>],
    class: usize,
) -> Result<(), AllocError>
    requires { length table.old.items ≡ length classes.now }
    ensures { OnOk result (table.new.items
        ≡ slice_set table.old.items class (kinds_noted classes.now table.old.items class)) }
{
    if let Some(types) = classes.get(class) {
        let kinds = kinds_of_types(alloc, types.as_slice(), table.as_slice())?;
        table[class] = Sequence::from(kinds);
    }
    Ok(())
}

fn no_kinds(alloc: Global, count: usize) -> Result<Vec<Sequence<NumberType>>, AllocError>
    ensures { IfOk result (λ v. length v.items ≡ count) }
{
    let mut table = Vec::new(alloc);
    for _ in 0..count {
        table.push(Sequence::new(alloc))?;
    }
    Ok(table)
}

/// The types of the numbers of the data classes, taken in an order in which each stands after those
/// of its fields.
fn kinds_in_order(
    alloc: Global,
    order: &[usize],
    classes: &[Sequence<TypeEntry>],
) -> Result<Vec<Sequence<NumberType>>, AllocError>
    ensures { IfOk result (λ v.
        IsContainmentOrder (map classes_of_types classes.now) order.now
        → AreKinds classes.now v.items) }
{
    let mut table = no_kinds(alloc, classes.len())?;
    for class in order {
        note_kinds(alloc, &mut table, classes, *class)?;
    }
    Ok(table)
}

/// The types of the numbers that each data class stands for, by number; none where a class contains
/// itself. It takes time and memory in proportion to the classes, their fields and the numbers for
/// which they stand, so call it where those are known to be few.
#[tactic(auto, using(crate::proofs::number_kinds::KindLaws::none_kinds, crate::proofs::number_kinds::KindLaws::some_kinds))]
pub fn kinds_of(
    alloc: Global,
    classes: &[Sequence<TypeEntry>],
) -> Result<Option<Vec<Sequence<NumberType>>>, AllocError>
    ensures { IfOk result (λ table. HasKinds classes.now table) }
{
    let parts = parts_of_data(alloc, classes)?;
    let Some(order) = containment_order(alloc, parts.as_slice())? else {
        return Ok(None);
    };
    let table = kinds_in_order(alloc, order.as_slice(), classes)?;
    Ok(Some(table))
}
