//! The attributes of an actor class.
ghost use Rattle.std.specs.Prelude.{◌≡◌, IfOk, length, map, option_map};
ghost use Rattle.std.specs.List.{filter_map};
ghost use Rattle.room_ast.specs.model_parts.Attributes.{as_attribute};
ghost use Rattle.check_scopes.specs.number_kinds.Kinds.{kinds_by};
ghost use Rattle.wiring_plan.specs.wiring_classes.ByKinds.{attribute_by};

use crate::structure_plan::count32;
use crate::wiring_classes::labels::label_of;
use check_tables::{push_if, type_entry};
use name_tables::NameIndex;
use room_ast::{Attribute, StructureItem, TypeEntry};
use room_kinds::{NumberType, Sequence};
use room_wiring::AttrNames;
use std::alloc::{AllocError, Global};

/// How many numbers a type stands for.
fn number_count(entry: TypeEntry, kinds: &[Sequence<NumberType>]) -> usize
    ensures { result ≡ length (kinds_by kinds.now entry) }
{
    match entry {
        TypeEntry::Number(_) => 1,
        TypeEntry::Class(class) => match kinds.get(class) {
            Some(inner) => inner.len(),
            None => 0,
        },
        TypeEntry::Unknown => 0,
    }
}

fn attribute_names(
    alloc: Global,
    attribute: &Attribute,
    names: &NameIndex,
    kinds: &[Sequence<NumberType>],
) -> Result<AttrNames, AllocError>
    ensures { IfOk result (λ a. a ≡ attribute_by names.now kinds.now attribute.now) }
{
    let name = label_of(alloc, attribute.name.as_bytes())?;
    let entry = type_entry(attribute.type_name.as_bytes(), names);
    Ok(AttrNames {
        name,
        numbers: count32(number_count(entry, kinds) as u64),
    })
}

fn names_if_attribute(
    alloc: Global,
    item: &StructureItem,
    names: &NameIndex,
    kinds: &[Sequence<NumberType>],
) -> Result<Option<AttrNames>, AllocError>
    ensures { IfOk result (λ a.
        a ≡ option_map (attribute_by names.now kinds.now) (as_attribute item.now)) }
{
    match item {
        StructureItem::Attribute(attribute) => {
            let named = attribute_names(alloc, attribute, names, kinds)?;
            Ok(Some(named))
        }
        _ => Ok(None),
    }
}

/// The attributes among items of a Structure, in a list that takes no more room than they do.
pub(crate) fn attributes_of(
    alloc: Global,
    items: &[StructureItem],
    names: &NameIndex,
    kinds: &[Sequence<NumberType>],
) -> Result<Vec<AttrNames>, AllocError>
    ensures { IfOk result (λ v.
        v.items ≡ map (attribute_by names.now kinds.now) (filter_map as_attribute items.now)) }
{
    let mut all = Vec::new(alloc);
    for item in items {
        push_if(&mut all, names_if_attribute(alloc, item, names, kinds)?)?;
    }
    all.shrink_to_fit();
    Ok(all)
}
