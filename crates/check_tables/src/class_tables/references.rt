//! The references of a class.

ghost use Rattle.std.specs.Prelude.{◌≡◌, IfOk, option_map, map, unwrap_or};
ghost use Rattle.std.specs.List.{filter_map};
ghost use Rattle.name_tables.specs.name_numbers.Names.{names_of};
ghost use Rattle.room_ast.specs.Trees.{subsystem_item_view};
ghost use Rattle.room_ast.specs.model_parts.References.{as_reference, as_subsystem_reference, reference_entry};

use crate::class_tables::names::add_name;
use crate::class_tables::ports::push_if;
use name_tables::NameIndex;
use room_ast::{ActorRef, Name, ReferenceEntry, StructureItem, SubsystemItem};
use room_kinds::ReferenceKind;
use std::alloc::{AllocError, Global};

/// The reference that an item of a Structure is, if it is one.
pub fn as_reference<'a>(item: &'a StructureItem) -> Option<&'a ActorRef>
    ensures { option_map (λ r. r.now) result ≡ as_reference item.now }
{
    match item {
        StructureItem::Reference(r) => Some(r),
        _ => None,
    }
}

fn reference_entry(reference: &ActorRef, actors: &NameIndex) -> ReferenceEntry
    ensures { result ≡ reference_entry actors.now reference.now }
{
    ReferenceEntry {
        kind: match reference.kind {
            Some(kind) => kind,
            None => ReferenceKind::Fixed,
        },
        count: reference.count,
        class: actors.place_of(reference.class.as_bytes()),
    }
}

// ---- of an actor class

fn name_in_structure<'a>(item: &'a StructureItem) -> Option<&'a Name>
    ensures { option_map (λ n. n.now) result ≡ option_map (λ r. r.name) (as_reference item.now) }
{
    match item {
        StructureItem::Reference(r) => Some(&r.name),
        _ => None,
    }
}

fn entry_in_structure(item: &StructureItem, actors: &NameIndex) -> Option<ReferenceEntry>
    ensures { result ≡ option_map (reference_entry actors.now) (as_reference item.now) }
{
    match item {
        StructureItem::Reference(r) => Some(reference_entry(r, actors)),
        _ => None,
    }
}

/// The names of the references among items of a Structure.
pub(crate) fn reference_names<'a>(
    alloc: Global,
    items: &'a [StructureItem],
) -> Result<Vec<&'a [u8]>, AllocError>
    ensures { IfOk result (λ v. names_of v.items ≡ map (λ r. r.name) (filter_map as_reference items.now)) }
{
    let mut names = Vec::new(alloc);
    for item in items {
        add_name(&mut names, name_in_structure(item))?;
    }
    Ok(names)
}

/// The entries of the references among items of a Structure.
pub(crate) fn reference_entries(
    alloc: Global,
    items: &[StructureItem],
    actors: &NameIndex,
) -> Result<Vec<ReferenceEntry>, AllocError>
    ensures { IfOk result (λ v. v.items ≡ map (reference_entry actors.now) (filter_map as_reference items.now)) }
{
    let mut entries = Vec::new(alloc);
    for item in items {
        push_if(&mut entries, entry_in_structure(item, actors))?;
    }
    Ok(entries)
}

// ---- of a subsystem class

fn name_in_subsystem<'a>(item: &'a SubsystemItem) -> Option<&'a Name>
    ensures { option_map (λ n. n.now) result ≡ option_map (λ r. r.name) (as_subsystem_reference (subsystem_item_view item.now)) }
{
    match item {
        SubsystemItem::Reference(r) => Some(&r.name),
        _ => None,
    }
}

fn entry_in_subsystem(item: &SubsystemItem, actors: &NameIndex) -> Option<ReferenceEntry>
    ensures { result ≡ option_map (reference_entry actors.now) (as_subsystem_reference (subsystem_item_view item.now)) }
{
    match item {
        SubsystemItem::Reference(r) => Some(reference_entry(r, actors)),
        _ => None,
    }
}

/// The names of the references among items of a subsystem class.
pub(crate) fn subsystem_reference_names<'a>(
    alloc: Global,
    items: &'a [SubsystemItem],
) -> Result<Vec<&'a [u8]>, AllocError>
    ensures { IfOk result (λ v. names_of v.items ≡ map (λ r. r.name) (filter_map as_subsystem_reference (map subsystem_item_view items.now))) }
{
    let mut names = Vec::new(alloc);
    for item in items {
        add_name(&mut names, name_in_subsystem(item))?;
    }
    Ok(names)
}

/// The entries of the references among items of a subsystem class.
pub(crate) fn subsystem_reference_entries(
    alloc: Global,
    items: &[SubsystemItem],
    actors: &NameIndex,
) -> Result<Vec<ReferenceEntry>, AllocError>
    ensures { IfOk result (λ v. v.items ≡ map (reference_entry actors.now) (filter_map as_subsystem_reference (map subsystem_item_view items.now))) }
{
    let mut entries = Vec::new(alloc);
    for item in items {
        push_if(&mut entries, entry_in_subsystem(item, actors))?;
    }
    Ok(entries)
}
