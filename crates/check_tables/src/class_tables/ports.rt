//! The ports of an actor class.

ghost use Rattle.std.specs.Prelude.{◌≡◌, ◌∷◌, ◌++◌, IfOk, OnOk, option_map, map};
ghost use Rattle.std.specs.List.{filter_map};
ghost use Rattle.std.specs.Option.{option_to_list};
ghost use Rattle.name_tables.specs.name_numbers.Names.{names_of};
ghost use Rattle.room_ast.specs.Trees.{actor_view};
ghost use Rattle.room_ast.specs.model_parts.Ports.{interface_of, structure_of, frame_name, frame_entry, interface_name, structure_name, external_name, interface_kind, interface_entry, structure_entry};

use crate::class_tables::names::add_name;
use name_tables::NameIndex;
use room_ast::{ActorClass, InterfaceItem, Name, PortEntry, StructureItem};
use room_kinds::PortKind;
use std::alloc::{AllocError, Global};

/// The items of a class's Interface; none where it has none.
pub fn interface_items<'a>(class: &'a ActorClass) -> &'a [InterfaceItem]
    ensures { result.now ≡ interface_of (actor_view class.now) }
{
    match &class.interface {
        Some(items) => items.as_slice(),
        None => &[],
    }
}

/// The items of a class's Structure; none where it has none.
pub fn structure_items<'a>(class: &'a ActorClass) -> &'a [StructureItem]
    ensures { result.now ≡ structure_of (actor_view class.now) }
{
    match &class.structure {
        Some(items) => items.as_slice(),
        None => &[],
    }
}

// ---- names

/// The name that an item of an Interface declares.
pub fn interface_name<'a>(item: &'a InterfaceItem) -> &'a [u8]
    ensures { result.now ≡ interface_name item.now }
{
    match item {
        InterfaceItem::Port(p) => p.name.as_bytes(),
        InterfaceItem::Service(s) => s.name.as_bytes(),
    }
}

fn structure_name<'a>(item: &'a StructureItem) -> Option<&'a Name>
    ensures { option_map (λ n. n.now) result ≡ structure_name item.now }
{
    match item {
        StructureItem::Port(p) => Some(&p.name),
        StructureItem::Access(s) => Some(&s.name),
        _ => None,
    }
}

fn external_name<'a>(item: &'a StructureItem) -> Option<&'a Name>
    ensures { option_map (λ n. n.now) result ≡ external_name item.now }
{
    match item {
        StructureItem::External(e) => Some(&e.name),
        _ => None,
    }
}

/// The names of `frame` and of the ports of an Interface.
fn interface_names<'a>(
    alloc: Global,
    items: &'a [InterfaceItem],
) -> Result<Vec<&'a [u8]>, AllocError>
    ensures { IfOk result (λ v. names_of v.items ≡ frame_name ∷ map interface_name items.now) }
{
    let mut names = Vec::with_capacity(alloc, items.len() + 1)?;
    names.push(b"frame".as_slice())?;
    for item in items {
        names.push(interface_name(item))?;
    }
    Ok(names)
}

/// The names of a class's ports, by number.
pub(crate) fn port_names<'a>(
    alloc: Global,
    interface: &'a [InterfaceItem],
    structure: &'a [StructureItem],
) -> Result<Vec<&'a [u8]>, AllocError>
    ensures { IfOk result (λ v. names_of v.items ≡ (frame_name ∷ map interface_name interface.now) ++ filter_map structure_name structure.now) }
{
    let mut names = interface_names(alloc, interface)?;
    for item in structure {
        add_name(&mut names, structure_name(item))?;
    }
    Ok(names)
}

/// The names of the ports that a Structure declares as external, in their order.
pub fn external_names<'a>(
    alloc: Global,
    items: &'a [StructureItem],
) -> Result<Vec<&'a [u8]>, AllocError>
    ensures { IfOk result (λ v. names_of v.items ≡ filter_map external_name items.now) }
{
    let mut names = Vec::new(alloc);
    for item in items {
        add_name(&mut names, external_name(item))?;
    }
    Ok(names)
}

// ---- entries

/// Adds an item, if there is one.
pub fn push_if<T: Drop>(items: &mut Vec<T>, item: Option<T>) -> Result<(), AllocError>
    ensures { OnOk result (items.new.items ≡ items.old.items ++ option_to_list item) }
{
    if let Some(item) = item {
        items.push(item)?;
    }
    Ok(())
}

fn interface_kind(name: &[u8], externals: &NameIndex) -> PortKind
    ensures { result ≡ interface_kind externals.now name.now }
{
    if externals.has(name) {
        PortKind::End
    } else {
        PortKind::Relay
    }
}

fn interface_entry(item: &InterfaceItem, protocols: &NameIndex, externals: &NameIndex) -> PortEntry
    ensures { result ≡ interface_entry protocols.now externals.now item.now }
{
    match item {
        InterfaceItem::Port(p) => PortEntry {
            kind: interface_kind(p.name.as_bytes(), externals),
            conjugated: p.conjugated,
            places: p.places,
            protocol: protocols.place_of(p.protocol.as_bytes()),
        },
        InterfaceItem::Service(s) => PortEntry {
            kind: PortKind::Spp,
            conjugated: false,
            places: None,
            protocol: protocols.place_of(s.protocol.as_bytes()),
        },
    }
}

fn structure_entry(item: &StructureItem, protocols: &NameIndex) -> Option<PortEntry>
    ensures { result ≡ structure_entry protocols.now item.now }
{
    match item {
        StructureItem::Port(p) => Some(PortEntry {
            kind: PortKind::Internal,
            conjugated: p.conjugated,
            places: p.places,
            protocol: protocols.place_of(p.protocol.as_bytes()),
        }),
        StructureItem::Access(s) => Some(PortEntry {
            kind: PortKind::Sap,
            conjugated: true,
            places: None,
            protocol: protocols.place_of(s.protocol.as_bytes()),
        }),
        _ => None,
    }
}

/// The built-in port of the frame service.
const FRAME: PortEntry = PortEntry {
    kind: PortKind::Frame,
    conjugated: false,
    places: None,
    protocol: None,
};

/// The entries of `frame` and of the ports of an Interface.
fn interface_entries(
    alloc: Global,
    items: &[InterfaceItem],
    protocols: &NameIndex,
    externals: &NameIndex,
) -> Result<Vec<PortEntry>, AllocError>
    ensures { IfOk result (λ v. v.items ≡ frame_entry ∷ map (interface_entry protocols.now externals.now) items.now) }
{
    let mut ports = Vec::with_capacity(alloc, items.len() + 1)?;
    ports.push(FRAME)?;
    for item in items {
        ports.push(interface_entry(item, protocols, externals))?;
    }
    Ok(ports)
}

/// The entries of `frame` and of the ports of an Interface, beside which this Structure stands.
fn entries_beside(
    alloc: Global,
    interface: &[InterfaceItem],
    structure: &[StructureItem],
    protocols: &NameIndex,
) -> Result<Vec<PortEntry>, AllocError>
    ensures { IfOk result (λ v. v.items ≡ frame_entry ∷ map (interface_entry protocols.now (filter_map external_name structure.now)) interface.now) }
{
    let externals = NameIndex::of(alloc, external_names(alloc, structure)?)?;
    interface_entries(alloc, interface, protocols, &externals)
}

/// The entries of a class's ports, by number.
pub(crate) fn port_entries(
    alloc: Global,
    interface: &[InterfaceItem],
    structure: &[StructureItem],
    protocols: &NameIndex,
) -> Result<Vec<PortEntry>, AllocError>
    ensures { IfOk result (λ v. v.items ≡ (frame_entry ∷ map (interface_entry protocols.now (filter_map external_name structure.now)) interface.now) ++ filter_map (structure_entry protocols.now) structure.now) }
{
    let mut ports = entries_beside(alloc, interface, structure, protocols)?;
    for item in structure {
        push_if(&mut ports, structure_entry(item, protocols))?;
    }
    Ok(ports)
}
