//! What a class knows of its ports and references.

ghost use Rattle.std.specs.Prelude.{◌≡◌, IfOk, map};
ghost use Rattle.std.specs.List.{filter_map};
ghost use Rattle.room_ast.specs.Trees.{actor_view, subsystem_item_view};
ghost use Rattle.room_ast.specs.model_parts.Ports.{names_in, ports_in};
ghost use Rattle.room_ast.specs.model_parts.References.{references_in, as_subsystem_reference, names_of_references, reference_entry};
ghost use Rattle.check_tables.specs.class_tables.Containers.{actor_container, container_in, container_of_items};

use crate::class_tables::ports::{interface_items, port_entries, port_names, structure_items};
use crate::class_tables::references::{
    reference_entries, reference_names, subsystem_reference_entries, subsystem_reference_names,
};
use name_tables::NameIndex;
use room_ast::{
    ActorClass, InterfaceItem, PortEntry, ReferenceEntry, StructureItem, SubsystemItem,
};
use room_kinds::Sequence;
use std::alloc::{AllocError, Global};

/// The ports and references of an actor class or a subsystem class, by number. A subsystem class has
/// no ports.
#[derive(Drop)]
pub struct Container<'a> {
    /// The names of the ports; an actor class's first is `frame`.
    pub port_names: NameIndex<'a>,
    pub ports: Sequence<PortEntry>,
    pub reference_names: NameIndex<'a>,
    pub references: Sequence<ReferenceEntry>,
}

#[tactic(auto, unfolding(room_ast::specs::model_parts::Ports::names_in))]
fn port_index<'a>(
    alloc: Global,
    interface: &'a [InterfaceItem],
    structure: &'a [StructureItem],
) -> Result<NameIndex<'a>, AllocError>
    ensures { IfOk result (λ n. n ≡ names_in interface.now structure.now) }
{
    let names = port_names(alloc, interface, structure)?;
    NameIndex::of(alloc, names)
}

#[tactic(auto, unfolding(room_ast::specs::model_parts::Ports::ports_in))]
fn port_table(
    alloc: Global,
    interface: &[InterfaceItem],
    structure: &[StructureItem],
    protocols: &NameIndex,
) -> Result<Sequence<PortEntry>, AllocError>
    ensures { IfOk result (λ ps. ps ≡ ports_in protocols.now interface.now structure.now) }
{
    let mut ports = port_entries(alloc, interface, structure, protocols)?;
    ports.shrink_to_fit();
    Ok(Sequence::from(ports))
}

fn reference_index<'a>(
    alloc: Global,
    structure: &'a [StructureItem],
) -> Result<NameIndex<'a>, AllocError>
    ensures { IfOk result (λ n. n ≡ names_of_references (references_in structure.now)) }
{
    let names = reference_names(alloc, structure)?;
    NameIndex::of(alloc, names)
}

fn reference_table(
    alloc: Global,
    structure: &[StructureItem],
    actors: &NameIndex,
) -> Result<Sequence<ReferenceEntry>, AllocError>
    ensures { IfOk result (λ rs. rs ≡ map (reference_entry actors.now) (references_in structure.now)) }
{
    let mut references = reference_entries(alloc, structure, actors)?;
    references.shrink_to_fit();
    Ok(Sequence::from(references))
}

/// What a class with these items in its Interface and its Structure knows of its ports and
/// references.
fn container_of<'a>(
    alloc: Global,
    interface: &'a [InterfaceItem],
    structure: &'a [StructureItem],
    protocols: &NameIndex,
    actors: &NameIndex,
) -> Result<Container<'a>, AllocError>
    ensures { IfOk result (λ c. c ≡ container_in protocols.now actors.now interface.now structure.now) }
{
    let ports = port_table(alloc, interface, structure, protocols)?;
    let references = reference_table(alloc, structure, actors)?;
    let port_names = port_index(alloc, interface, structure)?;
    let reference_names = reference_index(alloc, structure)?;
    Ok(Container {
        port_names,
        ports,
        reference_names,
        references,
    })
}

/// What an actor class knows of its ports and references.
pub(crate) fn actor_container<'a>(
    alloc: Global,
    class: &'a ActorClass,
    protocols: &NameIndex,
    actors: &NameIndex,
) -> Result<Container<'a>, AllocError>
    ensures { IfOk result (λ c. c ≡ actor_container protocols.now actors.now (actor_view class.now)) }
{
    container_of(
        alloc,
        interface_items(class),
        structure_items(class),
        protocols,
        actors,
    )
}

fn subsystem_index<'a>(
    alloc: Global,
    items: &'a [SubsystemItem],
) -> Result<NameIndex<'a>, AllocError>
    ensures { IfOk result (λ n. n ≡ names_of_references (filter_map as_subsystem_reference (map subsystem_item_view items.now))) }
{
    let names = subsystem_reference_names(alloc, items)?;
    NameIndex::of(alloc, names)
}

fn subsystem_table(
    alloc: Global,
    items: &[SubsystemItem],
    actors: &NameIndex,
) -> Result<Sequence<ReferenceEntry>, AllocError>
    ensures { IfOk result (λ rs. rs ≡ map (reference_entry actors.now) (filter_map as_subsystem_reference (map subsystem_item_view items.now))) }
{
    let references = subsystem_reference_entries(alloc, items, actors)?;
    Ok(Sequence::from(references))
}

/// What a subsystem class knows of its references.
pub(crate) fn subsystem_container<'a>(
    alloc: Global,
    items: &'a [SubsystemItem],
    actors: &NameIndex,
) -> Result<Container<'a>, AllocError>
    ensures { IfOk result (λ c. c ≡ container_of_items actors.now (map subsystem_item_view items.now)) }
{
    let references = subsystem_table(alloc, items, actors)?;
    let port_names = NameIndex::of(alloc, Vec::new(alloc))?;
    let reference_names = subsystem_index(alloc, items)?;
    Ok(Container {
        port_names,
        ports: Sequence::new(alloc),
        reference_names,
        references,
    })
}
