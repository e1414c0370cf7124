//! The rules on what ports and references name.

ghost use Rattle.std.specs.Prelude.{◌≡◌, IfOk, map, option_map};
ghost use Rattle.std.specs.List.{list_all, filter_map};
ghost use Rattle.name_tables.specs.name_numbers.Names.{names_of, is_among};
ghost use Rattle.room_ast.specs.Trees.{class_view, actor_view, model_view, subsystem_item_view};
ghost use Rattle.room_ast.specs.model_parts.Ports.{external_name};
ghost use Rattle.check_tables.specs.class_tables.Containers.{tables_of};
ghost use Rattle.check_classes.specs.class_rules.Ends.{interface_has_protocol, structure_has_protocol, ports_have_protocols, has_known_protocols, interface_port, interface_service, implemented_name, each_once_among, repeats_ports, has_own_ports, structure_has_class, subsystem_has_class, references_have_classes, has_known_actors};
ghost use Rattle.check_classes.specs.class_rules.Loops.{of_actor};

use check_tables::{Tables, add_name, external_names, interface_items, structure_items};
use name_tables::{NameIndex, are_distinct};
use room_ast::{ActorClass, Class, InterfaceItem, Model, Name, StructureItem, SubsystemItem};
use std::alloc::{AllocError, Global};

// ---- protocols

fn interface_has_protocol(item: &InterfaceItem, protocols: &NameIndex) -> bool
    ensures { result ≡ interface_has_protocol protocols.now item.now }
{
    match item {
        InterfaceItem::Port(p) => protocols.has(p.protocol.as_bytes()),
        InterfaceItem::Service(s) => protocols.has(s.protocol.as_bytes()),
    }
}

fn structure_has_protocol(item: &StructureItem, protocols: &NameIndex) -> bool
    ensures { result ≡ structure_has_protocol protocols.now item.now }
{
    match item {
        StructureItem::Port(p) => protocols.has(p.protocol.as_bytes()),
        StructureItem::Access(s) => protocols.has(s.protocol.as_bytes()),
        _ => true,
    }
}

fn interface_has_protocols(items: &[InterfaceItem], protocols: &NameIndex) -> bool
    ensures { result ≡ list_all (interface_has_protocol protocols.now) items.now }
{
    items
        .iter()
        .all(|item| interface_has_protocol(item, protocols))
}

fn structure_has_protocols(items: &[StructureItem], protocols: &NameIndex) -> bool
    ensures { result ≡ list_all (structure_has_protocol protocols.now) items.now }
{
    items
        .iter()
        .all(|item| structure_has_protocol(item, protocols))
}

fn ports_have_protocols(class: &Class, protocols: &NameIndex) -> bool
    ensures { result ≡ ports_have_protocols protocols.now (class_view class.now) }
{
    match class {
        Class::Actor(a) => {
            interface_has_protocols(interface_items(a), protocols)
                && structure_has_protocols(structure_items(a), protocols)
        }
        Class::System(_) => true,
        Class::Subsystem(_) => true,
        Class::Protocol(_) => true,
        Class::Data(_) => true,
    }
}

fn each_has_protocols(classes: &[Class], protocols: &NameIndex) -> bool
    ensures { result
        ≡ list_all (λ c. ports_have_protocols protocols.now (class_view c)) classes.now }
{
    classes
        .iter()
        .all(|class| ports_have_protocols(class, protocols))
}

#[tactic(auto, using(crate::proofs::class_rules::Views::test_viewed))]
fn have_protocols(classes: &[Class], protocols: &NameIndex) -> bool
    ensures { result ≡ list_all (ports_have_protocols protocols.now) (map class_view classes.now) }
{
    each_has_protocols(classes, protocols)
}

/// Whether every port, service access point and service provision point names a protocol class.
pub fn has_known_protocols(model: &Model, tables: &Tables) -> bool
    requires { tables.now ≡ tables_of (model_view model.now) }
    ensures { result ≡ has_known_protocols (model_view model.now) }
{
    have_protocols(model.classes.as_slice(), &tables.names.protocols)
}

// ---- actor classes of references

fn structure_has_class(item: &StructureItem, actors: &NameIndex) -> bool
    ensures { result ≡ structure_has_class actors.now item.now }
{
    match item {
        StructureItem::Reference(r) => actors.has(r.class.as_bytes()),
        _ => true,
    }
}

fn subsystem_has_class(item: &SubsystemItem, actors: &NameIndex) -> bool
    ensures { result ≡ subsystem_has_class actors.now (subsystem_item_view item.now) }
{
    match item {
        SubsystemItem::Reference(r) => actors.has(r.class.as_bytes()),
        _ => true,
    }
}

fn structure_has_classes(items: &[StructureItem], actors: &NameIndex) -> bool
    ensures { result ≡ list_all (structure_has_class actors.now) items.now }
{
    items.iter().all(|item| structure_has_class(item, actors))
}

fn each_has_class(items: &[SubsystemItem], actors: &NameIndex) -> bool
    ensures { result
        ≡ list_all (λ i. subsystem_has_class actors.now (subsystem_item_view i)) items.now }
{
    items.iter().all(|item| subsystem_has_class(item, actors))
}

#[tactic(auto, using(crate::proofs::class_rules::Views::test_viewed))]
fn subsystem_has_classes(items: &[SubsystemItem], actors: &NameIndex) -> bool
    ensures { result
        ≡ list_all (subsystem_has_class actors.now) (map subsystem_item_view items.now) }
{
    each_has_class(items, actors)
}

fn references_have_classes(class: &Class, actors: &NameIndex) -> bool
    ensures { result ≡ references_have_classes actors.now (class_view class.now) }
{
    match class {
        Class::Actor(a) => structure_has_classes(structure_items(a), actors),
        Class::Subsystem(s) => subsystem_has_classes(s.items.as_slice(), actors),
        Class::System(_) => true,
        Class::Protocol(_) => true,
        Class::Data(_) => true,
    }
}

fn each_has_classes(classes: &[Class], actors: &NameIndex) -> bool
    ensures { result
        ≡ list_all (λ c. references_have_classes actors.now (class_view c)) classes.now }
{
    classes
        .iter()
        .all(|class| references_have_classes(class, actors))
}

#[tactic(auto, using(crate::proofs::class_rules::Views::test_viewed))]
fn have_classes(classes: &[Class], actors: &NameIndex) -> bool
    ensures { result ≡ list_all (references_have_classes actors.now) (map class_view classes.now) }
{
    each_has_classes(classes, actors)
}

/// Whether every actor reference names an actor class.
pub fn has_known_actors(model: &Model, tables: &Tables) -> bool
    requires { tables.now ≡ tables_of (model_view model.now) }
    ensures { result ≡ has_known_actors (model_view model.now) }
{
    have_classes(model.classes.as_slice(), &tables.names.actors)
}

// ---- external ports and implementations

fn implemented_name<'a>(item: &'a StructureItem) -> Option<&'a Name>
    ensures { option_map (λ n. n.now) result ≡ implemented_name item.now }
{
    match item {
        StructureItem::Implementation(i) => Some(&i.name),
        _ => None,
    }
}

fn interface_port<'a>(item: &'a InterfaceItem) -> Option<&'a Name>
    ensures { option_map (λ n. n.now) result ≡ interface_port item.now }
{
    match item {
        InterfaceItem::Port(p) => Some(&p.name),
        InterfaceItem::Service(_) => None,
    }
}

fn interface_service<'a>(item: &'a InterfaceItem) -> Option<&'a Name>
    ensures { option_map (λ n. n.now) result ≡ interface_service item.now }
{
    match item {
        InterfaceItem::Service(s) => Some(&s.name),
        InterfaceItem::Port(_) => None,
    }
}

fn implemented_names<'a>(
    alloc: Global,
    items: &'a [StructureItem],
) -> Result<Vec<&'a [u8]>, AllocError>
    ensures { IfOk result (λ v. names_of v.items ≡ filter_map implemented_name items.now) }
{
    let mut names = Vec::new(alloc);
    for item in items {
        add_name(&mut names, implemented_name(item))?;
    }
    Ok(names)
}

fn interface_ports<'a>(
    alloc: Global,
    items: &'a [InterfaceItem],
) -> Result<Vec<&'a [u8]>, AllocError>
    ensures { IfOk result (λ v. names_of v.items ≡ filter_map interface_port items.now) }
{
    let mut names = Vec::new(alloc);
    for item in items {
        add_name(&mut names, interface_port(item))?;
    }
    Ok(names)
}

fn interface_services<'a>(
    alloc: Global,
    items: &'a [InterfaceItem],
) -> Result<Vec<&'a [u8]>, AllocError>
    ensures { IfOk result (λ v. names_of v.items ≡ filter_map interface_service items.now) }
{
    let mut names = Vec::new(alloc);
    for item in items {
        add_name(&mut names, interface_service(item))?;
    }
    Ok(names)
}

fn each_is_among(names: &[&[u8]], all: &NameIndex) -> bool
    ensures { result ≡ list_all (λ n. is_among all.now n.now) names.now }
{
    names.iter().all(|name| all.has(name))
}

#[tactic(auto, using(crate::proofs::class_rules::Views::test_named))]
fn are_among(names: &[&[u8]], all: &NameIndex) -> bool
    ensures { result ≡ list_all (is_among all.now) (names_of names.now) }
{
    each_is_among(names, all)
}

/// Whether each of the names is one of the second ones, and stands once.
#[tactic(auto, unfolding(crate::specs::class_rules::Ends::each_once_among))]
fn each_once_among<'a>(
    alloc: Global,
    names: &[&'a [u8]],
    all: Vec<&'a [u8]>,
) -> Result<bool, AllocError>
    ensures { IfOk result (λ b.
        b ≡ each_once_among (names_of names.now) (names_of all.entry.items)) }
{
    let all = NameIndex::of(alloc, all)?;
    let distinct = are_distinct(alloc, names)?;
    Ok(distinct && are_among(names, &all))
}

fn repeats_external_ports(
    alloc: Global,
    interface: &[InterfaceItem],
    structure: &[StructureItem],
) -> Result<bool, AllocError>
    ensures { IfOk result (λ b.
        b ≡ each_once_among (filter_map external_name structure.now) (filter_map interface_port
        interface.now)) }
{
    let names = external_names(alloc, structure)?;
    let all = interface_ports(alloc, interface)?;
    each_once_among(alloc, names.as_slice(), all)
}

fn implements_services(
    alloc: Global,
    interface: &[InterfaceItem],
    structure: &[StructureItem],
) -> Result<bool, AllocError>
    ensures { IfOk result (λ b.
        b ≡ each_once_among (filter_map implemented_name structure.now) (filter_map
        interface_service interface.now)) }
{
    let names = implemented_names(alloc, structure)?;
    let all = interface_services(alloc, interface)?;
    each_once_among(alloc, names.as_slice(), all)
}

fn repeats_ports(alloc: Global, class: &ActorClass) -> Result<bool, AllocError>
    ensures { IfOk result (λ b. b ≡ repeats_ports (actor_view class.now)) }
{
    let (interface, structure) = (interface_items(class), structure_items(class));
    let external = repeats_external_ports(alloc, interface, structure)?;
    let implemented = implements_services(alloc, interface, structure)?;
    Ok(external && implemented)
}

fn class_repeats_ports(alloc: Global, class: &Class) -> Result<bool, AllocError>
    ensures { IfOk result (λ b. b ≡ of_actor repeats_ports (class_view class.now)) }
{
    match class {
        Class::Actor(a) => repeats_ports(alloc, a),
        _ => Ok(true),
    }
}

fn all_repeat_ports(alloc: Global, classes: &[Class]) -> Result<bool, AllocError>
    ensures { IfOk result (λ b.
        b ≡ list_all (of_actor repeats_ports) (map class_view classes.now)) }
{
    for class in classes {
        if !class_repeats_ports(alloc, class)? {
            return Ok(false);
        }
    }
    Ok(true)
}

/// Whether every `external Port` names a port of the Interface, and every `ServiceImplementation` a
/// service provision point, each at most once.
#[tactic(auto, using(crate::proofs::class_rules::Views::of_actors), unfolding(crate::specs::class_rules::Ends::has_own_ports))]
pub fn has_own_ports(alloc: Global, model: &Model) -> Result<bool, AllocError>
    ensures { IfOk result (λ b. b ≡ has_own_ports (model_view model.now)) }
{
    all_repeat_ports(alloc, model.classes.as_slice())
}
