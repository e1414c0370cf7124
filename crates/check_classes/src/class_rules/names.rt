//! The rules on names.

ghost use Rattle.std.specs.Prelude.{◌≡◌, ◌++◌, not, IfOk, map, option_map};
ghost use Rattle.std.specs.List.{list_all, list_any, filter_map};
ghost use Rattle.name_tables.specs.name_numbers.Names.{same, names_of, is_among};
ghost use Rattle.room_ast.specs.Trees.{class_view, actor_view, model_view};
ghost use Rattle.room_ast.specs.model_parts.Classes.{class_name};
ghost use Rattle.room_ast.specs.model_parts.Ports.{interface_name};
ghost use Rattle.room_ast.specs.model_parts.Types.{as_field};
ghost use Rattle.name_tables.specs.reserved_names.Words.{type_names, part_words};
ghost use Rattle.check_classes.specs.class_rules.Names.{has_class_names, declared_name, part_names, are_part_names, actor_has_names, has_part_names, message_names, protocol_has_names, has_message_names, data_has_names, has_field_names};
ghost use Rattle.check_classes.specs.class_rules.Loops.{of_actor, of_protocol, of_data};

use check_tables::{add_name, interface_items, interface_name, messages_of, structure_items};
use name_tables::{are_distinct, is_part_word, is_type_name};
use room_ast::{
    ActorClass, Class, DataClass, DataItem, InterfaceItem, Message, Model, Name, ProtocolClass,
    StructureItem,
};
use std::alloc::{AllocError, Global};

// ---- words that no class and no part may be called

fn any_type_word(names: &[&[u8]]) -> bool
    ensures { result ≡ list_any (λ n. is_among type_names n.now) names.now }
{
    names.iter().any(|name| is_type_name(name))
}

#[tactic(auto, using(crate::proofs::class_rules::Views::test_any_named))]
fn has_type_word(names: &[&[u8]]) -> bool
    ensures { result ≡ list_any (is_among type_names) (names_of names.now) }
{
    any_type_word(names)
}

fn any_part_word(names: &[&[u8]]) -> bool
    ensures { result ≡ list_any (λ n. is_among part_words n.now) names.now }
{
    names.iter().any(|name| is_part_word(name))
}

#[tactic(auto, using(crate::proofs::class_rules::Views::test_any_named))]
fn has_part_word(names: &[&[u8]]) -> bool
    ensures { result ≡ list_any (is_among part_words) (names_of names.now) }
{
    any_part_word(names)
}

// ---- classes

fn class_name<'a>(class: &'a Class) -> &'a [u8]
    ensures { result.now ≡ class_name (class_view class.now) }
{
    match class {
        Class::System(s) => s.name.as_bytes(),
        Class::Subsystem(s) => s.name.as_bytes(),
        Class::Actor(a) => a.name.as_bytes(),
        Class::Protocol(p) => p.name.as_bytes(),
        Class::Data(d) => d.name.as_bytes(),
    }
}

fn class_names<'a>(alloc: Global, classes: &'a [Class]) -> Result<Vec<&'a [u8]>, AllocError>
    ensures { IfOk result (λ v. names_of v.items ≡ map class_name (map class_view classes.now)) }
{
    let mut names = Vec::new(alloc);
    for class in classes {
        names.push(class_name(class))?;
    }
    Ok(names)
}

/// Whether the names of all classes and of the LogicalSystem are distinct, and none is the name of a
/// type of numbers.
#[tactic(auto, unfolding(crate::specs::class_rules::Names::has_class_names))]
pub fn has_class_names(alloc: Global, model: &Model) -> Result<bool, AllocError>
    ensures { IfOk result (λ b. b ≡ has_class_names (model_view model.now)) }
{
    let names = class_names(alloc, model.classes.as_slice())?;
    let distinct = are_distinct(alloc, names.as_slice())?;
    Ok(distinct && !has_type_word(names.as_slice()))
}

// ---- parts of actor classes

fn declared_name<'a>(item: &'a StructureItem) -> Option<&'a Name>
    ensures { option_map (λ n. n.now) result ≡ declared_name item.now }
{
    match item {
        StructureItem::Port(p) => Some(&p.name),
        StructureItem::Access(s) => Some(&s.name),
        StructureItem::Attribute(a) => Some(&a.name),
        StructureItem::Reference(r) => Some(&r.name),
        _ => None,
    }
}

fn interface_names<'a>(
    alloc: Global,
    items: &'a [InterfaceItem],
) -> Result<Vec<&'a [u8]>, AllocError>
    ensures { IfOk result (λ v. names_of v.items ≡ map interface_name items.now) }
{
    let mut names = Vec::new(alloc);
    for item in items {
        names.push(interface_name(item))?;
    }
    Ok(names)
}

/// The names of the parts of a class with these items.
fn part_names<'a>(
    alloc: Global,
    interface: &'a [InterfaceItem],
    structure: &'a [StructureItem],
) -> Result<Vec<&'a [u8]>, AllocError>
    ensures { IfOk result (λ v. names_of v.items ≡ part_names interface.now structure.now) }
{
    let mut names = interface_names(alloc, interface)?;
    for item in structure {
        add_name(&mut names, declared_name(item))?;
    }
    Ok(names)
}

#[tactic(auto, unfolding(crate::specs::class_rules::Names::are_part_names))]
fn are_part_names(alloc: Global, names: &[&[u8]]) -> Result<bool, AllocError>
    ensures { IfOk result (λ b. b ≡ are_part_names (names_of names.now)) }
{
    let distinct = are_distinct(alloc, names)?;
    Ok(distinct && !has_part_word(names))
}

fn actor_has_names(alloc: Global, class: &ActorClass) -> Result<bool, AllocError>
    ensures { IfOk result (λ b. b ≡ actor_has_names (actor_view class.now)) }
{
    let names = part_names(alloc, interface_items(class), structure_items(class))?;
    are_part_names(alloc, names.as_slice())
}

fn class_has_part_names(alloc: Global, class: &Class) -> Result<bool, AllocError>
    ensures { IfOk result (λ b. b ≡ of_actor actor_has_names (class_view class.now)) }
{
    match class {
        Class::Actor(a) => actor_has_names(alloc, a),
        _ => Ok(true),
    }
}

fn all_have_part_names(alloc: Global, classes: &[Class]) -> Result<bool, AllocError>
    ensures { IfOk result (λ b.
        b ≡ list_all (of_actor actor_has_names) (map class_view classes.now)) }
{
    for class in classes {
        if !class_has_part_names(alloc, class)? {
            return Ok(false);
        }
    }
    Ok(true)
}

/// Whether in each actor class the names of ports, service points, attributes and references are
/// distinct, and none is `frame` or a word of the action language.
#[tactic(auto, using(crate::proofs::class_rules::Views::of_actors), unfolding(crate::specs::class_rules::Names::has_part_names))]
pub fn has_part_names(alloc: Global, model: &Model) -> Result<bool, AllocError>
    ensures { IfOk result (λ b. b ≡ has_part_names (model_view model.now)) }
{
    all_have_part_names(alloc, model.classes.as_slice())
}

// ---- messages of protocol classes

fn names_of_messages<'a>(
    alloc: Global,
    messages: &'a [Message],
) -> Result<Vec<&'a [u8]>, AllocError>
    ensures { IfOk result (λ v. names_of v.items ≡ message_names messages.now) }
{
    let mut names = Vec::new(alloc);
    for message in messages {
        names.push(message.name.as_bytes())?;
    }
    Ok(names)
}

#[tactic(auto, using(crate::proofs::class_rules::Views::names_append))]
fn message_names<'a>(
    alloc: Global,
    incoming: &'a [Message],
    outgoing: &'a [Message],
) -> Result<Vec<&'a [u8]>, AllocError>
    ensures { IfOk result (λ v.
        names_of v.items ≡ message_names incoming.now ++ message_names outgoing.now) }
{
    let mut names = names_of_messages(alloc, incoming)?;
    let others = names_of_messages(alloc, outgoing)?;
    names.extend_from_slice(others.as_slice())?;
    Ok(names)
}

fn protocol_has_names(alloc: Global, class: &ProtocolClass) -> Result<bool, AllocError>
    ensures { IfOk result (λ b. b ≡ protocol_has_names class.now) }
{
    let names = message_names(
        alloc,
        messages_of(&class.incoming),
        messages_of(&class.outgoing),
    )?;
    are_distinct(alloc, names.as_slice())
}

fn class_has_message_names(alloc: Global, class: &Class) -> Result<bool, AllocError>
    ensures { IfOk result (λ b. b ≡ of_protocol protocol_has_names (class_view class.now)) }
{
    match class {
        Class::Protocol(p) => protocol_has_names(alloc, p),
        _ => Ok(true),
    }
}

fn all_have_message_names(alloc: Global, classes: &[Class]) -> Result<bool, AllocError>
    ensures { IfOk result (λ b.
        b ≡ list_all (of_protocol protocol_has_names) (map class_view classes.now)) }
{
    for class in classes {
        if !class_has_message_names(alloc, class)? {
            return Ok(false);
        }
    }
    Ok(true)
}

/// Whether in each protocol class the names of messages, both directions together, are distinct.
#[tactic(auto, using(crate::proofs::class_rules::Views::of_protocols), unfolding(crate::specs::class_rules::Names::has_message_names))]
pub fn has_message_names(alloc: Global, model: &Model) -> Result<bool, AllocError>
    ensures { IfOk result (λ b. b ≡ has_message_names (model_view model.now)) }
{
    all_have_message_names(alloc, model.classes.as_slice())
}

// ---- fields of data classes

fn field_name<'a>(item: &'a DataItem) -> Option<&'a Name>
    ensures { option_map (λ n. n.now) result ≡ option_map (λ f. f.name) (as_field item.now) }
{
    match item {
        DataItem::Attribute(a) => Some(&a.name),
        DataItem::Usercode(_) => None,
    }
}

fn field_names<'a>(alloc: Global, items: &'a [DataItem]) -> Result<Vec<&'a [u8]>, AllocError>
    ensures { IfOk result (λ v.
        names_of v.items ≡ map (λ f. f.name) (filter_map as_field items.now)) }
{
    let mut names = Vec::new(alloc);
    for item in items {
        add_name(&mut names, field_name(item))?;
    }
    Ok(names)
}

fn data_has_names(alloc: Global, class: &DataClass) -> Result<bool, AllocError>
    ensures { IfOk result (λ b. b ≡ data_has_names class.now) }
{
    let names = field_names(alloc, class.items.as_slice())?;
    are_distinct(alloc, names.as_slice())
}

fn class_has_field_names(alloc: Global, class: &Class) -> Result<bool, AllocError>
    ensures { IfOk result (λ b. b ≡ of_data data_has_names (class_view class.now)) }
{
    match class {
        Class::Data(d) => data_has_names(alloc, d),
        _ => Ok(true),
    }
}

fn all_have_field_names(alloc: Global, classes: &[Class]) -> Result<bool, AllocError>
    ensures { IfOk result (λ b.
        b ≡ list_all (of_data data_has_names) (map class_view classes.now)) }
{
    for class in classes {
        if !class_has_field_names(alloc, class)? {
            return Ok(false);
        }
    }
    Ok(true)
}

/// Whether in each data class the names of fields are distinct.
#[tactic(auto, using(crate::proofs::class_rules::Views::of_datas), unfolding(crate::specs::class_rules::Names::has_field_names))]
pub fn has_field_names(alloc: Global, model: &Model) -> Result<bool, AllocError>
    ensures { IfOk result (λ b. b ≡ has_field_names (model_view model.now)) }
{
    all_have_field_names(alloc, model.classes.as_slice())
}
