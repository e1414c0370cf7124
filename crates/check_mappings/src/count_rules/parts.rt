//! The numbers of classes, and of messages, ports, references and states in a class.

ghost use Rattle.std.specs.Prelude.{◌≡◌, ◌+◌, nat_le, length, map, unwrap_or, [], count_by};
ghost use Rattle.std.specs.List.{list_all, filter_map};
ghost use Rattle.room_ast.specs.Trees.{class_view, actor_view, subsystem_view, subsystem_item_view, AnActor};
ghost use Rattle.room_ast.specs.model_parts.Ports.{structure_name};
ghost use Rattle.room_ast.specs.model_parts.References.{as_reference, as_subsystem_reference};
ghost use Rattle.check_mappings.specs.count_rules.Counts.{is_counted, classes_are_few, messages_are_few, ports_are_few, references_are_few, subsystem_references_are_few, states_are_few, parts_are_few};
ghost use Rattle.check_mappings.specs.count_rules.Counting.{is_port, is_reference, is_subsystem_reference};

use crate::count_rules::states::state_count;
use check_tables::{interface_items, structure_items};
use room_ast::{
    ActorClass, Class, Message, ProtocolClass, StructureItem, Subsystem, SubsystemItem,
};
use room_kinds::Sequence;

/// The most classes of a model, messages of a protocol class, ports or references of a class, and
/// states of a chart.
const MOST: usize = 60_000;

/// Whether two numbers are few together.
fn few_together(a: usize, b: usize) -> bool
    ensures { result ≡ nat_le (a + b) 60000 }
{
    a <= MOST && b <= MOST - a
}

// ---- classes

fn is_counted(class: &Class) -> bool
    ensures { result ≡ is_counted (class_view class.now) }
{
    match class {
        Class::System(_) => false,
        Class::Subsystem(_) => true,
        Class::Actor(_) => true,
        Class::Protocol(_) => true,
        Class::Data(_) => true,
    }
}

fn counted(classes: &[Class]) -> usize
    ensures { result ≡ count_by (λ c. is_counted (class_view c)) classes.now }
{
    let mut count = 0;
    for class in classes {
        if is_counted(class) {
            count += 1;
        }
    }
    count
}

#[tactic(auto, using(crate::proofs::count_rules::Views::count_viewed))]
pub(crate) fn classes_are_few(classes: &[Class]) -> bool
    ensures { result ≡ classes_are_few (map class_view classes.now) }
{
    counted(classes) <= MOST
}

// ---- protocol classes

/// How many messages one direction has; none where the direction isn't written.
fn message_count(messages: &Option<Sequence<Message>>) -> usize
    ensures { result ≡ length (unwrap_or messages.now []) }
{
    match messages {
        Some(messages) => messages.len(),
        None => 0,
    }
}

fn messages_are_few(class: &ProtocolClass) -> bool
    ensures { result ≡ messages_are_few class.now }
{
    few_together(
        message_count(&class.incoming),
        message_count(&class.outgoing),
    )
}

// ---- actor classes and subsystem classes

fn is_port(item: &StructureItem) -> bool
    ensures { result ≡ is_port item.now }
{
    matches!(item, StructureItem::Port(_) | StructureItem::Access(_))
}

#[tactic(auto, using(crate::proofs::count_rules::Views::count_picked))]
fn port_count(items: &[StructureItem]) -> usize
    ensures { result ≡ length (filter_map structure_name items.now) }
{
    items.iter().filter(|item| is_port(item)).count()
}

fn ports_are_few(class: &ActorClass) -> bool
    ensures { result ≡ ports_are_few (actor_view class.now) }
{
    few_together(
        interface_items(class).len(),
        port_count(structure_items(class)),
    )
}

fn is_reference(item: &StructureItem) -> bool
    ensures { result ≡ is_reference item.now }
{
    matches!(item, StructureItem::Reference(_))
}

#[tactic(auto, using(crate::proofs::count_rules::Views::count_picked))]
fn reference_count(items: &[StructureItem]) -> usize
    ensures { result ≡ length (filter_map as_reference items.now) }
{
    items.iter().filter(|item| is_reference(item)).count()
}

fn references_are_few(class: &ActorClass) -> bool
    ensures { result ≡ references_are_few (actor_view class.now) }
{
    reference_count(structure_items(class)) <= MOST
}

fn states_are_few(class: &ActorClass) -> bool
    ensures { result ≡ states_are_few (actor_view class.now) }
{
    state_count(class) <= MOST
}

fn actor_parts_are_few(class: &ActorClass) -> bool
    ensures { result ≡ parts_are_few (AnActor (actor_view class.now)) }
{
    ports_are_few(class) && references_are_few(class) && states_are_few(class)
}

fn is_subsystem_reference(item: &SubsystemItem) -> bool
    ensures { result ≡ is_subsystem_reference (subsystem_item_view item.now) }
{
    matches!(item, SubsystemItem::Reference(_))
}

#[tactic(auto, using(crate::proofs::count_rules::Views::count_viewed_picked))]
fn subsystem_reference_count(items: &[SubsystemItem]) -> usize
    ensures { result
        ≡ length (filter_map as_subsystem_reference (map subsystem_item_view items.now)) }
{
    items
        .iter()
        .filter(|item| is_subsystem_reference(item))
        .count()
}

fn subsystem_references_are_few(class: &Subsystem) -> bool
    ensures { result ≡ subsystem_references_are_few (subsystem_view class.now) }
{
    subsystem_reference_count(class.items.as_slice()) <= MOST
}

// ---- any class

fn parts_are_few(class: &Class) -> bool
    ensures { result ≡ parts_are_few (class_view class.now) }
{
    match class {
        Class::System(_) => true,
        Class::Subsystem(s) => subsystem_references_are_few(s),
        Class::Actor(a) => actor_parts_are_few(a),
        Class::Protocol(p) => messages_are_few(p),
        Class::Data(_) => true,
    }
}

fn each_has_few(classes: &[Class]) -> bool
    ensures { result ≡ list_all (λ c. parts_are_few (class_view c)) classes.now }
{
    classes.iter().all(|class| parts_are_few(class))
}

#[tactic(auto, using(check_classes::proofs::class_rules::Views::test_viewed))]
pub(crate) fn all_have_few(classes: &[Class]) -> bool
    ensures { result ≡ list_all parts_are_few (map class_view classes.now) }
{
    each_has_few(classes)
}
