//! The tokens of classes and of a model.
ghost use Rattle.std.specs.Prelude.{◌≡◌, ◌-◌, length, map};
ghost use Rattle.room_ast.specs.Tokens.{maybe, each, extends, all_if, actor_class, behavior, class_tokens, data_class, import_tokens, interface, protocol_class, structure, subsystem, subsystem_ref, system};
ghost use Rattle.room_ast.specs.Trees.{actor_view, behavior_view, class_view, model_view, subsystem_view};
ghost use Rattle.room_inherit.specs.Rules.{tokens_are_few};

use crate::counting::charts::{less_dotted, less_items};
use crate::counting::codes::{less_flag, less_times};
use crate::counting::parts::{less_data_items, less_interface, less_structure};
use crate::counting::systems::{
    less_incoming_if, less_outgoing_if, less_subsystem_items, less_usercodes,
};
use room_ast::{
    ActorClass, Behavior, Class, Import, InterfaceItem, Model, Name, ProtocolClass, StructureItem,
    SubsystemRef,
};
use room_kinds::Sequence;

/// One more than a flat model has at most.
pub(crate) const TOO_MANY: usize = 2_000_001;

fn less_interface_if(left: usize, items: &Option<Sequence<InterfaceItem>>) -> usize
    ensures { result ≡ left - length (maybe interface items.now) }
{
    match items {
        Some(items) => less_interface(left.saturating_sub(3), items.as_slice()),
        None => left,
    }
}

fn less_structure_if(left: usize, items: &Option<Sequence<StructureItem>>) -> usize
    ensures { result ≡ left - length (maybe structure items.now) }
{
    match items {
        Some(items) => less_structure(left.saturating_sub(3), items.as_slice()),
        None => left,
    }
}

fn less_behavior(left: usize, b: &Behavior) -> usize
    ensures { result ≡ left - length (behavior (behavior_view b.now)) }
{
    match &b.machine {
        Some(machine) => less_items(left.saturating_sub(6), &machine.items),
        None => left.saturating_sub(3),
    }
}

fn less_base_if(left: usize, base: &Option<Name>) -> usize
    ensures { result ≡ left - length (maybe extends base.now) }
{
    match base {
        Some(_) => left.saturating_sub(2),
        None => left,
    }
}

/// The tokens of an actor class.
pub(crate) fn less_actor(left: usize, a: &ActorClass) -> usize
    ensures { result ≡ left - length (actor_class (actor_view a.now)) }
{
    let left = less_flag(left.saturating_sub(4), a.event_driven);
    let left = less_base_if(left, &a.base);
    let left = less_interface_if(left, &a.interface);
    let left = less_structure_if(left, &a.structure);
    match &a.behavior {
        Some(behavior) => less_behavior(left, behavior),
        None => left,
    }
}

fn less_protocol(left: usize, p: &ProtocolClass) -> usize
    ensures { result ≡ left - length (protocol_class p.now) }
{
    let left = less_flag(left.saturating_sub(4), p.event_driven);
    let left = less_usercodes(left, p.usercodes.as_slice());
    let left = less_incoming_if(left, &p.incoming);
    less_outgoing_if(left, &p.outgoing)
}

#[tactic(auto, using(crate::proofs::Counts::count_references))]
fn less_references(left: usize, references: &Sequence<SubsystemRef>) -> usize
    ensures { result ≡ left - length (each subsystem_ref references.now) }
{
    less_times(left, 4, references.len())
}

fn less_class(left: usize, class: &Class) -> usize
    ensures { result ≡ left - length (class_tokens (class_view class.now)) }
{
    match class {
        Class::System(s) => less_references(left.saturating_sub(4), &s.references),
        Class::Subsystem(s) => less_subsystem_items(left.saturating_sub(4), s.items.as_slice()),
        Class::Actor(a) => less_actor(left, a),
        Class::Protocol(p) => less_protocol(left, p),
        Class::Data(d) => less_data_items(left.saturating_sub(4), d.items.as_slice()),
    }
}

fn less_classes(left: usize, classes: &[Class]) -> usize
    ensures { result ≡ left - length (each class_tokens (map class_view classes.now)) }
{
    let mut left = left;
    for class in classes {
        left = less_class(left, class);
    }
    left
}

fn less_all(left: usize, all: bool) -> usize
    ensures { result ≡ left - length (all_if all) }
{
    if all { left.saturating_sub(2) } else { left }
}

fn less_import(left: usize, i: &Import) -> usize
    ensures { result ≡ left - length (import_tokens i.now) }
{
    let left = less_dotted(left.saturating_sub(1), &i.path);
    let left = less_all(left, i.all);
    match &i.source {
        Some(source) => less_flag(left.saturating_sub(1), source.has_word),
        None => left,
    }
}

fn less_imports(left: usize, imports: &[Import]) -> usize
    ensures { result ≡ left - length (each import_tokens imports.now) }
{
    let mut left = left;
    for import in imports {
        left = less_import(left, import);
    }
    left
}

/// Whether a model has at most 2,000,000 tokens.
pub(crate) fn is_small(model: &Model) -> bool
    ensures { result ≡ tokens_are_few (model_view model.now) }
{
    let left = less_dotted(TOO_MANY.saturating_sub(3), &model.name);
    let left = less_imports(left, model.imports.as_slice());
    less_classes(left, model.classes.as_slice()) > 0
}
