//! The tokens of interfaces, structures and data classes.
ghost use Rattle.std.specs.Prelude.{◌≡◌, ◌-◌, length};
ghost use Rattle.room_ast.specs.Tokens.{maybe, each, empty_string, usercode, attribute, equals_value, port, interface_item, structure_item, actor_ref, ref_kind, binding, side, data_item};

use crate::counting::codes::less_flag;
use room_ast::{
    ActorRef, Attribute, Binding, DataItem, EmptyString, InterfaceItem, Places, PlainValue, Port,
    Side, StructureItem, Usercode, Value,
};
use room_kinds::{ReferenceKind, Sequence};

#[tactic(auto, using(crate::proofs::Counts::count_strings))]
fn less_strings(left: usize, strings: &Sequence<EmptyString>) -> usize
    ensures { result ≡ left - length (each empty_string strings.now) }
{
    left.saturating_sub(strings.len())
}

pub(super) fn less_usercode(left: usize, u: &Usercode) -> usize
    ensures { result ≡ left - length (usercode u.now) }
{
    less_strings(left.saturating_sub(3), &u.strings)
}

fn less_value_if(left: usize, v: &Option<Value>) -> usize
    ensures { result ≡ left - length (maybe equals_value v.now) }
{
    match v {
        None => left,
        Some(Value::Plain(PlainValue::Negative(_))) => left.saturating_sub(3),
        Some(Value::Plain(PlainValue::Number(_))) => left.saturating_sub(2),
        Some(Value::Plain(PlainValue::True)) => left.saturating_sub(2),
        Some(Value::Plain(PlainValue::False)) => left.saturating_sub(2),
        Some(Value::Quoted { .. }) => left.saturating_sub(2),
    }
}

fn less_attribute(left: usize, a: &Attribute) -> usize
    ensures { result ≡ left - length (attribute a.now) }
{
    less_value_if(left.saturating_sub(4), &a.value)
}

fn less_port(left: usize, p: &Port) -> usize
    ensures { result ≡ left - length (port p.now) }
{
    let left = less_flag(left.saturating_sub(4), p.conjugated);
    match p.places {
        Some(Places::Number(_)) => left.saturating_sub(3),
        Some(Places::Any) => left.saturating_sub(3),
        None => left,
    }
}

fn less_interface_item(left: usize, item: &InterfaceItem) -> usize
    ensures { result ≡ left - length (interface_item item.now) }
{
    match item {
        InterfaceItem::Port(port) => less_port(left, port),
        InterfaceItem::Service(_) => left.saturating_sub(4),
    }
}

pub(super) fn less_interface(left: usize, items: &[InterfaceItem]) -> usize
    ensures { result ≡ left - length (each interface_item items.now) }
{
    let mut left = left;
    for item in items {
        left = less_interface_item(left, item);
    }
    left
}

fn less_kind(left: usize, kind: Option<ReferenceKind>) -> usize
    ensures { result ≡ left - length (maybe ref_kind kind) }
{
    match kind {
        Some(ReferenceKind::Fixed) => left.saturating_sub(1),
        Some(ReferenceKind::Optional) => left.saturating_sub(1),
        Some(ReferenceKind::Imported) => left.saturating_sub(1),
        None => left,
    }
}

pub(super) fn less_reference(left: usize, r: &ActorRef) -> usize
    ensures { result ≡ left - length (actor_ref r.now) }
{
    let left = less_kind(left.saturating_sub(4), r.kind);
    match r.count {
        Some(_) => left.saturating_sub(3),
        None => left,
    }
}

fn less_side(left: usize, s: &Side) -> usize
    ensures { result ≡ left - length (side s.now) }
{
    match s {
        Side::Own(_) => left.saturating_sub(1),
        Side::Inner { .. } => left.saturating_sub(3),
    }
}

pub(super) fn less_binding(left: usize, b: &Binding) -> usize
    ensures { result ≡ left - length (binding b.now) }
{
    let left = less_side(left.saturating_sub(2), &b.left);
    less_side(left, &b.right)
}

fn less_structure_item(left: usize, item: &StructureItem) -> usize
    ensures { result ≡ left - length (structure_item item.now) }
{
    match item {
        StructureItem::Usercode(usercode) => less_usercode(left, usercode),
        StructureItem::External(_) => left.saturating_sub(3),
        StructureItem::Port(port) => less_port(left, port),
        StructureItem::Access(_) => left.saturating_sub(4),
        StructureItem::Implementation(_) => left.saturating_sub(3),
        StructureItem::Attribute(attribute) => less_attribute(left, attribute),
        StructureItem::Reference(reference) => less_reference(left, reference),
        StructureItem::Binding(binding) => less_binding(left, binding),
        StructureItem::Layer(_) => left.saturating_sub(7),
    }
}

pub(super) fn less_structure(left: usize, items: &[StructureItem]) -> usize
    ensures { result ≡ left - length (each structure_item items.now) }
{
    let mut left = left;
    for item in items {
        left = less_structure_item(left, item);
    }
    left
}

fn less_data_item(left: usize, item: &DataItem) -> usize
    ensures { result ≡ left - length (data_item item.now) }
{
    match item {
        DataItem::Usercode(usercode) => less_usercode(left, usercode),
        DataItem::Attribute(attribute) => less_attribute(left, attribute),
    }
}

pub(super) fn less_data_items(left: usize, items: &[DataItem]) -> usize
    ensures { result ≡ left - length (each data_item items.now) }
{
    let mut left = left;
    for item in items {
        left = less_data_item(left, item);
    }
    left
}
