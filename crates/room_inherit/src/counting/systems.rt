//! The tokens of subsystem classes and protocol classes.
ghost use Rattle.std.specs.Prelude.{◌≡◌, ◌-◌, length, map};
ghost use Rattle.room_ast.specs.MappingTree.{mapping_view, mappings_of};
ghost use Rattle.room_ast.specs.Tokens.{maybe, each, incoming, outgoing, message, parameter, usercode, segment, slash_if, slash_segment, mapping_path, mapping_tokens, mappings_tokens, subsystem_item};
ghost use Rattle.room_ast.specs.Trees.{subsystem_item_view};

use crate::counting::parts::{less_binding, less_reference, less_usercode};
use room_ast::{Mapping, MappingPath, Message, Parameter, Segment, SubsystemItem, Usercode};
use room_kinds::Sequence;

fn less_segment(left: usize, s: &Segment) -> usize
    ensures { result ≡ left - length (segment s.now) }
{
    match s.index {
        Some(_) => left.saturating_sub(3),
        None => left.saturating_sub(1),
    }
}

fn less_segments(left: usize, segments: &[Segment]) -> usize
    ensures { result ≡ left - length (each slash_segment segments.now) }
{
    let mut left = left;
    for segment in segments {
        left = less_segment(left.saturating_sub(1), segment);
    }
    left
}

fn less_slash(left: usize, has_slash: bool) -> usize
    ensures { result ≡ left - length (slash_if has_slash) }
{
    if has_slash {
        left.saturating_sub(1)
    } else {
        left
    }
}

fn less_mapping_path(left: usize, path: &MappingPath) -> usize
    ensures { result ≡ left - length (mapping_path path.now) }
{
    let left = less_slash(left, path.has_slash);
    let left = less_segment(left, &path.first);
    less_segments(left, path.others.as_slice())
}

#[cycle(mappings)]
fn less_mapping(left: usize, mapping: &Mapping) -> usize
    ensures { result ≡ left - length (mapping_tokens (mapping_view mapping.now)) }
{
    let left = less_mapping_path(left.saturating_sub(3), &mapping.path);
    match &mapping.nested {
        Some(nested) => less_mappings(left.saturating_sub(2), nested),
        None => left,
    }
}

#[cycle(mappings)]
fn less_mappings(left: usize, mappings: &Vec<Mapping>) -> usize
    ensures { result
        ≡ left - length (mappings_tokens (mappings_of (map mapping_view mappings.now.items))) }
{
    let mut left = left;
    for mapping in mappings {
        left = less_mapping(left, mapping);
    }
    left
}

fn less_subsystem_item(left: usize, item: &SubsystemItem) -> usize
    ensures { result ≡ left - length (subsystem_item (subsystem_item_view item.now)) }
{
    match item {
        SubsystemItem::Reference(reference) => less_reference(left, reference),
        SubsystemItem::Binding(binding) => less_binding(left, binding),
        SubsystemItem::Layer(_) => left.saturating_sub(7),
        SubsystemItem::Thread(_) => left.saturating_sub(2),
        SubsystemItem::Mapping(mapping) => less_mapping(left, mapping),
    }
}

pub(super) fn less_subsystem_items(left: usize, items: &[SubsystemItem]) -> usize
    ensures { result ≡ left - length (each subsystem_item (map subsystem_item_view items.now)) }
{
    let mut left = left;
    for item in items {
        left = less_subsystem_item(left, item);
    }
    left
}

fn less_message(left: usize, m: &Message) -> usize
    ensures { result ≡ left - length (message m.now) }
{
    match m.parameter {
        Parameter::Absent => left.saturating_sub(2),
        Parameter::Empty => left.saturating_sub(4),
        Parameter::Typed(_) => left.saturating_sub(5),
        Parameter::Labelled { .. } => left.saturating_sub(7),
    }
}

fn less_messages(left: usize, messages: &[Message]) -> usize
    ensures { result ≡ left - length (each message messages.now) }
{
    let mut left = left;
    for m in messages {
        left = less_message(left, m);
    }
    left
}

pub(super) fn less_incoming_if(left: usize, messages: &Option<Sequence<Message>>) -> usize
    ensures { result ≡ left - length (maybe incoming messages.now) }
{
    match messages {
        Some(messages) => less_messages(left.saturating_sub(3), messages.as_slice()),
        None => left,
    }
}

pub(super) fn less_outgoing_if(left: usize, messages: &Option<Sequence<Message>>) -> usize
    ensures { result ≡ left - length (maybe outgoing messages.now) }
{
    match messages {
        Some(messages) => less_messages(left.saturating_sub(3), messages.as_slice()),
        None => left,
    }
}

pub(super) fn less_usercodes(left: usize, usercodes: &[Usercode]) -> usize
    ensures { result ≡ left - length (each usercode usercodes.now) }
{
    let mut left = left;
    for usercode in usercodes {
        left = less_usercode(left, usercode);
    }
    left
}
