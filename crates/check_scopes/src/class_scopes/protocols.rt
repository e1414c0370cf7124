//! The messages of each protocol class, and of the frame service.

ghost use Rattle.std.specs.Prelude.{◌≡◌, map, option_map, IfOk};
ghost use Rattle.std.specs.List.{filter_map};
ghost use Rattle.room_ast.specs.Trees.{class_view};
ghost use Rattle.room_ast.specs.model_parts.Classes.{as_protocol};
ghost use Rattle.check_scopes.specs.class_scopes.Views.{signal_view};
ghost use Rattle.check_scopes.specs.class_scopes.Signals.{frame_signal, frame_signals, frame_only, map_signals, map_table};
ghost use Rattle.check_scopes.specs.class_scopes.ByKinds.{parameter_kinds, signal_by, signals_by, table_by};

use crate::class_scopes::signals::{SignalTable, Signals};
use crate::number_kinds::kinds_of_type;
use check_tables::{carried_type, messages_of, push_if, type_entry};
use name_tables::NameIndex;
use room_ast::{Class, Message, Name, Parameter, ProtocolClass, ScopeSignal};
use room_kinds::{NumberType, Sequence, SharedSequence};
use std::alloc::{AllocError, Global};

// ---- protocol classes

/// The types of the numbers that a message carries, where these are the names of the data classes and
/// the types of their numbers.
fn parameter_kinds(
    alloc: Global,
    parameter: &Parameter,
    names: &NameIndex,
    kinds: &[Sequence<NumberType>],
) -> Result<Vec<NumberType>, AllocError>
    ensures { IfOk result (λ v. v.items ≡ parameter_kinds names.now kinds.now parameter.now) }
{
    match carried_type(parameter) {
        Some(name) => kinds_of_type(alloc, type_entry(name.as_bytes(), names), kinds),
        None => Ok(Vec::new(alloc)),
    }
}

fn signal_of(
    alloc: Global,
    message: &Message,
    names: &NameIndex,
    kinds: &[Sequence<NumberType>],
) -> Result<ScopeSignal, AllocError>
    ensures { IfOk result (λ s. signal_view s ≡ signal_by names.now kinds.now message.now) }
{
    let name = message.name.copy(alloc)?;
    let numbers = parameter_kinds(alloc, &message.parameter, names, kinds)?;
    Ok(ScopeSignal { name, numbers })
}

fn signals_of(
    alloc: Global,
    messages: &[Message],
    names: &NameIndex,
    kinds: &[Sequence<NumberType>],
) -> Result<SharedSequence<ScopeSignal>, AllocError>
    ensures { IfOk result (λ s.
        map signal_view s ≡ map (signal_by names.now kinds.now) messages.now) }
{
    let mut signals = Vec::new(alloc);
    for message in messages {
        signals.push(signal_of(alloc, message, names, kinds)?)?;
    }
    SharedSequence::of(alloc, signals)
}

fn protocol_signals(
    alloc: Global,
    class: &ProtocolClass,
    names: &NameIndex,
    kinds: &[Sequence<NumberType>],
) -> Result<Signals<ScopeSignal>, AllocError>
    ensures { IfOk result (λ s.
        map_signals signal_view s ≡ signals_by names.now kinds.now class.now) }
{
    let incoming = signals_of(alloc, messages_of(&class.incoming), names, kinds)?;
    let outgoing = signals_of(alloc, messages_of(&class.outgoing), names, kinds)?;
    Ok(Signals { incoming, outgoing })
}

fn signals_if_protocol(
    alloc: Global,
    class: &Class,
    names: &NameIndex,
    kinds: &[Sequence<NumberType>],
) -> Result<Option<Signals<ScopeSignal>>, AllocError>
    ensures { IfOk result (λ s.
        option_map (map_signals signal_view) s
        ≡ option_map (signals_by names.now kinds.now) (as_protocol (class_view class.now))) }
{
    match class {
        Class::Protocol(protocol) => {
            let signals = protocol_signals(alloc, protocol, names, kinds)?;
            Ok(Some(signals))
        }
        _ => Ok(None),
    }
}

/// The messages of each protocol class, by its number.
fn signals_of_classes(
    alloc: Global,
    classes: &[Class],
    names: &NameIndex,
    kinds: &[Sequence<NumberType>],
) -> Result<Vec<Signals<ScopeSignal>>, AllocError>
    ensures { IfOk result (λ v.
        map (map_signals signal_view) v.items ≡ map (signals_by names.now kinds.now) (filter_map
        as_protocol (map class_view classes.now))) }
{
    let mut table = Vec::new(alloc);
    for class in classes {
        push_if(&mut table, signals_if_protocol(alloc, class, names, kinds)?)?;
    }
    Ok(table)
}

// ---- the frame service

/// A message of the frame service, with so many numbers.
fn frame_signal(alloc: Global, name: &str, numbers: usize) -> Result<ScopeSignal, AllocError>
    ensures { IfOk result (λ s. signal_view s ≡ frame_signal name.now numbers) }
{
    let numbers = vec![in alloc; NumberType::Plain; numbers]?;
    let name = Name::from_slice(alloc, name.as_bytes())?;
    Ok(ScopeSignal { name, numbers })
}

#[tactic(auto, unfolding(crate::specs::class_scopes::Signals::frame_signals))]
fn frame_messages(alloc: Global) -> Result<SharedSequence<ScopeSignal>, AllocError>
    ensures { IfOk result (λ s. map signal_view s ≡ frame_signals) }
{
    let mut all = Vec::new(alloc);
    all.push(frame_signal(alloc, "created", 3)?)?;
    all.push(frame_signal(alloc, "destroyed", 3)?)?;
    all.push(frame_signal(alloc, "imported", 3)?)?;
    all.push(frame_signal(alloc, "ended", 3)?)?;
    all.push(frame_signal(alloc, "deported", 3)?)?;
    all.push(frame_signal(alloc, "refused", 3)?)?;
    all.push(frame_signal(alloc, "registered", 1)?)?;
    all.push(frame_signal(alloc, "withdrawn", 1)?)?;
    all.push(frame_signal(alloc, "nameRefused", 2)?)?;
    SharedSequence::of(alloc, all)
}

/// The messages that come in at `frame`.
fn frame_only(alloc: Global) -> Result<Signals<ScopeSignal>, AllocError>
    ensures { IfOk result (λ s. map_signals signal_view s ≡ frame_only) }
{
    let incoming = frame_messages(alloc)?;
    let outgoing = SharedSequence::of(alloc, Vec::new(alloc))?;
    Ok(Signals { incoming, outgoing })
}

// ---- the table

/// The messages that the ports of classes have, where these are the names of the data classes and the
/// types of their numbers.
pub fn signal_table(
    alloc: Global,
    classes: &[Class],
    names: &NameIndex,
    kinds: &[Sequence<NumberType>],
) -> Result<SignalTable<ScopeSignal>, AllocError>
    ensures { IfOk result (λ t.
        map_table signal_view t
        ≡ table_by names.now kinds.now (filter_map as_protocol (map class_view classes.now))) }
{
    let frame = frame_only(alloc)?;
    let none = Signals::none(alloc)?;
    let protocols = signals_of_classes(alloc, classes, names, kinds)?;
    Ok(SignalTable {
        frame,
        none,
        protocols: Sequence::from(protocols),
    })
}
