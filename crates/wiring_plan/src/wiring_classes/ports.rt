//! The ports and references of an actor class.
ghost use Rattle.std.specs.Prelude.{◌≡◌, IfOk, option_map, option_and_then, slice_get};
ghost use Rattle.name_tables.specs.name_numbers.Names.{names_of};
ghost use Rattle.wiring_plan.specs.structure_plan.Parts.{short};
ghost use Rattle.wiring_plan.specs.wiring_classes.Labels.{label_of};
ghost use Rattle.wiring_plan.specs.wiring_classes.Parts.{port_names_of, reference_names_of, named};

use crate::structure_plan::{reference_plan, short_if_any};
use crate::wiring_classes::labels::label_of;
use check_scopes::SignalTable;
use room_ast::{PortEntry, ReferenceEntry};
use room_wiring::{Label, PortNames, RefNames, SignalNames};
use std::alloc::{AllocError, Global};

fn name_at<'a>(names: &'a [&'a [u8]], number: Option<usize>) -> Option<&'a [u8]>
    ensures { option_map (λ n. n.now) result
        ≡ option_and_then (slice_get (names_of names.entry.now)) number }
{
    match number {
        Some(number) => names.get(number).copied(),
        None => None,
    }
}

fn label_if_any(alloc: Global, name: Option<&[u8]>) -> Result<Option<Label>, AllocError>
    ensures { IfOk result (λ l. l ≡ option_map label_of (option_map (λ n. n.now) name.entry)) }
{
    match name {
        Some(name) => {
            let label = label_of(alloc, name)?;
            Ok(Some(label))
        }
        None => Ok(None),
    }
}

fn port_names(
    alloc: Global,
    names: &[&[u8]],
    signals: &SignalTable<SignalNames>,
    name: &[u8],
    port: &PortEntry,
) -> Result<PortNames, AllocError>
    ensures { IfOk result (λ p.
        p ≡ port_names_of (names_of names.now) signals.now name.now port.now) }
{
    let signals = signals.at(port).share()?;
    let protocol_name = label_if_any(alloc, name_at(names, port.protocol))?;
    let label = label_of(alloc, name)?;
    Ok(PortNames {
        name: label,
        kind: port.kind,
        conjugated: port.conjugated,
        protocol: short_if_any(port.protocol),
        protocol_name,
        incoming: signals.incoming,
        outgoing: signals.outgoing,
    })
}

/// The ports of these names, where `protocol_names` are the names of the protocol classes and
/// `signals` the messages that ports have, which they share.
pub(crate) fn ports_of(
    alloc: Global,
    protocol_names: &[&[u8]],
    signals: &SignalTable<SignalNames>,
    names: &[&[u8]],
    ports: &[PortEntry],
) -> Result<Vec<PortNames>, AllocError>
    ensures { IfOk result (λ v.
        v.items ≡ named (port_names_of (names_of protocol_names.now) signals.now)
        (names_of names.now) ports.now) }
{
    let mut all = Vec::with_capacity(alloc, ports.len())?;
    let mut left = ports;
    for name in names {
        let [port, others @ ..] = left else {
            return Ok(all);
        };
        all.push(port_names(alloc, protocol_names, signals, *name, port)?)?;
        left = others;
    }
    Ok(all)
}

fn reference_names(
    alloc: Global,
    name: &[u8],
    reference: &ReferenceEntry,
) -> Result<RefNames, AllocError>
    ensures { IfOk result (λ r. r ≡ reference_names_of name.now reference.now) }
{
    let plan = reference_plan(reference);
    let name = label_of(alloc, name)?;
    Ok(RefNames {
        name,
        kind: plan.kind,
        class: plan.class,
        count: plan.count,
    })
}

/// The references of these names.
pub(crate) fn references_of(
    alloc: Global,
    names: &[&[u8]],
    references: &[ReferenceEntry],
) -> Result<Vec<RefNames>, AllocError>
    ensures { IfOk result (λ v.
        v.items ≡ named reference_names_of (names_of names.now) references.now) }
{
    let mut all = Vec::with_capacity(alloc, references.len())?;
    let mut left = references;
    for name in names {
        let [reference, others @ ..] = left else {
            return Ok(all);
        };
        all.push(reference_names(alloc, *name, reference)?)?;
        left = others;
    }
    Ok(all)
}
