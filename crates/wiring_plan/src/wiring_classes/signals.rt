//! The messages that ports have, their names as labels.
ghost use Rattle.std.specs.Prelude.{◌≡◌, map, IfOk};
ghost use Rattle.check_scopes.specs.class_scopes.Signals.{map_signals, map_table};
ghost use Rattle.check_scopes.specs.class_scopes.Views.{signal_view};
ghost use Rattle.wiring_plan.specs.wiring_classes.Parts.{labelled};

use crate::wiring_classes::labels::label_of;
use check_scopes::{SignalTable, Signals};
use room_ast::ScopeSignal;
use room_kinds::{Sequence, SharedSequence};
use room_wiring::SignalNames;
use std::alloc::{AllocError, Global};

fn labelled(alloc: Global, signal: &ScopeSignal) -> Result<SignalNames, AllocError>
    ensures { IfOk result (λ s. s ≡ labelled (signal_view signal.now)) }
{
    let name = label_of(alloc, signal.name.as_bytes())?;
    let numbers = Vec::from_slice(alloc, signal.numbers.as_slice())?;
    Ok(SignalNames {
        name,
        numbers: Sequence::from(numbers),
    })
}

fn all_labelled(
    alloc: Global,
    signals: &[ScopeSignal],
) -> Result<SharedSequence<SignalNames>, AllocError>
    ensures { IfOk result (λ s. s ≡ map labelled (map signal_view signals.now)) }
{
    let mut all = Vec::with_capacity(alloc, signals.len())?;
    for signal in signals {
        all.push(labelled(alloc, signal)?)?;
    }
    SharedSequence::of(alloc, all)
}

fn labelled_signals(
    alloc: Global,
    signals: &Signals<ScopeSignal>,
) -> Result<Signals<SignalNames>, AllocError>
    ensures { IfOk result (λ s. s ≡ map_signals labelled (map_signals signal_view signals.now)) }
{
    let incoming = all_labelled(alloc, signals.incoming.as_slice())?;
    let outgoing = all_labelled(alloc, signals.outgoing.as_slice())?;
    Ok(Signals { incoming, outgoing })
}

fn labelled_protocols(
    alloc: Global,
    protocols: &[Signals<ScopeSignal>],
) -> Result<Vec<Signals<SignalNames>>, AllocError>
    ensures { IfOk result (λ v.
        v.items ≡ map (map_signals labelled) (map (map_signals signal_view) protocols.now)) }
{
    let mut all = Vec::with_capacity(alloc, protocols.len())?;
    for signals in protocols {
        all.push(labelled_signals(alloc, signals)?)?;
    }
    Ok(all)
}

/// The same messages, their names as labels. They are copied once, whatever ports there are.
pub(crate) fn labelled_table(
    alloc: Global,
    table: &SignalTable<ScopeSignal>,
) -> Result<SignalTable<SignalNames>, AllocError>
    ensures { IfOk result (λ t. t ≡ map_table labelled (map_table signal_view table.now)) }
{
    let frame = labelled_signals(alloc, &table.frame)?;
    let none = labelled_signals(alloc, &table.none)?;
    let protocols = labelled_protocols(alloc, table.protocols.as_slice())?;
    Ok(SignalTable {
        frame,
        none,
        protocols: Sequence::from(protocols),
    })
}
