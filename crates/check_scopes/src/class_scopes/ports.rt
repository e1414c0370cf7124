//! The ports of a class, with the messages of their protocols.

ghost use Rattle.std.specs.Prelude.{◌≡◌, ◌+◌, ◌<◌, ◌^◌, true, length, map, IfOk};
ghost use Rattle.name_tables.specs.name_numbers.Names.{names_of};
ghost use Rattle.check_scopes.specs.class_scopes.Making.{table_is_few};
ghost use Rattle.check_scopes.specs.class_scopes.Views.{port_view, signal_view};
ghost use Rattle.check_scopes.specs.class_scopes.Scopes.{port_with, ports_in};
ghost use Rattle.check_scopes.specs.class_scopes.Signals.{map_signals, map_table};

use crate::class_scopes::signals::{SignalTable, Signals};
use room_ast::{Name, PortEntry, ScopePort, ScopeSignal};
use std::alloc::{AllocError, Global};

/// A port of a name, with these messages, which it shares.
fn port_with(
    alloc: Global,
    name: &[u8],
    entry: PortEntry,
    signals: &Signals<ScopeSignal>,
) -> Result<ScopePort, AllocError>
    requires { length signals.now.incoming + length signals.now.outgoing < 2 ^ 16 }
    ensures { IfOk result (λ p.
        port_view p ≡ port_with name.now entry (map_signals signal_view signals.now)) }
{
    let name = Name::from_slice(alloc, name)?;
    let signals = signals.share()?;
    Ok(ScopePort {
        name,
        kind: entry.kind,
        conjugated: entry.conjugated,
        incoming: signals.incoming,
        outgoing: signals.outgoing,
    })
}

/// Ports of these names, by number. The ports of a protocol share its messages. Each class has a list of
/// them, which takes no more room than they do.
#[tactic(auto, using(crate::proofs::class_scopes::PortLaws::no_entries))]
pub(crate) fn ports_in(
    alloc: Global,
    names: &[&[u8]],
    entries: &[PortEntry],
    table: &SignalTable<ScopeSignal>,
) -> Result<Vec<ScopePort>, AllocError>
    requires { table_is_few (map_table signal_view table.now) ≡ true }
    ensures { IfOk result (λ v.
        map port_view v.items
        ≡ ports_in (map_table signal_view table.now) (names_of names.now) entries.now) }
{
    let mut ports = Vec::with_capacity(alloc, entries.len())?;
    let (mut names, mut entries) = (names, entries);
    while let [name, names_rest @ ..] = names {
        let [entry, entries_rest @ ..] = entries else {
            return Ok(ports);
        };
        ports.push(port_with(alloc, name, *entry, table.at(entry))?)?;
        names = names_rest;
        entries = entries_rest;
    }
    Ok(ports)
}
