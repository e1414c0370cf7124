//! Events.
ghost use Rattle.std.specs.Prelude.{◌≡◌, ◌∷◌, [], ◌++◌, ◌&&◌, option_map, unwrap_or, is_some, map, IfOk, OnOk};
ghost use Rattle.std.specs.List.{list_all};
ghost use Rattle.chart_run.specs.chart_tables.Tables.{event_view};
ghost use Rattle.chart_trees.specs.chart_codes.Events.{takes_messages, message_name, event_in, event_of, event_fits, no_event, events};

use crate::chart_codes::marks::Marks;
use chart_run::Event;
use room_ast::{EventMessage, Scope, Trigger};
use room_kinds::PortKind;
use std::alloc::{AllocError, Global};

fn takes_messages(kind: PortKind) -> bool
    ensures { result ≡ takes_messages kind }
{
    match kind {
        PortKind::Relay => false,
        PortKind::Frame | PortKind::End | PortKind::Internal | PortKind::Sap | PortKind::Spp => {
            true
        }
    }
}

fn message_name(message: &EventMessage) -> &[u8]
    ensures { result.now ≡ message_name message.entry.now }
{
    match message {
        EventMessage::Named(name) => name.as_bytes(),
        EventMessage::Imported => b"imported",
    }
}

/// An event by numbers, if the class has its port and its message comes in there.
fn event(event: &room_ast::Event, scope: &Scope) -> Option<Event>
    ensures { option_map event_view result ≡ event_in scope.now event.now }
{
    let Some((number, port)) = scope.port(event.port.as_bytes()) else {
        return None;
    };
    if !takes_messages(port.kind) {
        return None;
    }
    let Some((signal, _)) = port.received(message_name(&event.message)) else {
        return None;
    };
    Some(Event {
        port: number,
        signal,
    })
}

/// Adds an event; a mark, and an event that isn't used, where it isn't the class's.
fn add_event(
    found: &mut Vec<Event>,
    marks: &mut Marks,
    event: Option<Event>,
) -> Result<(), AllocError>
    ensures items { OnOk result (map event_view found.new.items
        ≡ map event_view found.old.items ++ unwrap_or (option_map event_view event) no_event ∷ []) }
    ensures events { OnOk result (marks.new.events_fit ≡ (marks.old.events_fit && is_some event)) }
    ensures codes { OnOk result (marks.new.codes_fit ≡ marks.old.codes_fit) }
{
    match event {
        Some(event) => {
            found.push(event)?;
            Ok(())
        }
        None => {
            marks.events_fit = false;
            found.push(Event { port: 0, signal: 0 })?;
            Ok(())
        }
    }
}

/// The events of a trigger.
pub(crate) fn events(
    alloc: Global,
    trigger: &Trigger,
    scope: &Scope,
    marks: &mut Marks,
) -> Result<Vec<Event>, AllocError>
    ensures items { IfOk result (λ v.
        map event_view v.items ≡ map (event_of scope.now) (events trigger.now)) }
    ensures events { OnOk result (marks.new.events_fit
        ≡ (marks.old.events_fit && list_all (event_fits scope.now) (events trigger.now))) }
    ensures codes { OnOk result (marks.new.codes_fit ≡ marks.old.codes_fit) }
{
    let mut found = Vec::new(alloc);
    add_event(&mut found, marks, event(&trigger.first, scope))?;
    for other in trigger.others.as_slice() {
        add_event(&mut found, marks, event(other, scope))?;
    }
    Ok(found)
}
