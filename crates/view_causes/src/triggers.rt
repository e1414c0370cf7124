//! What is wrong with the triggers of a class.
use crate::cause::{Cause, cause_with, listed, listed_signals};
use crate::charts::{MOST_CAUSES, Suspect};
use crate::declared::{message_of, port_of};
use room_ast::{Scope, ScopePort, ScopeSignal};
use room_kinds::PortKind;
use room_lexer::Token;
use std::alloc::AllocError;
use view_charts::event_in;

/// An event of a trigger: its message and its port.
#[derive(Clone, Copy)]
struct Event<'a> {
    message: &'a Token,
    port: &'a Token,
}

/// The messages that come in at a port.
fn incoming(port: &ScopePort) -> &[ScopeSignal] {
    if port.conjugated {
        port.outgoing.as_slice()
    } else {
        port.incoming.as_slice()
    }
}

/// The names of the ports at which an actor works.
fn end_ports<'a>(suspect: &Suspect<'_>, scope: &'a Scope) -> Result<Vec<&'a [u8]>, AllocError> {
    let mut names = Vec::new(suspect.source.alloc);
    for port in scope.ports.as_slice() {
        if port.kind != PortKind::Relay {
            names.push(port.name.as_bytes())?;
        }
    }
    Ok(names)
}

/// That there is no port of an event.
fn no_port(suspect: &Suspect<'_>, event: Event<'_>) -> Result<Cause, AllocError> {
    let names = end_ports(suspect, suspect.scope)?;
    let there = listed(suspect.source.alloc, names.as_slice())?;
    cause_with(
        suspect.source.alloc,
        (event.port.start, event.port.end),
        &[
            b"the class has no port `",
            suspect.source.bytes(event.port),
            b"`; it works at: ",
            there.as_slice(),
        ],
    )
}

/// That the actor doesn't work at the port of an event.
fn relays(suspect: &Suspect<'_>, event: Event<'_>) -> Result<Cause, AllocError> {
    let name = suspect.source.bytes(event.port);
    cause_with(
        suspect.source.alloc,
        (event.message.start, event.port.end),
        &[
            b"`",
            name,
            b"` only passes on: `external Port ",
            name,
            b"` in the Structure lets the actor work at it",
        ],
    )?
    .about(port_of(suspect.source, suspect.chain, name)?)
}

/// That the message of an event doesn't come in at its port.
fn stays_out(
    suspect: &Suspect<'_>,
    event: Event<'_>,
    port: &ScopePort,
) -> Result<Cause, AllocError> {
    let source = suspect.source;
    let message = source.bytes(event.message);
    let turned: &[u8] = if port.sent(message).is_some() {
        b"` goes out at `"
    } else {
        b"` doesn't come in at `"
    };
    let cure: &[u8] = if port.sent(message).is_some() {
        b"`, and doesn't come in (`conjugated` turns a port round); there come in: "
    } else {
        b"`; there come in: "
    };
    let there = listed_signals(source.alloc, incoming(port))?;
    let name = source.bytes(event.port);
    let found = cause_with(
        source.alloc,
        (event.message.start, event.port.end),
        &[b"`", message, turned, name, cure, there.as_slice()],
    )?;
    let declared = port_of(source, suspect.chain, name)?;
    let found = found.about(declared)?;
    match declared {
        Some(port) => found.about(message_of(source, port, message)?),
        None => Ok(found),
    }
}

/// What was found at the triggers of a class, and the ports of which it is told already that they only pass on.
#[derive(Drop)]
struct Found {
    causes: Vec<Cause>,
    relays: Vec<u16>,
}

impl Found {
    /// Adds that a port only passes on, once.
    fn add_relay(
        &mut self,
        suspect: &Suspect<'_>,
        event: Event<'_>,
        number: u16,
    ) -> Result<(), AllocError> {
        if self.relays.contains(&number) {
            return Ok(());
        }
        self.relays.push(number)?;
        Ok(self.causes.push(relays(suspect, event)?)?)
    }

    /// Adds what is wrong with an event, if something is.
    fn add_event(&mut self, suspect: &Suspect<'_>, event: Event<'_>) -> Result<(), AllocError> {
        let source = suspect.source;
        let Some((number, port)) = suspect.scope.port(source.bytes(event.port)) else {
            return Ok(self.causes.push(no_port(suspect, event)?)?);
        };
        if port.kind == PortKind::Relay {
            return self.add_relay(suspect, event, number);
        }
        if port.received(source.bytes(event.message)).is_some() {
            return Ok(());
        }
        Ok(self.causes.push(stays_out(suspect, event, port)?)?)
    }

    /// Adds what is wrong with the events among tokens.
    fn add_events(&mut self, suspect: &Suspect<'_>, tokens: &[Token]) -> Result<(), AllocError> {
        for at in 0..tokens.len() {
            if self.causes.len() >= MOST_CAUSES {
                break;
            }
            if let Some((message, port)) = event_in(tokens.get(at..).unwrap_or(&[])) {
                self.add_event(suspect, Event { message, port })?;
            }
        }
        Ok(())
    }
}

/// What is wrong with the triggers of a class.
pub(crate) fn trigger_causes(suspect: &Suspect<'_>) -> Result<Vec<Cause>, AllocError> {
    let mut found = Found {
        causes: Vec::new(suspect.source.alloc),
        relays: Vec::new(suspect.source.alloc),
    };
    for arrow in suspect.chart.arrows() {
        found.add_events(suspect, suspect.source.tokens_of(arrow.item))?;
    }
    let Found { causes, .. } = found;
    Ok(causes)
}
