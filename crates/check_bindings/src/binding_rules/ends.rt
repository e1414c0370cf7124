//! What the sides of bindings name.

ghost use Rattle.std.specs.Prelude.{◌≡◌, option_and_then};
ghost use Rattle.room_ast.specs.model_parts.Ports.{is_interface_port, is_bound_inside, conjugated_inside};
ghost use Rattle.room_ast.specs.model_parts.References.{is_replicated};
ghost use Rattle.check_bindings.specs.binding_rules.Parts.{port_named, reference_named, port_behind};
ghost use Rattle.check_bindings.specs.binding_rules.Ends.{is_any, own_end, inner_end, end_of};

use crate::binding_rules::parts::{port_behind, port_named, reference_named};
use check_tables::Container;
use room_ast::{Places, PortEntry, ReferenceEntry, Side};
use room_kinds::PortKind;

/// A port that a side of a binding names, as the binding sees it.
#[derive(Clone, Copy, Drop)]
pub(crate) struct BindingEnd {
    /// The number of its protocol class, if it is known.
    pub(crate) protocol: Option<usize>,
    /// Whether it sends the incoming messages of its protocol.
    pub(crate) conjugated: bool,
    /// Whether it has `[*]`.
    pub(crate) any_places: bool,
    /// Whether it is a port of a replicated reference.
    pub(crate) replicated: bool,
}

fn is_any(places: Option<Places>) -> bool
    ensures { result ≡ is_any places }
{
    match places {
        Some(Places::Any) => true,
        Some(Places::Number(_)) | None => false,
    }
}

fn is_interface_port(kind: PortKind) -> bool
    ensures { result ≡ is_interface_port kind }
{
    match kind {
        PortKind::Relay | PortKind::End => true,
        PortKind::Frame | PortKind::Internal | PortKind::Sap | PortKind::Spp => false,
    }
}

fn is_bound_inside(kind: PortKind) -> bool
    ensures { result ≡ is_bound_inside kind }
{
    match kind {
        PortKind::Relay | PortKind::Internal => true,
        PortKind::Frame | PortKind::End | PortKind::Sap | PortKind::Spp => false,
    }
}

/// Whether a port is conjugated as a binding of its own class sees it: a relay port is seen from
/// inside, where what comes in from outside goes out.
fn conjugated_inside(port: &PortEntry) -> bool
    ensures { result ≡ conjugated_inside port.now }
{
    match port.kind {
        PortKind::Relay => !port.conjugated,
        PortKind::Frame | PortKind::End | PortKind::Internal | PortKind::Sap | PortKind::Spp => {
            port.conjugated
        }
    }
}

/// A port of the class itself.
fn own_end(port: &PortEntry) -> Option<BindingEnd>
    ensures { result ≡ own_end port.now }
{
    if is_bound_inside(port.kind) {
        Some(BindingEnd {
            protocol: port.protocol,
            conjugated: conjugated_inside(port),
            any_places: is_any(port.places),
            replicated: false,
        })
    } else {
        None
    }
}

/// A port of the class of a reference.
fn inner_end(replicated: bool, port: &PortEntry) -> Option<BindingEnd>
    ensures { result ≡ inner_end replicated port.now }
{
    if is_interface_port(port.kind) {
        Some(BindingEnd {
            protocol: port.protocol,
            conjugated: port.conjugated,
            any_places: is_any(port.places),
            replicated,
        })
    } else {
        None
    }
}

fn end_named(class: &Container, name: &[u8]) -> Option<BindingEnd>
    ensures { result ≡ option_and_then own_end (port_named class.now name.now) }
{
    match port_named(class, name) {
        Some(port) => own_end(&port),
        None => None,
    }
}

fn end_at_reference(
    actors: &[Container],
    reference: &ReferenceEntry,
    port: &[u8],
) -> Option<BindingEnd>
    ensures { result ≡ option_and_then (inner_end (is_replicated reference.now)) (port_behind
        actors.now reference.now port.now) }
{
    match port_behind(actors, reference, port) {
        Some(port) => inner_end(reference.count.is_some(), &port),
        None => None,
    }
}

fn end_behind(
    actors: &[Container],
    class: &Container,
    reference: &[u8],
    port: &[u8],
) -> Option<BindingEnd>
    ensures { result ≡ option_and_then
        (λ r. option_and_then (inner_end (is_replicated r)) (port_behind actors.now r port.now))
        (reference_named class.now reference.now) }
{
    match reference_named(class, reference) {
        Some(reference) => end_at_reference(actors, &reference, port),
        None => None,
    }
}

/// What a side of a binding of a class names, if there is such a port.
pub(crate) fn end_of(actors: &[Container], class: &Container, side: &Side) -> Option<BindingEnd>
    ensures { result ≡ end_of actors.now class.now side.now }
{
    match side {
        Side::Own(name) => end_named(class, name.as_bytes()),
        Side::Inner { reference, port } => {
            end_behind(actors, class, reference.as_bytes(), port.as_bytes())
        }
    }
}
