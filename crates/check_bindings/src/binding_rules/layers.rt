//! What a layer connection must name.

ghost use Rattle.std.specs.Prelude.{◌≡◌, false};
ghost use Rattle.std.specs.Option.{option_map_or};
ghost use Rattle.check_bindings.specs.binding_rules.Parts.{reference_named, port_behind};
ghost use Rattle.check_bindings.specs.binding_rules.Layers.{is_spp, is_connectable, provides, layer_is_known};

use crate::binding_rules::parts::{port_behind, reference_named};
use check_tables::Container;
use room_ast::{LayerConnection, ReferenceEntry};
use room_kinds::PortKind;

fn is_spp(kind: PortKind) -> bool
    ensures { result ≡ is_spp kind }
{
    match kind {
        PortKind::Spp => true,
        PortKind::Frame | PortKind::Relay | PortKind::End | PortKind::Internal | PortKind::Sap =>
            false,
    }
}

fn has_service(actors: &[Container], reference: &ReferenceEntry, service: &[u8]) -> bool
    ensures { result ≡ option_map_or (λ p. is_spp p.kind)
        (port_behind actors.now reference.now service.now) false }
{
    match port_behind(actors, reference, service) {
        Some(port) => is_spp(port.kind),
        None => false,
    }
}

fn provides(actors: &[Container], reference: &ReferenceEntry, service: &[u8]) -> bool
    ensures { result ≡ provides actors.now service.now reference.now }
{
    !reference.kind.is_imported()
        && !reference.count.is_some()
        && has_service(actors, reference, service)
}

fn is_connectable(class: &Container, reference: &[u8]) -> bool
    ensures { result
        ≡ option_map_or is_connectable (reference_named class.now reference.now) false }
{
    match reference_named(class, reference) {
        Some(reference) => !reference.kind.is_imported(),
        None => false,
    }
}

fn is_provided(actors: &[Container], class: &Container, provider: &[u8], service: &[u8]) -> bool
    ensures { result ≡ option_map_or (provides actors.now service.now)
        (reference_named class.now provider.now) false }
{
    match reference_named(class, provider) {
        Some(reference) => provides(actors, &reference, service),
        None => false,
    }
}

/// Whether a layer connection of a class names a reference that isn't imported, and a SPP of one that
/// is neither imported nor replicated.
pub(crate) fn layer_is_known(
    actors: &[Container],
    class: &Container,
    layer: &LayerConnection,
) -> bool
    ensures { result ≡ layer_is_known actors.now class.now layer.now }
{
    is_connectable(class, layer.reference.as_bytes())
        && is_provided(
            actors,
            class,
            layer.provider.as_bytes(),
            layer.service.as_bytes(),
        )
}
