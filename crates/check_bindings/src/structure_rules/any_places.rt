//! Ports with `[*]`.

ghost use Rattle.std.specs.Prelude.{◌≡◌};
ghost use Rattle.std.specs.List.{list_all};
ghost use Rattle.check_bindings.specs.structure_rules.AnyPlaces.{is_any, any_only_at_end, any_places_at_end_ports};

use check_tables::{Container, Tables};
use room_ast::{Places, PortEntry};

/// Whether a port has `[*]`.
pub(crate) fn is_any(places: Option<Places>) -> bool
    ensures { result ≡ is_any places }
{
    match places {
        Some(Places::Any) => true,
        Some(Places::Number(_)) | None => false,
    }
}

fn any_only_at_end(port: &PortEntry) -> bool
    ensures { result ≡ any_only_at_end port.now }
{
    !is_any(port.places) || port.kind.is_end()
}

fn class_has_any_only_at_end(class: &Container) -> bool
    ensures { result ≡ list_all any_only_at_end class.now.ports }
{
    class
        .ports
        .as_slice()
        .iter()
        .all(|port| any_only_at_end(port))
}

/// Whether `[*]` stands only at end ports: ports of the Interface that their class repeats as
/// `external Port`, and ports of the Structure.
#[tactic(auto, unfolding(crate::specs::structure_rules::AnyPlaces::any_places_at_end_ports))]
pub fn any_places_at_end_ports(tables: &Tables) -> bool
    ensures { result ≡ any_places_at_end_ports tables.now }
{
    tables
        .actors
        .as_slice()
        .iter()
        .all(|class| class_has_any_only_at_end(class))
}
