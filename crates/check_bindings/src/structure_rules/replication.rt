//! Replication numbers.

ghost use Rattle.std.specs.Prelude.{◌≡◌};
ghost use Rattle.std.specs.List.{list_all};
ghost use Rattle.check_bindings.specs.structure_rules.Replication.{is_in_range, places_in_range, count_in_range, class_in_range, replicates_in_range};

use check_tables::{Container, Tables};
use room_ast::{Places, PortEntry, ReferenceEntry};

/// The most places of a port, and the most actors of a reference.
const MOST_REPLICATES: u64 = 256;

fn is_in_range(number: u64) -> bool
    ensures { result ≡ is_in_range number }
{
    1 <= number && number <= MOST_REPLICATES
}

fn places_in_range(places: Option<Places>) -> bool
    ensures { result ≡ places_in_range places }
{
    match places {
        None | Some(Places::Any) => true,
        Some(Places::Number(number)) => is_in_range(number),
    }
}

fn count_in_range(count: Option<u64>) -> bool
    ensures { result ≡ count_in_range count }
{
    match count {
        None => true,
        Some(number) => is_in_range(number),
    }
}

fn ports_in_range(ports: &[PortEntry]) -> bool
    ensures { result ≡ list_all (λ p. places_in_range p.places) ports.now }
{
    ports.iter().all(|port| places_in_range(port.places))
}

fn references_in_range(references: &[ReferenceEntry]) -> bool
    ensures { result ≡ list_all (λ r. count_in_range r.count) references.now }
{
    references
        .iter()
        .all(|reference| count_in_range(reference.count))
}

fn class_in_range(class: &Container) -> bool
    ensures { result ≡ class_in_range class.now }
{
    ports_in_range(class.ports.as_slice()) && references_in_range(class.references.as_slice())
}

fn classes_in_range(classes: &[Container]) -> bool
    ensures { result ≡ list_all class_in_range classes.now }
{
    classes.iter().all(|class| class_in_range(class))
}

/// Whether each replication number, of a port or of a reference, is 1 to 256.
#[tactic(auto, unfolding(crate::specs::structure_rules::Replication::replicates_in_range))]
pub fn replicates_in_range(tables: &Tables) -> bool
    ensures { result ≡ replicates_in_range tables.now }
{
    classes_in_range(tables.actors.as_slice()) && classes_in_range(tables.subsystems.as_slice())
}
