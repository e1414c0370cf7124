//! What the names in bindings and layer connections name.

ghost use Rattle.std.specs.Prelude.{◌≡◌, ◌+◌, ◌<◌, ◌^◌, OnSome, option_map, slice_get};
ghost use Rattle.check_bindings.specs.binding_rules.Parts.{port_named, reference_named, class_of, port_behind};

use check_tables::Container;
use room_ast::{PortEntry, ReferenceEntry};

fn port_at(ports: &[PortEntry], number: usize) -> Option<PortEntry>
    ensures { result ≡ slice_get ports.now number }
{
    ports.get(number).copied()
}

/// The port of a class with this name, if it has one.
pub(crate) fn port_named(class: &Container, name: &[u8]) -> Option<PortEntry>
    ensures { result ≡ port_named class.now name.now }
{
    match class.port_names.place_of(name) {
        Some(number) => port_at(class.ports.as_slice(), number),
        None => None,
    }
}

fn reference_at(references: &[ReferenceEntry], number: usize) -> Option<ReferenceEntry>
    ensures { result ≡ slice_get references.now number }
{
    references.get(number).copied()
}

/// The reference of a class with this name, if it has one.
pub(crate) fn reference_named(class: &Container, name: &[u8]) -> Option<ReferenceEntry>
    ensures { result ≡ reference_named class.now name.now }
{
    match class.reference_names.place_of(name) {
        Some(number) => reference_at(class.references.as_slice(), number),
        None => None,
    }
}

/// The class with this number, if there is one.
pub(crate) fn class_at<'b, 'a>(
    classes: &'b [Container<'a>],
    number: usize,
) -> Option<&'b Container<'a>>
    ensures value { option_map (λ c. c.now) result ≡ slice_get classes.now number }
    ensures within { OnSome result (number + 1 < 2 ^ 64) }
{
    classes.get(number)
}

fn class_of<'b, 'a>(
    actors: &'b [Container<'a>],
    reference: &ReferenceEntry,
) -> Option<&'b Container<'a>>
    ensures { option_map (λ c. c.now) result ≡ class_of actors.now reference.now }
{
    match reference.class {
        Some(number) => class_at(actors, number),
        None => None,
    }
}

/// The port with this name of the class of a reference, if there is one.
pub(crate) fn port_behind(
    actors: &[Container],
    reference: &ReferenceEntry,
    name: &[u8],
) -> Option<PortEntry>
    ensures { result ≡ port_behind actors.now reference.now name.now }
{
    match class_of(actors, reference) {
        Some(class) => port_named(class, name),
        None => None,
    }
}
