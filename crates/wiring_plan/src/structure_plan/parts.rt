//! What the names in bindings and layer connections are, by number.

ghost use Rattle.std.specs.Prelude.{◌≡◌, option_map, option_and_then, unwrap_or, slice_get};
ghost use Rattle.wiring_plan.specs.structure_plan.Parts.{short, count32, number_of, places_plan, port_plan, reference_plan, class_behind, port_behind, inner_side, side_plan, joined, binding_plan, layer_to, layer_from, layer_plan};

use crate::structure_plan::plan::{
    BindingPlan, LayerPlan, PlacesPlan, PortPlan, ReferencePlan, SidePlan,
};
use check_tables::Container;
use name_tables::NameIndex;
use room_ast::{Binding, LayerConnection, Places, PortEntry, ReferenceEntry, Side};

/// A number of 16 bits; none for a larger one.
fn short(number: usize) -> Option<u16>
    ensures { result ≡ short number }
{
    if number <= 65535 {
        Some(number as u16)
    } else {
        None
    }
}

/// A number of 16 bits; none where there is none, and for a larger one.
pub fn short_if_any(number: Option<usize>) -> Option<u16>
    ensures { result ≡ option_and_then short number }
{
    match number {
        Some(number) => short(number),
        None => None,
    }
}

/// A count of 32 bits; the largest one for a larger one.
pub(crate) fn count32(count: u64) -> u32
    ensures { result ≡ count32 count }
{
    if count <= 4294967295 {
        count as u32
    } else {
        4294967295
    }
}

/// The number under which a name stands among names, from 0.
pub fn number_of(names: &NameIndex, name: &[u8]) -> Option<u16>
    ensures { result ≡ number_of names.now name.now }
{
    short_if_any(names.place_of(name))
}

fn places_plan(places: Option<Places>) -> PlacesPlan
    ensures { result ≡ places_plan places }
{
    match places {
        None => PlacesPlan::One,
        Some(Places::Number(count)) => PlacesPlan::Number(count32(count)),
        Some(Places::Any) => PlacesPlan::Any,
    }
}

pub(crate) fn port_plan(port: &PortEntry) -> PortPlan
    ensures { result ≡ port_plan port.now }
{
    PortPlan {
        kind: port.kind,
        places: places_plan(port.places),
        protocol: short_if_any(port.protocol),
    }
}

/// A reference by number; its class is 0 where no class has the name.
pub fn reference_plan(reference: &ReferenceEntry) -> ReferencePlan
    ensures { result ≡ reference_plan reference.now }
{
    let class = match short_if_any(reference.class) {
        Some(class) => class,
        None => 0,
    };
    let count = match reference.count {
        Some(count) => count,
        None => 1,
    };
    ReferencePlan {
        class,
        kind: reference.kind,
        count: count32(count),
    }
}

fn class_at<'m, 't>(actors: &'t [Container<'m>], class: Option<usize>) -> Option<&'t Container<'m>>
    ensures { option_map (λ c. c.now) result ≡ option_and_then (slice_get actors.entry.now) class }
{
    match class {
        Some(class) => actors.get(class),
        None => None,
    }
}

/// What the class of a reference, by number, knows of its parts; none where there is no such reference
/// or class.
pub fn class_behind<'m, 't>(
    actors: &'t [Container<'m>],
    class: &Container,
    reference: u16,
) -> Option<&'t Container<'m>>
    ensures { option_map (λ c. c.now) result ≡ class_behind actors.entry.now class.now reference }
{
    match class.references.as_slice().get(usize::from(reference)) {
        Some(entry) => class_at(actors, entry.class),
        None => None,
    }
}

/// The number of a port in the class of a reference.
fn port_behind<'m, 't>(
    actors: &'t [Container<'m>],
    class: &Container,
    reference: u16,
    name: &[u8],
) -> Option<u16>
    ensures { result ≡ port_behind actors.entry.now class.now reference name.now }
{
    match class_behind(actors, class, reference) {
        Some(behind) => number_of(&behind.port_names, name),
        None => None,
    }
}

fn own_side(class: &Container, name: &[u8]) -> Option<SidePlan>
    ensures { result ≡ option_map (λ p. SidePlan.Own p) (number_of class.now.port_names name.now) }
{
    match number_of(&class.port_names, name) {
        Some(port) => Some(SidePlan::Own { port }),
        None => None,
    }
}

fn inner_side<'m, 't>(
    actors: &'t [Container<'m>],
    class: &Container,
    port: &[u8],
    reference: u16,
) -> Option<SidePlan>
    ensures { result ≡ inner_side actors.entry.now class.now port.now reference }
{
    match port_behind(actors, class, reference, port) {
        Some(port) => Some(SidePlan::Inner { reference, port }),
        None => None,
    }
}

fn named_side<'m, 't>(
    actors: &'t [Container<'m>],
    class: &Container,
    reference: &[u8],
    port: &[u8],
) -> Option<SidePlan>
    ensures { result ≡ option_and_then (inner_side actors.entry.now class.now port.now) (number_of
        class.now.reference_names reference.now) }
{
    match number_of(&class.reference_names, reference) {
        Some(reference) => inner_side(actors, class, port, reference),
        None => None,
    }
}

/// What a side of a binding names.
fn side_plan<'m, 't>(
    actors: &'t [Container<'m>],
    class: &Container,
    side: &Side,
) -> Option<SidePlan>
    ensures { result ≡ side_plan actors.entry.now class.now side.now }
{
    match side {
        Side::Own(name) => own_side(class, name.as_bytes()),
        Side::Inner { reference, port } => {
            named_side(actors, class, reference.as_bytes(), port.as_bytes())
        }
    }
}

fn joined(left: Option<SidePlan>, right: Option<SidePlan>) -> Option<BindingPlan>
    ensures { result ≡ joined left right }
{
    match (left, right) {
        (Some(left), Some(right)) => Some(BindingPlan { left, right }),
        _ => None,
    }
}

/// What a binding joins, where its names are known.
pub(crate) fn binding_plan<'m, 't>(
    actors: &'t [Container<'m>],
    class: &Container,
    binding: &Binding,
) -> Option<BindingPlan>
    ensures { result ≡ binding_plan actors.entry.now class.now binding.now }
{
    joined(
        side_plan(actors, class, &binding.left),
        side_plan(actors, class, &binding.right),
    )
}

fn layer_to<'m, 't>(
    actors: &'t [Container<'m>],
    class: &Container,
    service: &[u8],
    reference: u16,
    provider: u16,
) -> Option<LayerPlan>
    ensures { result ≡ layer_to actors.entry.now class.now service.now reference provider }
{
    match port_behind(actors, class, provider, service) {
        Some(service) => Some(LayerPlan {
            reference,
            provider,
            service,
        }),
        None => None,
    }
}

fn layer_from<'m, 't>(
    actors: &'t [Container<'m>],
    class: &Container,
    layer: &LayerConnection,
    reference: u16,
) -> Option<LayerPlan>
    ensures { result ≡ layer_from actors.entry.now class.now layer.now reference }
{
    match number_of(&class.reference_names, layer.provider.as_bytes()) {
        Some(provider) => layer_to(actors, class, layer.service.as_bytes(), reference, provider),
        None => None,
    }
}

/// What a layer connection names, where its names are known.
pub(crate) fn layer_plan<'m, 't>(
    actors: &'t [Container<'m>],
    class: &Container,
    layer: &LayerConnection,
) -> Option<LayerPlan>
    ensures { result ≡ layer_plan actors.entry.now class.now layer.now }
{
    match number_of(&class.reference_names, layer.reference.as_bytes()) {
        Some(reference) => layer_from(actors, class, layer, reference),
        None => None,
    }
}
