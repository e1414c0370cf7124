//! Where a path of references leads.
ghost use Rattle.std.specs.Prelude.{◌≡◌, false, option_map};
ghost use Rattle.std.specs.Option.{option_map_or};
ghost use Rattle.room_ast.specs.model_parts.References.{count_of};
ghost use Rattle.check_mappings.specs.mapping_rules.Walks.{top, is_optional, reference_named, index_fits, inside, behind, step, walk, path_end};
ghost use Rattle.check_mappings.specs.mapping_rules.Places.{place_view};

use check_tables::Container;
use room_ast::{MappingPath, ReferenceEntry, Segment};
use room_kinds::ReferenceKind;

/// Where a path has led.
#[derive(Clone, Copy, Drop)]
pub(crate) struct Place<'m, 't> {
    /// The class in which the path can go on, if there is one.
    pub(crate) container: Option<&'t Container<'m>>,
    /// Whether a reference before the last one is optional.
    pub(crate) below_optional: bool,
    /// The kind of the last reference, if there is one.
    pub(crate) kind: Option<ReferenceKind>,
}

/// The place at which the paths of a subsystem begin.
pub(crate) fn top<'m, 't>(subsystem: &'t Container<'m>) -> Place<'m, 't>
    ensures { place_view result ≡ top subsystem.entry.now }
{
    Place {
        container: Some(subsystem),
        below_optional: false,
        kind: None,
    }
}

pub(crate) fn is_optional(kind: ReferenceKind) -> bool
    ensures { result ≡ is_optional kind }
{
    match kind {
        ReferenceKind::Optional => true,
        ReferenceKind::Fixed | ReferenceKind::Imported => false,
    }
}

fn reference_named(container: &Container, name: &[u8]) -> Option<ReferenceEntry>
    ensures { result ≡ reference_named container.now name.now }
{
    let Some(number) = container.reference_names.place_of(name) else {
        return None;
    };
    match container.references.as_slice().get(number) {
        Some(reference) => Some(*reference),
        None => None,
    }
}

/// How many actors a reference stands for.
fn count(reference: ReferenceEntry) -> u64
    ensures { result ≡ count_of reference }
{
    match reference.count {
        Some(count) => count,
        None => 1,
    }
}

fn index_fits(reference: ReferenceEntry, index: Option<u64>) -> bool
    ensures { result ≡ index_fits reference index }
{
    match index {
        Some(index) => index < count(reference),
        None => true,
    }
}

/// The class in which a path goes on behind a reference. An imported reference has no inside.
fn inside<'m, 't>(
    classes: &'t [Container<'m>],
    reference: ReferenceEntry,
) -> Option<&'t Container<'m>>
    ensures { option_map (λ c. c.now) result ≡ inside classes.entry.now reference }
{
    if reference.kind.is_imported() {
        return None;
    }
    match reference.class {
        Some(class) => classes.get(class),
        None => None,
    }
}

/// Whether the last reference of a path is optional.
fn ends_at_optional(place: Place) -> bool
    ensures { result ≡ option_map_or is_optional place.entry.kind false }
{
    match place.kind {
        Some(kind) => is_optional(kind),
        None => false,
    }
}

fn behind<'m, 't>(
    classes: &'t [Container<'m>],
    place: Place<'m, 't>,
    reference: ReferenceEntry,
) -> Place<'m, 't>
    ensures { place_view result ≡ behind classes.entry.now (place_view place.entry) reference }
{
    Place {
        container: inside(classes, reference),
        below_optional: place.below_optional || ends_at_optional(place),
        kind: Some(reference.kind),
    }
}

/// One segment further, if there is such a reference and index.
#[tactic(auto, unfolding(crate::specs::mapping_rules::Walks::step))]
fn step<'m, 't>(
    classes: &'t [Container<'m>],
    place: Place<'m, 't>,
    segment: &Segment,
) -> Option<Place<'m, 't>>
    ensures { option_map place_view result
        ≡ step classes.entry.now (place_view place.entry) segment.now }
{
    let Some(container) = place.container else {
        return None;
    };
    let Some(reference) = reference_named(container, segment.name.as_bytes()) else {
        return None;
    };
    if !index_fits(reference, segment.index) {
        return None;
    }
    Some(behind(classes, place, reference))
}

/// So many segments further.
#[tactic(auto, using(crate::proofs::mapping_rules::Steps::walk_start, crate::proofs::mapping_rules::Steps::walk_more, crate::proofs::mapping_rules::Steps::walk_stops, crate::proofs::mapping_rules::Steps::walk_ends))]
fn walk<'m, 't>(
    classes: &'t [Container<'m>],
    place: Place<'m, 't>,
    segments: &[Segment],
) -> Option<Place<'m, 't>>
    ensures { option_map place_view result
        ≡ walk classes.entry.now (place_view place.entry) segments.now }
{
    let mut reached = place;
    for segment in segments {
        let Some(next) = step(classes, reached, segment) else {
            return None;
        };
        reached = next;
    }
    Some(reached)
}

/// Where a mapping's path leads, if it exists.
#[tactic(auto, unfolding(crate::specs::mapping_rules::Walks::path_end))]
pub(crate) fn path_end<'m, 't>(
    classes: &'t [Container<'m>],
    place: Place<'m, 't>,
    path: &MappingPath,
) -> Option<Place<'m, 't>>
    ensures { option_map place_view result
        ≡ path_end classes.entry.now (place_view place.entry) path.now }
{
    let Some(first) = step(classes, place, &path.first) else {
        return None;
    };
    walk(classes, first, path.others.as_slice())
}
