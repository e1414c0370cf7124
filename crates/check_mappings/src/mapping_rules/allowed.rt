//! Whether mapped paths may be mapped.
ghost use Rattle.std.specs.Prelude.{◌≡◌, IfOk, map};
ghost use Rattle.std.specs.List.{list_all};
ghost use Rattle.room_ast.specs.MappingTree.{mapping_view, mappings_of};
ghost use Rattle.room_ast.specs.Trees.{model_view, subsystem_item_view};
ghost use Rattle.check_mappings.specs.mapping_rules.Places.{place_view};
ghost use Rattle.check_tables.specs.class_tables.Containers.{tables_of};
ghost use Rattle.check_mappings.specs.mapping_rules.Rules.{may_end_with, may_end_at, is_allowed, all_allowed, item_allowed, items_allowed, subsystem_allowed, mappings_are_allowed};
ghost use Rattle.check_mappings.specs.mapping_rules.Wireds.{wired_view};

use crate::mapping_rules::walk::{Place, path_end, top};
use crate::mapping_rules::wired::{Wired, wired_in};
use check_tables::{Container, Tables};
use room_ast::{Mapping, Model, SubsystemItem};
use room_kinds::ReferenceKind;
use std::alloc::{AllocError, Global};

/// Whether a mapped path may end with a reference of this kind, below an optional reference or not.
fn may_end_with(below_optional: bool, kind: ReferenceKind) -> bool
    ensures { result ≡ may_end_with below_optional kind }
{
    match kind {
        ReferenceKind::Fixed => true,
        ReferenceKind::Optional => !below_optional,
        ReferenceKind::Imported => false,
    }
}

/// Whether a path that leads here may be mapped.
fn may_end_at(place: Place) -> bool
    ensures { result ≡ may_end_at (place_view place.entry) }
{
    match place.kind {
        Some(kind) => may_end_with(place.below_optional, kind),
        None => true,
    }
}

/// Whether a mapping's path, where it exists, may be mapped, and so may those in its braces.
#[cycle(allowed)]
fn is_allowed<'m, 't>(classes: &'t [Container<'m>], place: Place<'m, 't>, mapping: &Mapping) -> bool
    ensures { result
        ≡ is_allowed classes.entry.now (place_view place.entry) (mapping_view mapping.now) }
{
    let Some(end) = path_end(classes, place, &mapping.path) else {
        return true;
    };
    if !may_end_at(end) {
        return false;
    }
    match &mapping.nested {
        Some(nested) => all_allowed(classes, end, nested),
        None => true,
    }
}

#[cycle(allowed)]
fn all_allowed<'m, 't>(
    classes: &'t [Container<'m>],
    place: Place<'m, 't>,
    mappings: &Vec<Mapping>,
) -> bool
    ensures { result ≡ all_allowed classes.entry.now (place_view place.entry)
        (mappings_of (map mapping_view mappings.now.items)) }
{
    for mapping in mappings {
        if !is_allowed(classes, place, mapping) {
            return false;
        }
    }
    true
}

fn item_allowed<'m, 't>(
    classes: &'t [Container<'m>],
    place: Place<'m, 't>,
    item: &SubsystemItem,
) -> bool
    ensures { result
        ≡ item_allowed classes.entry.now (place_view place.entry) (subsystem_item_view item.now) }
{
    match item {
        SubsystemItem::Mapping(mapping) => is_allowed(classes, place, mapping),
        _ => true,
    }
}

fn items_allowed<'m, 't>(
    classes: &'t [Container<'m>],
    place: Place<'m, 't>,
    items: &[SubsystemItem],
) -> bool
    ensures { result ≡ items_allowed classes.entry.now (place_view place.entry)
        (map subsystem_item_view items.now) }
{
    for item in items {
        if !item_allowed(classes, place, item) {
            return false;
        }
    }
    true
}

fn subsystem_allowed<'m, 't>(classes: &'t [Container<'m>], wired: Wired<'m, 't>) -> bool
    ensures { result ≡ subsystem_allowed classes.entry.now (wired_view wired.entry) }
{
    items_allowed(classes, top(wired.container), wired.items)
}

fn all_subsystems_allowed<'m, 't>(classes: &'t [Container<'m>], wired: &[Wired<'m, 't>]) -> bool
    ensures { result ≡ list_all (subsystem_allowed classes.entry.now) (map wired_view wired.now) }
{
    for subsystem in wired {
        if !subsystem_allowed(classes, *subsystem) {
            return false;
        }
    }
    true
}

/// Whether no mapped path ends at an imported reference, and each that goes strictly below an
/// optional reference ends at a fixed one.
#[tactic(auto, unfolding(crate::specs::mapping_rules::Rules::mappings_are_allowed), using(crate::proofs::mapping_rules::Tops::allowed_top))]
pub fn mappings_are_allowed(
    alloc: Global,
    model: &Model,
    tables: &Tables,
) -> Result<bool, AllocError>
    requires { tables.now ≡ tables_of (model_view model.now) }
    ensures { IfOk result (λ b. b ≡ mappings_are_allowed (model_view model.now)) }
{
    let wired = wired_in(
        alloc,
        model.classes.as_slice(),
        tables.subsystems.as_slice(),
    )?;
    Ok(all_subsystems_allowed(tables.actors.as_slice(), &wired))
}
