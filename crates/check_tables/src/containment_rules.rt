//! The rules that no class contains itself.

ghost use Rattle.std.specs.Prelude.{◌≡◌, not, IfOk, map};
ghost use Rattle.std.specs.List.{filter_map};
ghost use Rattle.room_ast.specs.Trees.{model_view};
ghost use Rattle.check_tables.specs.class_tables.Containers.{tables_of};
ghost use Rattle.number_graphs.specs.class_containment.Containment.{contains_itself};
ghost use Rattle.check_tables.specs.containment_rules.Circles.{class_of_type, classes_of_types, class_of_reference, classes_of_container, data_is_finite, actors_are_finite};

use crate::class_tables::{Container, Tables};
use number_graphs::contains_itself;
use room_ast::{Model, ReferenceEntry, TypeEntry};
use room_kinds::Sequence;
use std::alloc::{AllocError, Global};

fn class_of_type(entry: TypeEntry) -> Option<usize>
    ensures { result ≡ class_of_type entry }
{
    match entry {
        TypeEntry::Class(class) => Some(class),
        TypeEntry::Number(_) => None,
        TypeEntry::Unknown => None,
    }
}

fn classes_of_types(alloc: Global, types: &[TypeEntry]) -> Result<Vec<usize>, AllocError>
    ensures { IfOk result (λ v. v.items ≡ filter_map class_of_type types.now) }
{
    types
        .iter()
        .filter_map(|entry| class_of_type(*entry))
        .collect(alloc)
}

fn classes_of_references(
    alloc: Global,
    references: &[ReferenceEntry],
) -> Result<Vec<usize>, AllocError>
    ensures { IfOk result (λ v. v.items ≡ filter_map class_of_reference references.now) }
{
    references
        .iter()
        .filter_map(|reference| reference.class)
        .collect(alloc)
}

/// The data classes of the fields of each data class, by number.
pub fn parts_of_data(
    alloc: Global,
    data_types: &[Sequence<TypeEntry>],
) -> Result<Vec<Sequence<usize>>, AllocError>
    ensures { IfOk result (λ v. v.items ≡ map classes_of_types data_types.now) }
{
    let mut parts = Vec::new(alloc);
    for types in data_types {
        let classes = classes_of_types(alloc, types.as_slice())?;
        parts.push(Sequence::from(classes))?;
    }
    Ok(parts)
}

fn parts_of_actors(
    alloc: Global,
    containers: &[Container],
) -> Result<Vec<Sequence<usize>>, AllocError>
    ensures { IfOk result (λ v. v.items ≡ map classes_of_container containers.now) }
{
    let mut parts = Vec::new(alloc);
    for container in containers {
        let classes = classes_of_references(alloc, container.references.as_slice())?;
        parts.push(Sequence::from(classes))?;
    }
    Ok(parts)
}

fn data_in_circles(alloc: Global, data_types: &[Sequence<TypeEntry>]) -> Result<bool, AllocError>
    ensures { IfOk result (λ b. b ≡ contains_itself (map classes_of_types data_types.now)) }
{
    let parts = parts_of_data(alloc, data_types)?;
    contains_itself(alloc, parts.as_slice())
}

fn actors_in_circles(alloc: Global, containers: &[Container]) -> Result<bool, AllocError>
    ensures { IfOk result (λ b. b ≡ contains_itself (map classes_of_container containers.now)) }
{
    let parts = parts_of_actors(alloc, containers)?;
    contains_itself(alloc, parts.as_slice())
}

/// Whether no data class contains itself. It takes time in proportion to the classes and their fields.
#[tactic(auto, using(crate::proofs::containment_rules::PartLaws::data_finite))]
pub fn data_is_finite(alloc: Global, model: &Model, tables: &Tables) -> Result<bool, AllocError>
    requires { tables.now ≡ tables_of (model_view model.now) }
    ensures { IfOk result (λ b. b ≡ data_is_finite (model_view model.now)) }
{
    let _model = model;
    let circles = data_in_circles(alloc, tables.data_types.as_slice())?;
    Ok(!circles)
}

/// Whether no actor class contains itself through references.
#[tactic(auto, using(crate::proofs::containment_rules::PartLaws::actors_finite))]
pub fn actors_are_finite(alloc: Global, model: &Model, tables: &Tables) -> Result<bool, AllocError>
    requires { tables.now ≡ tables_of (model_view model.now) }
    ensures { IfOk result (λ b. b ≡ actors_are_finite (model_view model.now)) }
{
    let _model = model;
    let circles = actors_in_circles(alloc, tables.actors.as_slice())?;
    Ok(!circles)
}
