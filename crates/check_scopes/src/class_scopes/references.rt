//! The references of a class.

ghost use Rattle.std.specs.Prelude.{◌≡◌, map, option_map, IfOk};
ghost use Rattle.std.specs.List.{filter_map};
ghost use Rattle.room_ast.specs.model_parts.References.{as_reference, kind_of};
ghost use Rattle.check_scopes.specs.class_scopes.Views.{reference_view};
ghost use Rattle.check_scopes.specs.class_scopes.Scopes.{reference_of};

use check_tables::{as_reference, push_if};
use room_ast::{ActorRef, ScopeReference, StructureItem};
use room_kinds::ReferenceKind;
use std::alloc::{AllocError, Global};

fn kind_of(reference: &ActorRef) -> ReferenceKind
    ensures { result ≡ kind_of reference.now }
{
    match reference.kind {
        Some(kind) => kind,
        None => ReferenceKind::Fixed,
    }
}

fn reference_of(alloc: Global, reference: &ActorRef) -> Result<ScopeReference, AllocError>
    ensures { IfOk result (λ r. reference_view r ≡ reference_of reference.now) }
{
    let name = reference.name.copy(alloc)?;
    Ok(ScopeReference {
        name,
        kind: kind_of(reference),
    })
}

fn reference_if(alloc: Global, item: &StructureItem) -> Result<Option<ScopeReference>, AllocError>
    ensures { IfOk result (λ r.
        option_map reference_view r ≡ option_map reference_of (as_reference item.now)) }
{
    match as_reference(item) {
        Some(reference) => {
            let reference = reference_of(alloc, reference)?;
            Ok(Some(reference))
        }
        None => Ok(None),
    }
}

/// The references among items of a Structure, by number.
pub(crate) fn references_of(
    alloc: Global,
    items: &[StructureItem],
) -> Result<Vec<ScopeReference>, AllocError>
    ensures { IfOk result (λ v.
        map reference_view v.items ≡ map reference_of (filter_map as_reference items.now)) }
{
    let mut references = Vec::new(alloc);
    for item in items {
        push_if(&mut references, reference_if(alloc, item)?)?;
    }
    Ok(references)
}
