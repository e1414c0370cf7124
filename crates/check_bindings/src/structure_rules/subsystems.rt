//! The references of subsystem classes.

ghost use Rattle.std.specs.Prelude.{◌≡◌, IfOk};
ghost use Rattle.std.specs.List.{list_all};
ghost use Rattle.check_bindings.specs.structure_rules.Subsystems.{is_fixed, has_plain_references, subsystem_references_are_plain};

use check_tables::{Container, Tables};
use name_tables::are_distinct;
use room_ast::ReferenceEntry;
use room_kinds::ReferenceKind;
use std::alloc::{AllocError, Global};

fn is_fixed(kind: ReferenceKind) -> bool
    ensures { result ≡ is_fixed kind }
{
    match kind {
        ReferenceKind::Fixed => true,
        ReferenceKind::Optional | ReferenceKind::Imported => false,
    }
}

fn are_fixed(references: &[ReferenceEntry]) -> bool
    ensures { result ≡ list_all (λ r. is_fixed r.kind) references.now }
{
    references.iter().all(|reference| is_fixed(reference.kind))
}

fn has_plain_references(alloc: Global, class: &Container) -> Result<bool, AllocError>
    ensures { IfOk result (λ b. b ≡ has_plain_references class.now) }
{
    let distinct = are_distinct(alloc, class.reference_names.names())?;
    Ok(distinct && are_fixed(class.references.as_slice()))
}

fn all_have_plain_references(alloc: Global, classes: &[Container]) -> Result<bool, AllocError>
    ensures { IfOk result (λ b. b ≡ list_all has_plain_references classes.now) }
{
    for class in classes {
        if !has_plain_references(alloc, class)? {
            return Ok(false);
        }
    }
    Ok(true)
}

/// Whether the references of each SubSystemClass have distinct names and are fixed.
#[tactic(auto, unfolding(crate::specs::structure_rules::Subsystems::subsystem_references_are_plain))]
pub fn subsystem_references_are_plain(alloc: Global, tables: &Tables) -> Result<bool, AllocError>
    ensures { IfOk result (λ b. b ≡ subsystem_references_are_plain tables.now) }
{
    all_have_plain_references(alloc, tables.subsystems.as_slice())
}
