//! The classes of imported references.

ghost use Rattle.std.specs.Prelude.{◌≡◌, ◌||◌, not, IfOk, map, slice_get, unwrap_or, true};
ghost use Rattle.std.specs.List.{list_all};
ghost use Rattle.room_kinds.specs.Structure.{is_imported};
ghost use Rattle.check_bindings.specs.structure_rules.Imported.{fits_import, can_be_imported, is_importable, imports_fit, importable_classes, imported_classes_have_end_ports};

use crate::structure_rules::any_places::is_any;
use check_tables::{Container, Tables};
use room_ast::{PortEntry, ReferenceEntry};
use room_kinds::PortKind;
use std::alloc::{AllocError, Global};

fn fits_import(port: &PortEntry) -> bool
    ensures { result ≡ fits_import port.now }
{
    match port.kind {
        PortKind::Relay | PortKind::Spp => false,
        PortKind::End => !is_any(port.places),
        PortKind::Frame | PortKind::Internal | PortKind::Sap => true,
    }
}

fn can_be_imported(class: &Container) -> bool
    ensures { result ≡ can_be_imported class.now }
{
    class.ports.as_slice().iter().all(|port| fits_import(port))
}

/// Whether each class can be imported, so that each is looked at once.
fn importable_classes(alloc: Global, classes: &[Container]) -> Result<Vec<bool>, AllocError>
    ensures { IfOk result (λ v. v.items ≡ map can_be_imported classes.now) }
{
    classes
        .iter()
        .map(|class| can_be_imported(class))
        .collect(alloc)
}

fn at_class(importable: &[bool], class: usize) -> bool
    ensures { result ≡ unwrap_or (slice_get importable.now class) true }
{
    importable.get(class).copied().unwrap_or(true)
}

fn is_importable(importable: &[bool], class: Option<usize>) -> bool
    ensures { result ≡ is_importable importable.now class }
{
    match class {
        Some(class) => at_class(importable, class),
        None => true,
    }
}

fn import_fits(importable: &[bool], reference: &ReferenceEntry) -> bool
    ensures { result ≡ (not (is_imported reference.now.kind)
        || is_importable importable.now reference.now.class) }
{
    !reference.kind.is_imported() || is_importable(importable, reference.class)
}

fn imports_fit(importable: &[bool], class: &Container) -> bool
    ensures { result ≡ imports_fit importable.now class.now }
{
    class
        .references
        .as_slice()
        .iter()
        .all(|reference| import_fits(importable, reference))
}

fn all_imports_fit(importable: &[bool], classes: &[Container]) -> bool
    ensures { result ≡ list_all (imports_fit importable.now) classes.now }
{
    classes.iter().all(|class| imports_fit(importable, class))
}

/// Whether the class of each imported reference has in its Interface only end ports with a number or
/// none, and no SPP.
#[tactic(auto, unfolding(crate::specs::structure_rules::Imported::imported_classes_have_end_ports))]
pub fn imported_classes_have_end_ports(alloc: Global, tables: &Tables) -> Result<bool, AllocError>
    ensures { IfOk result (λ b. b ≡ imported_classes_have_end_ports tables.now) }
{
    let importable = importable_classes(alloc, tables.actors.as_slice())?;
    Ok(
        all_imports_fit(&importable, tables.actors.as_slice())
            && all_imports_fit(&importable, tables.subsystems.as_slice()),
    )
}
