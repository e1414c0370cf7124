//! The subsystem classes of a model, each with what it knows of its references.
ghost use Rattle.std.specs.Prelude.{◌≡◌, ℕ, List, IfOk, map};
ghost use Rattle.room_ast.specs.Trees.{class_view};
ghost use Rattle.check_tables.specs.class_tables.Containers.{subsystem_containers};
ghost use Rattle.check_mappings.specs.mapping_rules.Rules.{wired_in};
ghost use Rattle.check_mappings.specs.mapping_rules.Wireds.{wired_view};

use check_tables::Container;
use room_ast::{Class, SubsystemItem};
use std::alloc::{AllocError, Global};

/// A subsystem class: its items, and what it knows of its references.
#[derive(Clone, Copy, Drop)]
pub(crate) struct Wired<'m, 't> {
    pub(crate) items: &'t [SubsystemItem],
    pub(crate) container: &'t Container<'m>,
}

/// The subsystem classes, where `containers` is what each knows of its references.
#[tactic(auto, using(crate::proofs::mapping_rules::Pairing::paired_start))]
pub(crate) fn wired_in<'m, 't>(
    alloc: Global,
    classes: &'t [Class],
    containers: &'t [Container<'m>],
) -> Result<Vec<Wired<'m, 't>>, AllocError>
    ensures { IfOk result (λ v.
        (actors : List (List ℕ))
        → containers.entry.now ≡ subsystem_containers actors (map class_view classes.entry.now)
        → map wired_view v.items ≡ wired_in actors (map class_view classes.entry.now)) }
{
    let mut wired = Vec::new(alloc);
    let mut left = containers;
    for class in classes {
        if let Class::Subsystem(subsystem) = class {
            let [container, others @ ..] = left else {
                return Ok(wired);
            };
            wired.push(Wired {
                items: subsystem.items.as_slice(),
                container,
            })?;
            left = others;
        }
    }
    Ok(wired)
}
