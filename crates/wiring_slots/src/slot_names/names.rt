//! The controllers, the names of the slots, and the mappings.
ghost use Rattle.std.specs.Prelude.{◌≡◌, ◌∷◌, [], Some, codes, map, unwrap_or, IfOk};
ghost use Rattle.std.specs.List.{flat_map};
ghost use Rattle.name_tables.specs.name_numbers.Names.{names_of};
ghost use Rattle.room_ast.specs.Trees.{class_view, model_view};
ghost use Rattle.check_tables.specs.class_tables.Containers.{tables_of};
ghost use Rattle.wiring_plan.specs.wiring_classes.Labels.{label_of};
ghost use Rattle.wiring_plan.specs.wiring_classes.Parts.{named};
ghost use Rattle.wiring_slots.specs.slot_names.Ways.{item_mappings};
ghost use Rattle.wiring_slots.specs.slot_names.Wireds.{wired_view};
ghost use Rattle.wiring_slots.specs.slot_names.Found.{wired_in};
ghost use Rattle.wiring_slots.specs.slot_names.Names.{reference_label, labels_of, controllers_of, names_with, nothing_wired, wired_names};

use crate::slot_names::ways::add_item;
use crate::slot_names::wired::{Wired, wired_in};
use crate::slot_tree::{MappingOrder, ReferenceLabel, SlotNames};
use check_mappings::thread_names;
use check_tables::{Container, Tables};
use name_tables::NameIndex;
use room_ast::{Class, Model, ReferenceEntry};
use room_kinds::Sequence;
use room_wiring::Label;
use std::alloc::{AllocError, Global};
use wiring_plan::label_of;

/// What a model's slots are called, its mappings in order of declaration, and the names of its
/// controllers by number.
#[derive(Drop)]
pub struct WiredNames {
    pub slots: SlotNames,
    pub mappings: MappingOrder,
    pub controllers: Sequence<Label>,
}

// ---- labels

fn reference_label(
    alloc: Global,
    name: &[u8],
    reference: &ReferenceEntry,
) -> Result<ReferenceLabel, AllocError>
    ensures { IfOk result (λ l. l ≡ reference_label name.now reference.now) }
{
    let name = label_of(alloc, name)?;
    Ok(ReferenceLabel {
        name,
        replicated: reference.count.is_some(),
    })
}

fn labels_with(
    alloc: Global,
    names: &[&[u8]],
    references: &[ReferenceEntry],
) -> Result<Vec<ReferenceLabel>, AllocError>
    ensures { IfOk result (λ v.
        v.items ≡ named reference_label (names_of names.now) references.now) }
{
    let mut labels = Vec::with_capacity(alloc, names.len())?;
    let mut left = references;
    for name in names {
        let [reference, others @ ..] = left else {
            return Ok(labels);
        };
        labels.push(reference_label(alloc, *name, reference)?)?;
        left = others;
    }
    Ok(labels)
}

/// The labels of the references of a class.
fn labels_of(alloc: Global, class: &Container) -> Result<Sequence<ReferenceLabel>, AllocError>
    ensures { IfOk result (λ s. s ≡ labels_of class.now) }
{
    let labels = labels_with(
        alloc,
        class.reference_names.names(),
        class.references.as_slice(),
    )?;
    Ok(Sequence::from(labels))
}

fn all_labels(
    alloc: Global,
    classes: &[Container],
) -> Result<Vec<Sequence<ReferenceLabel>>, AllocError>
    ensures { IfOk result (λ v. v.items ≡ map labels_of classes.now) }
{
    let mut labels = Vec::with_capacity(alloc, classes.len())?;
    for class in classes {
        labels.push(labels_of(alloc, class)?)?;
    }
    Ok(labels)
}

// ---- controllers

fn labels_of_names(alloc: Global, names: &[&[u8]]) -> Result<Vec<Label>, AllocError>
    ensures { IfOk result (λ v. v.items ≡ map label_of (names_of names.now)) }
{
    let mut labels = Vec::new(alloc);
    for name in names {
        labels.push(label_of(alloc, *name)?)?;
    }
    Ok(labels)
}

fn only_default(alloc: Global) -> Result<Vec<Label>, AllocError>
    ensures { IfOk result (λ v. v.items ≡ codes "default" ∷ []) }
{
    let mut labels = Vec::new(alloc);
    labels.push(Label::from_text(alloc, "default")?)?;
    Ok(labels)
}

/// The names of the controllers.
fn controllers_of(alloc: Global, threads: &NameIndex) -> Result<Vec<Label>, AllocError>
    ensures { IfOk result (λ v. v.items ≡ controllers_of threads.now) }
{
    if threads.len() == 0 {
        only_default(alloc)
    } else {
        labels_of_names(alloc, threads.names())
    }
}

// ---- mappings

fn mappings_in<'m, 't>(
    alloc: Global,
    actors: &'t [Container<'m>],
    wired: Wired<'m, 't>,
    threads: &NameIndex,
) -> Result<MappingOrder, AllocError>
    ensures { IfOk result (λ v.
        v ≡ flat_map
        (item_mappings actors.entry.now threads.now
        (record { steps = []; place = Some (wired_view wired.entry).container }))
        (wired_view wired.entry).items) }
{
    let mut plans = MappingOrder::new(alloc);
    for item in wired.items {
        add_item(alloc, &mut plans, actors, threads, wired.container, item)?;
    }
    Ok(plans)
}

// ---- the whole

fn names_with<'m, 't>(
    alloc: Global,
    actors: &'t [Container<'m>],
    wired: Wired<'m, 't>,
) -> Result<WiredNames, AllocError>
    ensures { IfOk result (λ n. n ≡ names_with actors.entry.now (wired_view wired.entry)) }
{
    let threads = thread_names(alloc, wired.items)?;
    let classes = all_labels(alloc, actors)?;
    let subsystem = labels_of(alloc, wired.container)?;
    let mappings = mappings_in(alloc, actors, wired, &threads)?;
    let controllers = controllers_of(alloc, &threads)?;
    Ok(WiredNames {
        slots: SlotNames {
            classes: Sequence::from(classes),
            subsystem,
        },
        mappings,
        controllers: Sequence::from(controllers),
    })
}

/// The names of a model of which no subsystem class is wired.
fn names_without<'m, 't>(
    alloc: Global,
    actors: &'t [Container<'m>],
) -> Result<WiredNames, AllocError>
    ensures { IfOk result (λ n. n ≡ names_with actors.entry.now nothing_wired) }
{
    let classes = all_labels(alloc, actors)?;
    let controllers = only_default(alloc)?;
    Ok(WiredNames {
        slots: SlotNames {
            classes: Sequence::from(classes),
            subsystem: Sequence::new(alloc),
        },
        mappings: MappingOrder::new(alloc),
        controllers: Sequence::from(controllers),
    })
}

fn names_in<'m, 't>(
    alloc: Global,
    classes: &'t [Class],
    actors: &'t [Container<'m>],
    subsystems: &'t [Container<'m>],
) -> Result<WiredNames, AllocError>
    ensures { IfOk result (λ n.
        n ≡ names_with actors.entry.now (unwrap_or
        (wired_in (map class_view classes.entry.now) subsystems.entry.now) nothing_wired)) }
{
    match wired_in(classes, subsystems) {
        Some(wired) => names_with(alloc, actors, wired),
        None => names_without(alloc, actors),
    }
}

/// The controllers, the names of the slots and the mappings of a model, where these are its tables.
#[tactic(auto, using(crate::proofs::slot_names::Tops::names_are))]
pub fn wired_names<'m, 't>(
    alloc: Global,
    model: &'t Model,
    tables: &'t Tables<'m>,
) -> Result<WiredNames, AllocError>
    requires { tables.now ≡ tables_of (model_view model.now) }
    ensures { IfOk result (λ n. n ≡ wired_names (model_view model.entry.now)) }
{
    names_in(
        alloc,
        model.classes.as_slice(),
        tables.actors.as_slice(),
        tables.subsystems.as_slice(),
    )
}
