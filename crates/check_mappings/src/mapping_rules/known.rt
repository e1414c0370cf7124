//! Whether mappings name paths that exist, and threads.
ghost use Rattle.std.specs.Prelude.{◌≡◌, ◌++◌, IfOk, OnOk, map};
ghost use Rattle.std.specs.List.{list_all};
ghost use Rattle.std.specs.Option.{option_to_list};
ghost use Rattle.name_tables.specs.name_numbers.Names.{names_of};
ghost use Rattle.room_ast.specs.MappingTree.{mapping_view, mappings_of};
ghost use Rattle.room_ast.specs.Trees.{model_view, subsystem_item_view};
ghost use Rattle.check_tables.specs.class_tables.Containers.{tables_of};
ghost use Rattle.check_mappings.specs.mapping_rules.Places.{place_view};
ghost use Rattle.check_mappings.specs.mapping_rules.Rules.{thread_name, thread_names, is_known, all_known, item_known, items_known, subsystem_known, mappings_are_known};
ghost use Rattle.check_mappings.specs.mapping_rules.Wireds.{wired_view};

use crate::mapping_rules::walk::{Place, path_end, top};
use crate::mapping_rules::wired::{Wired, wired_in};
use check_tables::{Container, Tables};
use name_tables::NameIndex;
use room_ast::{Mapping, Model, SubsystemItem};
use std::alloc::{AllocError, Global};

/// Whether a mapping's path exists from a place on, its thread is one, and so are those in its braces.
#[cycle(known)]
fn is_known<'m, 't>(
    classes: &'t [Container<'m>],
    threads: &NameIndex,
    place: Place<'m, 't>,
    mapping: &Mapping,
) -> bool
    ensures { result ≡ is_known classes.entry.now threads.now (place_view place.entry)
        (mapping_view mapping.now) }
{
    if !(&*threads).has(mapping.thread.as_bytes()) {
        return false;
    }
    let Some(end) = path_end(classes, place, &mapping.path) else {
        return false;
    };
    match &mapping.nested {
        Some(nested) => all_known(classes, &*threads, end, nested),
        None => true,
    }
}

#[cycle(known)]
fn all_known<'m, 't>(
    classes: &'t [Container<'m>],
    threads: &NameIndex,
    place: Place<'m, 't>,
    mappings: &Vec<Mapping>,
) -> bool
    ensures { result ≡ all_known classes.entry.now threads.now (place_view place.entry)
        (mappings_of (map mapping_view mappings.now.items)) }
{
    for mapping in mappings {
        if !is_known(classes, &*threads, place, mapping) {
            return false;
        }
    }
    true
}

fn item_known<'m, 't>(
    classes: &'t [Container<'m>],
    threads: &NameIndex,
    place: Place<'m, 't>,
    item: &SubsystemItem,
) -> bool
    ensures { result ≡ item_known classes.entry.now threads.now (place_view place.entry)
        (subsystem_item_view item.now) }
{
    match item {
        SubsystemItem::Mapping(mapping) => is_known(classes, threads, place, mapping),
        _ => true,
    }
}

fn items_known<'m, 't>(
    classes: &'t [Container<'m>],
    threads: &NameIndex,
    place: Place<'m, 't>,
    items: &[SubsystemItem],
) -> bool
    ensures { result ≡ items_known classes.entry.now threads.now (place_view place.entry)
        (map subsystem_item_view items.now) }
{
    for item in items {
        if !item_known(classes, threads, place, item) {
            return false;
        }
    }
    true
}

/// Adds the name of an item that declares a thread.
fn add_thread<'m>(names: &mut Vec<&'m [u8]>, item: &'m SubsystemItem) -> Result<(), AllocError>
    ensures { OnOk result (names_of names.new.items ≡ names_of names.old.items
        ++ option_to_list (thread_name (subsystem_item_view item.entry.now))) }
{
    if let SubsystemItem::Thread(thread) = item {
        names.push(thread.name.as_bytes())?;
    }
    Ok(())
}

/// The names of a subsystem's threads.
pub fn thread_names<'m>(
    alloc: Global,
    items: &'m [SubsystemItem],
) -> Result<NameIndex<'m>, AllocError>
    ensures { IfOk result (λ n. n ≡ thread_names (map subsystem_item_view items.entry.now)) }
{
    let mut names = Vec::new(alloc);
    for item in items {
        add_thread(&mut names, item)?;
    }
    NameIndex::of(alloc, names)
}

fn subsystem_known<'m, 't>(
    alloc: Global,
    classes: &'t [Container<'m>],
    wired: Wired<'m, 't>,
) -> Result<bool, AllocError>
    ensures { IfOk result (λ b. b ≡ subsystem_known classes.entry.now (wired_view wired.entry)) }
{
    let threads = thread_names(alloc, wired.items)?;
    Ok(items_known(classes, &threads, top(wired.container), wired.items))
}

fn all_subsystems_known<'m, 't>(
    alloc: Global,
    classes: &'t [Container<'m>],
    wired: &[Wired<'m, 't>],
) -> Result<bool, AllocError>
    ensures { IfOk result (λ b.
        b ≡ list_all (subsystem_known classes.entry.now) (map wired_view wired.now)) }
{
    for subsystem in wired {
        if !subsystem_known(alloc, classes, *subsystem)? {
            return Ok(false);
        }
    }
    Ok(true)
}

/// Whether every mapping names a reference path that exists, with indexes in range, and a thread.
#[tactic(auto, unfolding(crate::specs::mapping_rules::Rules::mappings_are_known), using(crate::proofs::mapping_rules::Tops::known_top))]
pub fn mappings_are_known(alloc: Global, model: &Model, tables: &Tables) -> Result<bool, AllocError>
    requires { tables.now ≡ tables_of (model_view model.now) }
    ensures { IfOk result (λ b. b ≡ mappings_are_known (model_view model.now)) }
{
    let wired = wired_in(
        alloc,
        model.classes.as_slice(),
        tables.subsystems.as_slice(),
    )?;
    let known = all_subsystems_known(alloc, tables.actors.as_slice(), &wired)?;
    Ok(known)
}
