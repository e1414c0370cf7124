//! The trails of a container, sorted by the slots that they lead to.
//!
//! Trails that go on alike are looked at once for all references, and once more for all indexes of
//! their reference. So many references with many mappings take time in proportion to both, and
//! mappings nested in each other as much at each slot as those that end there.

ghost use Rattle.std.specs.Prelude.{◌≡◌, [], replicate, IfOk, OnOk};
ghost use Rattle.wiring_slots.specs.slot_tree.Runs.{trails_of, AreAlike};
ghost use Rattle.wiring_slots.specs.slot_tree.Leading.{added_at, added_to_each, added_by_index, by_reference, by_index, SortsByReference, SortsByIndex};

use crate::slot_tree::mapping_order::MappingOrder;
use crate::slot_tree::runs::{Run, Trails};
use std::alloc::{AllocError, Global};

fn no_trails(alloc: Global, count: usize) -> Result<Vec<Trails>, AllocError>
    ensures { IfOk result (λ lists. lists.items ≡ replicate count []) }
{
    let mut lists = Vec::new(alloc);
    for _i in 0..count {
        lists.push(Trails::new(alloc))?;
    }
    Ok(lists)
}

/// Adds a run to the list with this number, if there is such a list.
fn add_at(lists: &mut Vec<Trails>, number: usize, run: Run) -> Result<(), AllocError>
    ensures { OnOk result (lists.new.items ≡ added_at number (trails_of run) lists.old.items) }
{
    if number < lists.len() {
        lists[number].push(run)?;
    }
    Ok(())
}

fn add_to_each(lists: &mut Vec<Trails>, run: Run) -> Result<(), AllocError>
    ensures { OnOk result (lists.new.items ≡ added_to_each (trails_of run) lists.old.items) }
{
    for number in 0..lists.len() {
        lists[number].push(run)?;
    }
    Ok(())
}

/// Sorts trails that go on alike.
fn sort_group_by_reference(
    lists: &mut Vec<Trails>,
    mappings: &MappingOrder,
    group: Run,
) -> Result<(), AllocError>
    requires { AreAlike mappings.now group }
    ensures { OnOk result (SortsByReference mappings.now (trails_of group) lists.old.items
        lists.new.items) }
{
    if let Some(step) = mappings.next_step(group.head()) {
        add_at(lists, usize::from(step.reference), group)?;
    }
    Ok(())
}

fn sort_by_reference(
    lists: &mut Vec<Trails>,
    mappings: &MappingOrder,
    run: Run,
) -> Result<(), AllocError>
    ensures { OnOk result (SortsByReference mappings.now (trails_of run) lists.old.items
        lists.new.items) }
{
    let mut first = run.first;
    while first < run.end {
        let group = mappings.group_at(run, first);
        sort_group_by_reference(lists, mappings, group)?;
        first = group.end;
    }
    Ok(())
}

/// For each of so many references, by number, the trails that go on with it.
pub(crate) fn by_reference(
    alloc: Global,
    mappings: &MappingOrder,
    count: usize,
    trails: &Trails,
) -> Result<Vec<Trails>, AllocError>
    ensures { IfOk result (λ lists. lists.items ≡ by_reference mappings.now count trails.now) }
{
    let mut lists = no_trails(alloc, count)?;
    for run in trails.runs() {
        sort_by_reference(&mut lists, mappings, *run)?;
    }
    Ok(lists)
}

/// Adds a run to the list of its index; one without an index leads to the slots of all indexes.
fn add_by_index(lists: &mut Vec<Trails>, index: Option<u64>, run: Run) -> Result<(), AllocError>
    ensures { OnOk result (lists.new.items ≡ added_by_index index (trails_of run) lists.old.items) }
{
    match index {
        Some(index) => add_at(lists, index as usize, run),
        None => add_to_each(lists, run),
    }
}

/// Sorts trails that go on alike, if they go on with this reference.
fn sort_group_by_index(
    lists: &mut Vec<Trails>,
    mappings: &MappingOrder,
    reference: u16,
    group: Run,
) -> Result<(), AllocError>
    requires { AreAlike mappings.now group }
    ensures { OnOk result (SortsByIndex mappings.now reference (trails_of group) lists.old.items
        lists.new.items) }
{
    let Some(step) = mappings.next_step(group.head()) else {
        return Ok(());
    };
    if step.reference == reference {
        add_by_index(lists, step.index, group.further())?;
    }
    Ok(())
}

fn sort_by_index(
    lists: &mut Vec<Trails>,
    mappings: &MappingOrder,
    reference: u16,
    run: Run,
) -> Result<(), AllocError>
    ensures { OnOk result (SortsByIndex mappings.now reference (trails_of run) lists.old.items
        lists.new.items) }
{
    let mut first = run.first;
    while first < run.end {
        let group = mappings.group_at(run, first);
        sort_group_by_index(lists, mappings, reference, group)?;
        first = group.end;
    }
    Ok(())
}

/// For each of so many indexes, the trails that lead to the slot of this reference and of the index.
pub(crate) fn by_index(
    alloc: Global,
    mappings: &MappingOrder,
    reference: u16,
    count: usize,
    trails: &Trails,
) -> Result<Vec<Trails>, AllocError>
    ensures { IfOk result (λ lists.
        lists.items ≡ by_index mappings.now reference count trails.now) }
{
    let mut lists = no_trails(alloc, count)?;
    for run in trails.runs() {
        sort_by_index(&mut lists, mappings, reference, *run)?;
    }
    Ok(lists)
}
