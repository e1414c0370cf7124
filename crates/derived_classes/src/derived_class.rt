//! A class over its base.
ghost use Rattle.std.specs.Prelude.{◌≡◌, ◌++◌, Some, IfOk, OnOk, option_map};
ghost use Rattle.room_ast.specs.ChartTree.{GraphItems, item, item_view, graph_view};
ghost use Rattle.room_ast.specs.Trees.{actor_view, behavior_view};
ghost use Rattle.derived_classes.specs.Derived.{chart_over, joined_items, derived_machine, derived_behavior, derived, graph_of};
ghost use Rattle.derived_classes.specs.Refining.{followed_by, other_items};
ghost use Rattle.derived_classes.specs.Views.{machine_view};

use crate::copies::{
    copy_interface_item, copy_item, copy_items, copy_name_if, copy_structure_item,
};
use crate::machine_of;
use crate::refining::{refine_items, refinements};
use crate::rules::refinements_of;
use room_ast::{ActorClass, Behavior, GraphItem, InterfaceItem, StateMachine, StructureItem};
use room_kinds::Sequence;
use std::alloc::{AllocError, Global};

/// Adds copies of items of an interface.
fn add_interface(
    alloc: Global,
    items: &mut Vec<InterfaceItem>,
    more: &[InterfaceItem],
) -> Result<(), AllocError>
    ensures { OnOk result (items.new.items ≡ items.old.items ++ more.now) }
{
    items.reserve_exact(more.len())?;
    for item in more {
        let item = copy_interface_item(alloc, item)?;
        items.push(item)?;
    }
    Ok(())
}

fn joined_interface(
    alloc: Global,
    base: &Option<Sequence<InterfaceItem>>,
    own: &Option<Sequence<InterfaceItem>>,
) -> Result<Option<Sequence<InterfaceItem>>, AllocError>
    ensures { IfOk result (λ items. items ≡ joined_items base.now own.now) }
{
    let mut items = Vec::new(alloc);
    match (base, own) {
        (Some(base), Some(own)) => {
            add_interface(alloc, &mut items, base.as_slice())?;
            add_interface(alloc, &mut items, own.as_slice())?;
            Ok(Some(Sequence::from(items)))
        }
        (Some(base), None) => {
            add_interface(alloc, &mut items, base.as_slice())?;
            Ok(Some(Sequence::from(items)))
        }
        (None, Some(own)) => {
            add_interface(alloc, &mut items, own.as_slice())?;
            Ok(Some(Sequence::from(items)))
        }
        (None, None) => Ok(None),
    }
}

/// Adds copies of items of a structure.
fn add_structure(
    alloc: Global,
    items: &mut Vec<StructureItem>,
    more: &[StructureItem],
) -> Result<(), AllocError>
    ensures { OnOk result (items.new.items ≡ items.old.items ++ more.now) }
{
    items.reserve_exact(more.len())?;
    for item in more {
        let item = copy_structure_item(alloc, item)?;
        items.push(item)?;
    }
    Ok(())
}

fn joined_structure(
    alloc: Global,
    base: &Option<Sequence<StructureItem>>,
    own: &Option<Sequence<StructureItem>>,
) -> Result<Option<Sequence<StructureItem>>, AllocError>
    ensures { IfOk result (λ items. items ≡ joined_items base.now own.now) }
{
    let mut items = Vec::new(alloc);
    match (base, own) {
        (Some(base), Some(own)) => {
            add_structure(alloc, &mut items, base.as_slice())?;
            add_structure(alloc, &mut items, own.as_slice())?;
            Ok(Some(Sequence::from(items)))
        }
        (Some(base), None) => {
            add_structure(alloc, &mut items, base.as_slice())?;
            Ok(Some(Sequence::from(items)))
        }
        (None, Some(own)) => {
            add_structure(alloc, &mut items, own.as_slice())?;
            Ok(Some(Sequence::from(items)))
        }
        (None, None) => Ok(None),
    }
}

/// Adds a copy of an item of a graph.
#[tactic(auto, using(crate::proofs::Graphs::followed_push))]
fn push_copy(alloc: Global, items: &mut Vec<GraphItem>, one: &GraphItem) -> Result<(), AllocError>
    ensures { OnOk result ((rest : GraphItems)
        → followed_by (graph_view items.new.items) rest
        ≡ followed_by (graph_view items.old.items) (item (item_view one.now) rest)) }
{
    let copy = copy_item(alloc, one)?;
    items.push(copy)?;
    Ok(())
}

/// Adds a copy of an item of a graph, if it is no refinement.
fn add_other(alloc: Global, items: &mut Vec<GraphItem>, one: &GraphItem) -> Result<(), AllocError>
    ensures { OnOk result ((rest : GraphItems)
        → followed_by (graph_view items.new.items) (other_items rest)
        ≡ followed_by (graph_view items.old.items) (other_items (item (item_view one.now) rest))) }
{
    match one {
        GraphItem::Refinement(_) => Ok(()),
        GraphItem::State(_) => push_copy(alloc, items, one),
        GraphItem::Choice(_) => push_copy(alloc, items, one),
        GraphItem::Point(_) => push_copy(alloc, items, one),
        GraphItem::Transition(_) => push_copy(alloc, items, one),
    }
}

/// Adds copies of the items of a graph that are no refinements.
#[tactic(auto, using(crate::proofs::Graphs::others_done))]
fn add_others(
    alloc: Global,
    items: &mut Vec<GraphItem>,
    more: &Vec<GraphItem>,
) -> Result<(), AllocError>
    ensures { OnOk result (graph_view items.new.items
        ≡ followed_by (graph_view items.old.items) (other_items (graph_view more.now.items))) }
{
    for item in more {
        add_other(alloc, items, item)?;
    }
    Ok(())
}

/// The base's graph with the refinements of a class's top graph, and then the other items of that.
fn both_machines(
    alloc: Global,
    base: &StateMachine,
    own: &StateMachine,
) -> Result<StateMachine, AllocError>
    ensures { IfOk result (λ m.
        Some (machine_view m)
        ≡ derived_machine (Some (machine_view base.now)) (Some (machine_view own.now))) }
{
    let changes = refinements(alloc, &own.items)?;
    let mut chart = copy_items(alloc, &base.items)?;
    refine_items(alloc, &mut chart, changes.as_slice())?;
    add_others(alloc, &mut chart, &own.items)?;
    Ok(StateMachine { items: chart })
}

fn derived_machine(
    alloc: Global,
    base: &Option<StateMachine>,
    own: &Option<StateMachine>,
) -> Result<Option<StateMachine>, AllocError>
    ensures { IfOk result (λ m.
        option_map machine_view m
        ≡ derived_machine (option_map machine_view base.now) (option_map machine_view own.now)) }
{
    match (base, own) {
        (Some(base), Some(own)) => Ok(Some(both_machines(alloc, base, own)?)),
        (Some(base), None) => {
            let items = copy_items(alloc, &base.items)?;
            Ok(Some(StateMachine { items }))
        }
        (None, Some(own)) => {
            let mut items = Vec::new(alloc);
            add_others(alloc, &mut items, &own.items)?;
            Ok(Some(StateMachine { items }))
        }
        (None, None) => Ok(None),
    }
}

#[tactic(auto, using(crate::proofs::Graphs::machine_alone))]
fn derived_behavior(
    alloc: Global,
    base: &Option<Behavior>,
    own: &Option<Behavior>,
) -> Result<Option<Behavior>, AllocError>
    ensures { IfOk result (λ b.
        option_map behavior_view b
        ≡ derived_behavior (option_map behavior_view base.now) (option_map behavior_view own.now)) }
{
    match (base, own) {
        (Some(base), Some(own)) => {
            let machine = derived_machine(alloc, &base.machine, &own.machine)?;
            Ok(Some(Behavior { machine }))
        }
        (Some(base), None) => {
            let machine = derived_machine(alloc, &base.machine, &None)?;
            Ok(Some(Behavior { machine }))
        }
        (None, Some(own)) => {
            let machine = derived_machine(alloc, &None, &own.machine)?;
            Ok(Some(Behavior { machine }))
        }
        (None, None) => Ok(None),
    }
}

/// The flat class of a class over its base, which is flat.
pub fn derived(alloc: Global, base: &ActorClass, own: &ActorClass) -> Result<ActorClass, AllocError>
    ensures { IfOk result (λ a. actor_view a ≡ derived (actor_view base.now) (actor_view own.now)) }
{
    let name = own.name.copy(alloc)?;
    let interface = joined_interface(alloc, &base.interface, &own.interface)?;
    let structure = joined_structure(alloc, &base.structure, &own.structure)?;
    let behavior = derived_behavior(alloc, &base.behavior, &own.behavior)?;
    Ok(ActorClass {
        event_driven: own.event_driven,
        name,
        base: None,
        interface,
        structure,
        behavior,
    })
}

/// A copy of a class.
#[tactic(auto, using(crate::proofs::Graphs::items_alone, crate::proofs::Graphs::behavior_alone))]
pub fn copy_actor(alloc: Global, class: &ActorClass) -> Result<ActorClass, AllocError>
    ensures { IfOk result (λ a. actor_view a ≡ actor_view class.now) }
{
    let name = class.name.copy(alloc)?;
    let base = copy_name_if(alloc, &class.base)?;
    let interface = joined_interface(alloc, &class.interface, &None)?;
    let structure = joined_structure(alloc, &class.structure, &None)?;
    let behavior = derived_behavior(alloc, &class.behavior, &None)?;
    Ok(ActorClass {
        event_driven: class.event_driven,
        name,
        base,
        interface,
        structure,
        behavior,
    })
}

// ---- the chart alone

/// A copy of the graph of a class; it is empty where the class has no state machine.
fn own_chart(alloc: Global, own: &ActorClass) -> Result<Vec<GraphItem>, AllocError>
    ensures { IfOk result (λ v. graph_view v.items ≡ graph_of (actor_view own.now)) }
{
    match machine_of(own) {
        Some(machine) => copy_items(alloc, &machine.items),
        None => Ok(Vec::new(alloc)),
    }
}

/// Adds copies of the items of a class's graph that are no refinements.
#[tactic(auto, using(crate::proofs::Graphs::followed_none))]
fn add_own(alloc: Global, chart: &mut Vec<GraphItem>, own: &ActorClass) -> Result<(), AllocError>
    ensures { OnOk result (graph_view chart.new.items
        ≡ followed_by (graph_view chart.old.items) (other_items (graph_of (actor_view own.now)))) }
{
    match machine_of(own) {
        Some(machine) => add_others(alloc, chart, &machine.items),
        None => Ok(()),
    }
}

/// The chart of a class over that of its base, which it takes for its own.
pub fn chart_over(
    alloc: Global,
    own: &ActorClass,
    base: Option<Vec<GraphItem>>,
) -> Result<Vec<GraphItem>, AllocError>
    ensures { IfOk result (λ v.
        graph_view v.items
        ≡ chart_over (actor_view own.now) (option_map (λ b. graph_view b.items) base)) }
{
    let Some(mut chart) = base else {
        return own_chart(alloc, own);
    };
    let changes = refinements_of(alloc, own)?;
    refine_items(alloc, &mut chart, changes.as_slice())?;
    add_own(alloc, &mut chart, own)?;
    Ok(chart)
}
