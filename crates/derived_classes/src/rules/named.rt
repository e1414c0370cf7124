//! What refinements name.
ghost use Rattle.std.specs.Prelude.{◌≡◌, ◌∷◌, IfOk, option_map, nat_eq};
ghost use Rattle.std.specs.List.{list_all};
ghost use Rattle.room_ast.specs.ChartTree.{item_view, state_view, graph_view};
ghost use Rattle.room_ast.specs.Trees.{actor_view};
ghost use Rattle.derived_classes.specs.Refining.{Refining, as_state, first_state, graph_in, is_called, transitions_named, names_states, names_transition, is_named};
ghost use Rattle.derived_classes.specs.Derived.{chart_is_known, refines_known, graph_of, refinements_of};
ghost use Rattle.derived_classes.specs.Views.{refining_view, refining_views};

use crate::machine_of;
use crate::refining::{Pending, refinements};
use crate::rules::search::are_named;
use room_ast::{ActorClass, Change, GraphItem, Name, State};
use std::alloc::{AllocError, Global};

/// An item of a graph, if it is a state of this name.
fn as_state<'a>(item: &'a GraphItem, name: &[u8]) -> Option<&'a State>
    ensures { option_map (λ s. state_view s.now) result
        ≡ as_state name.now (item_view item.entry.now) }
{
    match item {
        GraphItem::State(state) => {
            if state.name.is(name) {
                Some(state)
            } else {
                None
            }
        }
        GraphItem::Choice(_) => None,
        GraphItem::Point(_) => None,
        GraphItem::Transition(_) => None,
        GraphItem::Refinement(_) => None,
    }
}

/// The first state of a name.
fn first_state<'a>(items: &'a [GraphItem], name: &[u8]) -> Option<&'a State>
    ensures { option_map (λ s. state_view s.now) result
        ≡ first_state name.now (graph_view items.entry.now) }
{
    for item in items {
        if let Some(state) = as_state(item, name) {
            return Some(state);
        }
    }
    None
}

/// The graph of a state; it is empty where the state has no subgraph.
pub(super) fn graph_in<'a>(state: &'a State) -> &'a [GraphItem]
    ensures { graph_view result.now ≡ graph_in (state_view state.entry.now) }
{
    let Some(body) = &state.body else {
        return &[];
    };
    match &body.subgraph {
        Some(items) => items.as_slice(),
        None => &[],
    }
}

/// Whether names lead from a graph through states.
fn names_states<'a>(items: &'a [GraphItem], path: &[Name]) -> bool
    ensures { result ≡ names_states path.now (graph_view items.entry.now) }
{
    let mut graph = items;
    for name in path {
        match first_state(graph, name.as_bytes()) {
            Some(state) => graph = graph_in(state),
            None => return false,
        }
    }
    true
}

/// Whether an item of a graph is a transition of this name.
fn is_called(item: &GraphItem, name: &[u8]) -> bool
    ensures { result ≡ is_called name.now (item_view item.now) }
{
    match item {
        GraphItem::Transition(transition) => match &transition.name {
            Some(other) => other.is(name),
            None => false,
        },
        GraphItem::State(_) => false,
        GraphItem::Choice(_) => false,
        GraphItem::Point(_) => false,
        GraphItem::Refinement(_) => false,
    }
}

/// Whether exactly one transition of a graph has this name.
fn is_named_once(items: &[GraphItem], name: &[u8]) -> bool
    ensures { result ≡ nat_eq (transitions_named name.now (graph_view items.now)) 1 }
{
    let mut found = false;
    for item in items {
        if is_called(item, name) {
            if found {
                return false;
            }
            found = true;
        }
    }
    found
}

/// Whether names lead from a graph through states, and the last of them then names exactly one
/// transition.
fn names_transition<'a>(items: &'a [GraphItem], first: &Name, others: &[Name]) -> bool
    ensures { result ≡ names_transition (first.now ∷ others.now) (graph_view items.entry.now) }
{
    let (mut graph, mut name, mut rest) = (items, first, others);
    while let [next, behind @ ..] = rest {
        match first_state(graph, name.as_bytes()) {
            Some(state) => graph = graph_in(state),
            None => return false,
        }
        name = next;
        rest = behind;
    }
    is_named_once(graph, name.as_bytes())
}

/// Whether a refinement names what a graph has.
fn is_named<'a>(items: &'a [GraphItem], one: &Pending) -> bool
    ensures { result ≡ is_named (graph_view items.entry.now) (refining_view one.now).path
        (refining_view one.now).change }
{
    match (one.change, one.next) {
        (Change::State(_), None) => true,
        (Change::Transition(_), None) => false,
        (Change::Transition(_), Some(first)) => names_transition(items, first, one.others),
        (Change::State(_), Some(first)) => match first_state(items, first.as_bytes()) {
            Some(state) => names_states(graph_in(state), one.others),
            None => false,
        },
    }
}

/// Whether a graph has what each of these refinements names, each sought by itself.
fn all_are_named<'a>(items: &'a [GraphItem], pending: &[Pending]) -> bool
    ensures { result
        ≡ list_all (λ (r : Refining). is_named (graph_view items.entry.now) r.path r.change)
        (refining_views pending.now) }
{
    for one in pending {
        if !is_named(items, one) {
            return false;
        }
    }
    true
}

/// The graph of a class; it is empty where the class has no state machine.
pub(crate) fn graph_of<'a>(class: &'a ActorClass) -> &'a [GraphItem]
    ensures { graph_view result.now ≡ graph_of (actor_view class.entry.now) }
{
    match machine_of(class) {
        Some(machine) => machine.items.as_slice(),
        None => &[],
    }
}

/// The refinements of a class's top graph.
pub(crate) fn refinements_of<'a>(
    alloc: Global,
    class: &'a ActorClass,
) -> Result<Vec<Pending<'a>>, AllocError>
    ensures { IfOk result (λ v.
        refining_views v.items ≡ refinements_of (actor_view class.entry.now)) }
{
    match machine_of(class) {
        Some(machine) => refinements(alloc, &machine.items),
        None => Ok(Vec::new(alloc)),
    }
}

/// Of how many refinements each is sought by itself. For more of them tables of the graph's names are
/// made, which take longer than a few searches.
const FEW: usize = 4;

/// Whether each refinement of a class names what this chart has. It takes time in proportion to the chart
/// and to the names of the refinements.
pub fn chart_is_known<'a>(
    alloc: Global,
    chart: &'a [GraphItem],
    own: &'a ActorClass,
) -> Result<bool, AllocError>
    ensures { IfOk result (λ b.
        b ≡ chart_is_known (graph_view chart.entry.now) (actor_view own.entry.now)) }
{
    let sought = refinements_of(alloc, own)?;
    if sought.len() <= FEW {
        return Ok(all_are_named(chart, sought.as_slice()));
    }
    are_named(alloc, chart, sought)
}

/// Whether each refinement of a class names what the chart of its flat base has.
pub fn refines_known(alloc: Global, base: &ActorClass, own: &ActorClass) -> Result<bool, AllocError>
    ensures { IfOk result (λ b. b ≡ refines_known (actor_view base.now) (actor_view own.now)) }
{
    chart_is_known(alloc, graph_of(base), own)
}
