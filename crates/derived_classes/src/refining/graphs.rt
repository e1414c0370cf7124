//! Graphs that get refinements, in their place: what no refinement leads to is neither copied nor moved.
ghost use Rattle.std.specs.Prelude.{◌≡◌, List, IfOk, OnOk};
ghost use Rattle.std.specs.List.{cons_option};
ghost use Rattle.room_ast.specs.ChartTree.{AState, ChangeTree, body_view, body_if_view, item_view, state_view, graph_view};
ghost use Rattle.derived_classes.specs.Refining.{GivesTheSame, all_widened, change_of_state, own_changes, refined, refined_item, refined_state, refined_body, refined_subgraph, with_state};
ghost use Rattle.derived_classes.specs.Views.{IsGrouped, refining_view, refining_views};

use crate::refining::grouped::Grouped;
use crate::refining::paths::{Pending, change_of_state, meant_for};
use crate::refining::widening::{refine_transition, widened};
use name_tables::Numbers;
use room_ast::{GraphItem, State, StateBody};
use std::alloc::{AllocError, Global};

/// A state's body with what a refinement adds, if that is of the state itself.
fn with_change<'a>(
    alloc: Global,
    body: Option<Box<StateBody>>,
    one: &Pending<'a>,
) -> Result<Option<Box<StateBody>>, AllocError>
    ensures { IfOk result (λ b. (others : List ChangeTree)
        → all_widened others (body_if_view b)
        ≡ all_widened
        (cons_option (change_of_state (refining_view one.now).path (refining_view one.now).change)
        others)
        (body_if_view body)) }
{
    match change_of_state(one) {
        Some(change) => widened(alloc, body, change),
        None => Ok(body),
    }
}

/// What is added to a state itself, once its own graph has its refinements.
fn with_own_changes<'a>(
    alloc: Global,
    body: Option<Box<StateBody>>,
    pending: &[Pending<'a>],
) -> Result<Option<Box<StateBody>>, AllocError>
    ensures { IfOk result (λ b.
        body_if_view b
        ≡ all_widened (own_changes (refining_views pending.now)) (body_if_view body)) }
{
    let mut body = body;
    for one in pending {
        body = with_change(alloc, body, one)?;
    }
    Ok(body)
}

/// Refines an item of a graph. `seen` has the names of the states before it that refinements lead to.
#[cycle(refining)]
fn refine_item<'p, 'a>(
    alloc: Global,
    item: &mut GraphItem,
    grouped: &Grouped<'p, 'a>,
    seen: &mut Numbers<'a>,
) -> Result<(), AllocError>
    requires { IsGrouped grouped.now }
    ensures item { OnOk result (item_view item.new
        ≡ refined_item (item_view item.old) seen.old (refining_views grouped.now.pending.now)) }
    ensures names { OnOk result (GivesTheSame (refining_views grouped.now.pending.now) seen.new
        (with_state (item_view item.old) seen.old)) }
{
    match item {
        GraphItem::State(state) => refine_state(alloc, state, grouped, seen),
        GraphItem::Transition(transition) => refine_transition(alloc, transition, grouped),
        GraphItem::Choice(_) => Ok(()),
        GraphItem::Point(_) => Ok(()),
        GraphItem::Refinement(_) => Ok(()),
    }
}

/// Refines a state, if it is the first of its name and a refinement leads to it or into it.
#[cycle(refining)]
fn refine_state<'p, 'a>(
    alloc: Global,
    state: &mut State,
    grouped: &Grouped<'p, 'a>,
    seen: &mut Numbers<'a>,
) -> Result<(), AllocError>
    requires { IsGrouped grouped.now }
    ensures state { OnOk result (state_view state.new
        ≡ refined_state (state_view state.old) seen.old (refining_views grouped.now.pending.now)) }
    ensures names { OnOk result (GivesTheSame (refining_views grouped.now.pending.now) seen.new
        (with_state (AState (state_view state.old)) seen.old)) }
{
    let changes = meant_for(alloc, seen, state.name.as_bytes(), grouped)?;
    if changes.is_empty() {
        return Ok(());
    }
    let body = state.body.take();
    state.body = refined_body(alloc, body, changes.as_slice())?;
    Ok(())
}

/// A state's body, which may be missing, with the refinements that the state gets.
#[cycle(refining)]
fn refined_body<'a>(
    alloc: Global,
    body: Option<Box<StateBody>>,
    pending: &[Pending<'a>],
) -> Result<Option<Box<StateBody>>, AllocError>
    ensures { IfOk result (λ b.
        body_if_view b ≡ refined_body (body_if_view body) (refining_views pending.now)) }
{
    match body {
        Some(body) => {
            let inside = refined_inside(alloc, Box::into_inner(body), pending)?;
            let inside = Box::new(alloc, inside)?;
            with_own_changes(alloc, Some(inside), pending)
        }
        None => with_own_changes(alloc, None, pending),
    }
}

/// A state's body with the refinements of its graph.
#[cycle(refining)]
fn refined_inside<'a>(
    alloc: Global,
    body: StateBody,
    pending: &[Pending<'a>],
) -> Result<StateBody, AllocError>
    ensures { IfOk result (λ b.
        body_view b ≡ record (body_view body)
        { subgraph = refined_subgraph (body_view body).subgraph (refining_views pending.now) }) }
{
    let StateBody {
        entry,
        exit,
        subgraph,
    } = body;
    match subgraph {
        Some(mut items) => {
            refine_items(alloc, &mut items, pending)?;
            Ok(StateBody {
                entry,
                exit,
                subgraph: Some(items),
            })
        }
        None => Ok(StateBody {
            entry,
            exit,
            subgraph: None,
        }),
    }
}

/// Refines a graph. The calls nest as deep as graphs do.
#[cycle(refining)]
#[tactic(auto, using(crate::proofs::Nothing::nothing_refined, crate::proofs::Mixed::all_refined))]
pub(crate) fn refine_items<'a>(
    alloc: Global,
    items: &mut Vec<GraphItem>,
    pending: &[Pending<'a>],
) -> Result<(), AllocError>
    ensures { OnOk result (graph_view items.new.items
        ≡ refined (refining_views pending.now) (graph_view items.old.items)) }
{
    if pending.is_empty() {
        return Ok(());
    }
    let grouped = Grouped::of(alloc, pending)?;
    let mut seen = Numbers::new(alloc);
    for place in 0..items.len() {
        refine_item(alloc, &mut items[place], &grouped, &mut seen)?;
    }
    Ok(())
}
