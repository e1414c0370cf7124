//! Nodes of the tables of a chart: borders, choice points, entry points and exit points.
ghost use Rattle.std.specs.Prelude.{◌≡◌, ◌<◌, ◌∷◌, [], ℕ, List, length, map, nat_lt, slice_get, IfOk, OnOk};
ghost use Rattle.std.specs.List.{cons_option, filter, list_all};
ghost use Rattle.chart_model.specs.chart_plan.Same.{Each, SameKind};
ghost use Rattle.chart_model.specs.Chart.{Name, Path};
ghost use Rattle.chart_model.specs.Named.{a_choice, a_state, an_entry, an_exit};
ghost use Rattle.chart_run.specs.chart_tables.Tables.{arrow_views, kind};
ghost use Rattle.chart_reader.specs.chart_nodes.Steps.{step_view};
ghost use Rattle.chart_compile.specs.chart_places.Groups.{picked};
ghost use Rattle.chart_compile.specs.chart_parts.Parts.{IsArrow, IsState, LeadTo};
ghost use Rattle.chart_compile.specs.chart_parts.Nodes.{AddsBranch, GoesOn, IsFirst, has_condition, has_none, is_lower, kind_by, leads_lower, node_after};

use crate::chart_rows::{make_arrow, state_number, step_at};
use chart_reader::Step;
use chart_run::{Arrow, Node};
use chart_trees::Target;
use name_tables::NameIndex;
use room_ast::Name;
use std::alloc::{AllocError, Global};

/// The arrow of the step with a number, if there is such a step.
fn arrow_at<'b, 'c>(
    alloc: Global,
    nodes: &NameIndex<'c>,
    steps: &[Step<'b>],
    number: usize,
) -> Result<Option<Arrow>, AllocError>
    requires { LeadTo nodes.now (map step_view steps.now) }
    ensures { IfOk result (λ arrow.
        IsFirst nodes.now arrow (cons_option (slice_get (map step_view steps.now) number) [])) }
{
    let Some(step) = step_at(steps, number) else {
        return Ok(None);
    };
    let arrow = make_arrow(alloc, nodes, step)?;
    Ok(Some(arrow))
}

/// The arrow of the first of the steps with some numbers, if there is one.
fn first_arrow<'b, 'c>(
    alloc: Global,
    nodes: &NameIndex<'c>,
    steps: &[Step<'b>],
    group: &[usize],
) -> Result<Option<Arrow>, AllocError>
    requires { LeadTo nodes.now (map step_view steps.now) }
    ensures { IfOk result (λ arrow.
        IsFirst nodes.now arrow (picked (map step_view steps.now) group.now)) }
{
    for number in group {
        let arrow = arrow_at(alloc, nodes, steps, *number)?;
        if arrow.is_some() {
            return Ok(arrow);
        }
    }
    Ok(None)
}

/// A state: its border where its graph has an initial transition.
fn border<'b, 'c>(
    alloc: Global,
    nodes: &NameIndex<'c>,
    steps: &[Step<'b>],
    group: &[usize],
    state: u16,
) -> Result<Node, AllocError>
    requires { LeadTo nodes.now (map step_view steps.now) }
    ensures { IfOk result (λ n.
        (states : List (List ℕ)) (path : Path) → IsState states state path
        → SameKind (IsState states) (IsArrow nodes.now) (kind n)
        (kind_by (a_state path) (picked (map step_view steps.now) group.now))) }
{
    let first = first_arrow(alloc, nodes, steps, group)?;
    match first {
        Some(arrow) => Ok(Node::Border(state, arrow)),
        None => Ok(Node::Simple(state)),
    }
}

/// An entry point of a state. Where no transition goes on from it, a chain ends there.
fn entry<'b, 'c>(
    alloc: Global,
    nodes: &NameIndex<'c>,
    steps: &[Step<'b>],
    group: &[usize],
    state: u16,
) -> Result<Node, AllocError>
    requires { LeadTo nodes.now (map step_view steps.now) }
    ensures { IfOk result (λ n.
        (states : List (List ℕ)) (path : Path) (e : Name) → IsState states state path
        → SameKind (IsState states) (IsArrow nodes.now) (kind n)
        (kind_by (an_entry path e) (picked (map step_view steps.now) group.now))) }
{
    let first = first_arrow(alloc, nodes, steps, group)?;
    match first {
        Some(arrow) => Ok(Node::Entry(state, arrow)),
        None => Ok(Node::Simple(state)),
    }
}

/// An exit point of a state. Where no transition goes on from it, a chain ends there.
fn exit<'b, 'c>(
    alloc: Global,
    nodes: &NameIndex<'c>,
    steps: &[Step<'b>],
    group: &[usize],
    state: u16,
) -> Result<Node, AllocError>
    requires { LeadTo nodes.now (map step_view steps.now) }
    ensures { IfOk result (λ n.
        (states : List (List ℕ)) (s x : Name) (owner : Path) → IsState states state (s ∷ owner)
        → SameKind (IsState states) (IsArrow nodes.now) (kind n)
        (kind_by (an_exit (s ∷ owner) x) (picked (map step_view steps.now) group.now))) }
{
    let first = first_arrow(alloc, nodes, steps, group)?;
    match first {
        Some(arrow) => Ok(Node::Exit(state, arrow)),
        None => Ok(Node::Simple(state)),
    }
}

/// Adds the arrow of the branch with a number, if there is such a step and it has a condition.
fn add_branch<'b, 'c>(
    alloc: Global,
    nodes: &NameIndex<'c>,
    steps: &[Step<'b>],
    number: usize,
    branches: &mut Vec<Arrow>,
) -> Result<(), AllocError>
    requires { LeadTo nodes.now (map step_view steps.now) }
    ensures { OnOk result (AddsBranch nodes.now (slice_get (map step_view steps.now) number)
        branches.old.items branches.new.items) }
{
    let Some(step) = step_at(steps, number) else {
        return Ok(());
    };
    let has = step.transition.condition.is_some();
    if !has {
        return Ok(());
    }
    let arrow = make_arrow(alloc, nodes, step)?;
    branches.push(arrow)?;
    Ok(())
}

/// The branches with a condition.
fn branches_of<'b, 'c>(
    alloc: Global,
    nodes: &NameIndex<'c>,
    steps: &[Step<'b>],
    group: &[usize],
) -> Result<Vec<Arrow>, AllocError>
    requires { LeadTo nodes.now (map step_view steps.now) }
    ensures { IfOk result (λ arrows.
        Each (IsArrow nodes.now) (arrow_views arrows.items)
        (filter has_condition (picked (map step_view steps.now) group.now))) }
{
    let mut branches = Vec::new(alloc);
    for number in group {
        add_branch(alloc, nodes, steps, *number, &mut branches)?;
    }
    Ok(branches)
}

/// The arrow of the branch with a number, if there is such a step and it has no condition.
fn default_at<'b, 'c>(
    alloc: Global,
    nodes: &NameIndex<'c>,
    steps: &[Step<'b>],
    number: usize,
) -> Result<Option<Arrow>, AllocError>
    requires { LeadTo nodes.now (map step_view steps.now) }
    ensures { IfOk result (λ arrow.
        IsFirst nodes.now arrow
        (filter has_none (cons_option (slice_get (map step_view steps.now) number) []))) }
{
    let Some(step) = step_at(steps, number) else {
        return Ok(None);
    };
    let has = step.transition.condition.is_some();
    if has {
        return Ok(None);
    }
    let arrow = make_arrow(alloc, nodes, step)?;
    Ok(Some(arrow))
}

/// The first branch without a condition, if there is one.
fn default_of<'b, 'c>(
    alloc: Global,
    nodes: &NameIndex<'c>,
    steps: &[Step<'b>],
    group: &[usize],
) -> Result<Option<Arrow>, AllocError>
    requires { LeadTo nodes.now (map step_view steps.now) }
    ensures { IfOk result (λ arrow.
        IsFirst nodes.now arrow (filter has_none (picked (map step_view steps.now) group.now))) }
{
    for number in group {
        let arrow = default_at(alloc, nodes, steps, *number)?;
        if arrow.is_some() {
            return Ok(arrow);
        }
    }
    Ok(None)
}

/// A choice point, which has a branch without a condition.
fn choice<'b, 'c>(
    alloc: Global,
    nodes: &NameIndex<'c>,
    steps: &[Step<'b>],
    group: &[usize],
) -> Result<Node, AllocError>
    requires default { 0 < length (filter has_none (picked (map step_view steps.now) group.now)) }
    requires lead { LeadTo nodes.now (map step_view steps.now) }
    ensures { IfOk result (λ n.
        (states : List (List ℕ)) (graph : Path) (c : Name)
        → SameKind (IsState states) (IsArrow nodes.now) (kind n)
        (kind_by (a_choice graph c) (picked (map step_view steps.now) group.now))) }
{
    let branches = branches_of(alloc, nodes, steps, group)?;
    let default = default_of(alloc, nodes, steps, group)?;
    match default {
        Some(default) => Ok(Node::Choice(branches, default)),
        None => unreachable!(),
    }
}

/// The node that a step leads to, where the steps with some numbers begin.
pub fn make_node<'b, 's, 'n>(
    alloc: Global,
    states: &NameIndex<'s>,
    nodes: &NameIndex<'n>,
    steps: &[Step<'b>],
    group: &[usize],
    step: &Step<'b>,
) -> Result<Node, AllocError>
    requires goes_on { GoesOn states.now (node_after (step_view step.now))
        (picked (map step_view steps.now) group.now) }
    requires lead { LeadTo nodes.now (map step_view steps.now) }
    ensures { IfOk result (λ n.
        SameKind (IsState states.now) (IsArrow nodes.now) (kind n)
        (kind_by (node_after (step_view step.now)) (picked (map step_view steps.now) group.now))) }
{
    let owner = step.graph.owner.as_slice();
    match &step.transition.target {
        Target::State(name) => {
            let state = state_number(alloc, states, name, owner)?;
            let node = border(alloc, nodes, steps, group, state)?;
            Ok(node)
        }
        Target::Point { point: _, state } => {
            let state = state_number(alloc, states, state, owner)?;
            let node = border(alloc, nodes, steps, group, state)?;
            Ok(node)
        }
        Target::Choice(_) => {
            let node = choice(alloc, nodes, steps, group)?;
            Ok(node)
        }
        Target::Entry { point: _, state } => {
            let state = state_number(alloc, states, state, owner)?;
            let node = entry(alloc, nodes, steps, group, state)?;
            Ok(node)
        }
        Target::Exit(_) => {
            let Some((name, outer)) = owner.split_first() else {
                unreachable!()
            };
            let state = state_number(alloc, states, name, outer)?;
            let node = exit(alloc, nodes, steps, group, state)?;
            Ok(node)
        }
    }
}

fn all_below(arrows: &[Arrow], n: usize) -> bool
    ensures { result ≡ list_all (λ a. nat_lt a.target n) arrows.now }
{
    arrows.iter().all(|arrow| arrow.target < n)
}

fn all_lower(arrows: &[Arrow], n: usize) -> bool
    ensures { result ≡ list_all (is_lower n) (arrow_views arrows.now) }
{
    all_below(arrows, n)
}

/// Whether a node leads to nodes with lower numbers alone.
pub fn leads_lower(node: &Node, n: usize) -> bool
    ensures { result ≡ leads_lower n (kind node.now) }
{
    match node {
        Node::Simple(_) => true,
        Node::Border(_, arrow) => arrow.target < n,
        Node::Choice(branches, default) => { all_lower(branches, n) && default.target < n }
        Node::Entry(_, arrow) => arrow.target < n,
        Node::Exit(_, arrow) => arrow.target < n,
    }
}
