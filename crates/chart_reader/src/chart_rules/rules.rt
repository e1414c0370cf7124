//! The rules, in the order of their numbers.
ghost use Rattle.std.specs.Prelude.{◌≡◌, IfOk};
ghost use Rattle.std.specs.List.{list_all};
ghost use Rattle.chart_trees.specs.chart_graphs.Views.{graph_view, point_view};
ghost use Rattle.chart_model.specs.Valid.{is_shallow, is_right_transition, goes_on_once};
ghost use Rattle.chart_reader.specs.chart_rules.Rules.{nests_within, graph_has_right_names, has_right_names, has_one_initial_at_most, graph_begins_inside, has_initials, graph_has_defaults, has_defaults};
ghost use Rattle.chart_reader.specs.chart_rules.Views.{named_view};
ghost use Rattle.chart_reader.specs.chart_rules.IndexView.{index_view};

use crate::chart_rules::index::ChartIndex;
use crate::chart_rules::names::{NamedGraph, has_distinct_names};
use crate::chart_rules::terminals::{begins_inside, is_right_transition};
use chart_trees::{Graph, Point};
use room_ast::{Name, PointKind};
use std::alloc::{AllocError, Global};

/// How deep states nest at most.
const MOST_DEEP: usize = 16;

fn graph_is_shallow(graph: &Graph) -> bool
    ensures { result ≡ is_shallow (graph_view graph.now) }
{
    graph.owner.len() < MOST_DEEP || graph.states.is_empty()
}

/// Whether states nest at most 16 deep.
#[tactic(auto, unfolding(crate::specs::chart_rules::Rules::nests_within))]
pub(crate) fn is_shallow(chart: &ChartIndex) -> bool
    ensures { result ≡ nests_within (index_view chart.now) }
{
    for graph in &chart.graphs {
        if !graph_is_shallow(graph.graph) {
            return false;
        }
    }
    true
}

/// Whether a point has the one continuation that it has to have.
fn goes_on_once(
    alloc: Global,
    chart: &ChartIndex,
    owner: &[Name],
    point: &Point,
) -> Result<bool, AllocError>
    ensures { IfOk result (λ b.
        b ≡ goes_on_once (index_view chart.now) owner.now (point_view point.now)) }
{
    let [state, outer @ ..] = owner else {
        return match point.kind {
            PointKind::Transition => Ok(true),
            PointKind::Entry | PointKind::Exit => Ok(false),
        };
    };
    match point.kind {
        PointKind::Transition => Ok(true),
        PointKind::Entry => {
            let count = chart.entries_at(alloc, &point.name, owner)?;
            Ok(count == 1)
        }
        PointKind::Exit => {
            let count = chart.exits_at(alloc, &point.name, state, outer)?;
            Ok(count == 1)
        }
    }
}

fn transitions_are_right(
    alloc: Global,
    chart: &ChartIndex,
    graph: &NamedGraph,
) -> Result<bool, AllocError>
    ensures { IfOk result (λ b.
        b ≡ list_all (is_right_transition (index_view chart.now) (named_view graph.now))
        (named_view graph.now).transitions) }
{
    for transition in &graph.graph.transitions {
        if !is_right_transition(alloc, chart, graph, transition)? {
            return Ok(false);
        }
    }
    Ok(true)
}

fn points_go_on(alloc: Global, chart: &ChartIndex, graph: &NamedGraph) -> Result<bool, AllocError>
    ensures { IfOk result (λ b.
        b ≡ list_all (goes_on_once (index_view chart.now) (named_view graph.now).owner)
        (named_view graph.now).points) }
{
    for point in &graph.graph.points {
        if !goes_on_once(alloc, chart, graph.owner(), point)? {
            return Ok(false);
        }
    }
    Ok(true)
}

fn graph_has_right_names(
    alloc: Global,
    chart: &ChartIndex,
    graph: &NamedGraph,
) -> Result<bool, AllocError>
    ensures { IfOk result (λ b.
        b ≡ graph_has_right_names (index_view chart.now) (named_view graph.now)) }
{
    if !has_distinct_names(alloc, graph.graph)? {
        return Ok(false);
    }
    if !transitions_are_right(alloc, chart, graph)? {
        return Ok(false);
    }
    points_go_on(alloc, chart, graph)
}

/// Whether names are distinct, terminals name what there is, triggers and conditions stand where
/// they belong, and each entry and exit point has one continuation.
#[tactic(auto, unfolding(crate::specs::chart_rules::Rules::has_right_names))]
pub(crate) fn has_right_names(alloc: Global, chart: &ChartIndex) -> Result<bool, AllocError>
    ensures { IfOk result (λ b. b ≡ has_right_names (index_view chart.now)) }
{
    for graph in &chart.graphs {
        if !graph_has_right_names(alloc, chart, graph)? {
            return Ok(false);
        }
    }
    Ok(true)
}

/// Whether no graph has two initial transitions.
#[tactic(auto, unfolding(crate::specs::chart_rules::Rules::has_one_initial_at_most))]
pub(crate) fn has_one_initial_at_most(alloc: Global, chart: &ChartIndex) -> Result<bool, AllocError>
    ensures { IfOk result (λ b. b ≡ has_one_initial_at_most (index_view chart.now)) }
{
    for graph in &chart.graphs {
        let count = chart.initials_at(alloc, graph.owner())?;
        if count > 1 {
            return Ok(false);
        }
    }
    Ok(true)
}

fn graph_begins_inside(
    alloc: Global,
    chart: &ChartIndex,
    graph: &NamedGraph,
) -> Result<bool, AllocError>
    ensures { IfOk result (λ b.
        b ≡ graph_begins_inside (index_view chart.now) (named_view graph.now)) }
{
    for transition in &graph.graph.transitions {
        if !begins_inside(alloc, chart, graph, &transition.target)? {
            return Ok(false);
        }
    }
    Ok(true)
}

fn graphs_begin_inside(alloc: Global, chart: &ChartIndex) -> Result<bool, AllocError>
    ensures { IfOk result (λ b.
        b ≡ list_all (graph_begins_inside (index_view chart.now)) (index_view chart.now).graphs) }
{
    for graph in &chart.graphs {
        if !graph_begins_inside(alloc, chart, graph)? {
            return Ok(false);
        }
    }
    Ok(true)
}

/// Whether the top graph has one initial transition, and the graph of each state that is entered by
/// its name or by a transition point has one at least.
#[tactic(auto, unfolding(crate::specs::chart_rules::Rules::has_initials))]
pub(crate) fn has_initials(alloc: Global, chart: &ChartIndex) -> Result<bool, AllocError>
    ensures { IfOk result (λ b. b ≡ has_initials (index_view chart.now)) }
{
    let top: [Name; 0] = [];
    let count = chart.initials_at(alloc, &top)?;
    if count != 1 {
        return Ok(false);
    }
    graphs_begin_inside(alloc, chart)
}

fn graph_has_defaults(
    alloc: Global,
    chart: &ChartIndex,
    graph: &NamedGraph,
) -> Result<bool, AllocError>
    ensures { IfOk result (λ b.
        b ≡ graph_has_defaults (index_view chart.now) (named_view graph.now)) }
{
    let choices = graph.graph.choices.as_slice();
    for choice in choices {
        let count = chart.defaults_at(alloc, choice, graph.owner())?;
        if count != 1 {
            return Ok(false);
        }
    }
    Ok(true)
}

/// Whether each choice point has one branch without a condition.
#[tactic(auto, unfolding(crate::specs::chart_rules::Rules::has_defaults))]
pub(crate) fn has_defaults(alloc: Global, chart: &ChartIndex) -> Result<bool, AllocError>
    ensures { IfOk result (λ b. b ≡ has_defaults (index_view chart.now)) }
{
    for graph in &chart.graphs {
        if !graph_has_defaults(alloc, chart, graph)? {
            return Ok(false);
        }
    }
    Ok(true)
}
