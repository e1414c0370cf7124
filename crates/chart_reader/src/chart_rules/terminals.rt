//! What transitions of a graph begin at and lead to.
ghost use Rattle.std.specs.Prelude.{◌≡◌, IfOk};
ghost use Rattle.chart_trees.specs.chart_graphs.Views.{kind_view, source_view, target_view, transition_view};
ghost use Rattle.chart_model.specs.Valid.{has_point_of, source_is_there, target_is_there, has_right_parts, is_right_transition, begins_inside};
ghost use Rattle.chart_reader.specs.chart_rules.Views.{named_view};
ghost use Rattle.chart_reader.specs.chart_rules.IndexView.{index_view};

use crate::chart_rules::index::ChartIndex;
use crate::chart_rules::names::NamedGraph;
use crate::chart_rules::sources::{is_branch, is_triggered};
use chart_trees::{Source, Target, Transition};
use room_ast::{Name, PointKind};
use std::alloc::{AllocError, Global};

/// Whether the graph of a state of this graph has such a point.
fn has_point_of(
    alloc: Global,
    chart: &ChartIndex,
    kind: PointKind,
    graph: &NamedGraph,
    point: &Name,
    state: &Name,
) -> Result<bool, AllocError>
    ensures { IfOk result (λ b.
        b ≡ has_point_of (index_view chart.now) (kind_view kind) (named_view graph.now) point.now
        state.now) }
{
    if !graph.has_state(state) {
        return Ok(false);
    }
    let found = chart.graph_of(alloc, state, graph.owner())?;
    match found {
        Some(inner) => Ok(inner.has_point(kind, point)),
        None => Ok(false),
    }
}

fn source_is_there(
    alloc: Global,
    chart: &ChartIndex,
    graph: &NamedGraph,
    source: &Source,
) -> Result<bool, AllocError>
    ensures { IfOk result (λ b.
        b
        ≡ source_is_there (index_view chart.now) (named_view graph.now) (source_view source.now)) }
{
    match source {
        Source::Initial => Ok(true),
        Source::State(name) => Ok(graph.has_state(name)),
        Source::Point(name) => Ok(graph.has_point(PointKind::Transition, name)),
        Source::Choice(name) => Ok(graph.has_choice(name)),
        Source::Entry(name) => Ok(graph.has_point(PointKind::Entry, name)),
        Source::Exit { point, state } => {
            has_point_of(alloc, chart, PointKind::Exit, graph, point, state)
        }
    }
}

fn target_is_there(
    alloc: Global,
    chart: &ChartIndex,
    graph: &NamedGraph,
    target: &Target,
) -> Result<bool, AllocError>
    ensures { IfOk result (λ b.
        b
        ≡ target_is_there (index_view chart.now) (named_view graph.now) (target_view target.now)) }
{
    match target {
        Target::State(name) => Ok(graph.has_state(name)),
        Target::Choice(name) => Ok(graph.has_choice(name)),
        Target::Point { point, state } => {
            has_point_of(alloc, chart, PointKind::Transition, graph, point, state)
        }
        Target::Entry { point, state } => {
            has_point_of(alloc, chart, PointKind::Entry, graph, point, state)
        }
        Target::Exit(name) => Ok(graph.has_point(PointKind::Exit, name)),
    }
}

/// Whether triggers stand where they belong, and conditions at branches alone.
fn has_right_parts(transition: &Transition) -> bool
    ensures { result ≡ has_right_parts (transition_view transition.now) }
{
    let right_triggers = if is_triggered(&transition.source) {
        !transition.triggers.is_empty()
    } else {
        transition.triggers.is_empty()
    };
    right_triggers && (is_branch(&transition.source) || transition.condition.is_none())
}

pub(crate) fn is_right_transition(
    alloc: Global,
    chart: &ChartIndex,
    graph: &NamedGraph,
    transition: &Transition,
) -> Result<bool, AllocError>
    ensures { IfOk result (λ b.
        b ≡ is_right_transition (index_view chart.now) (named_view graph.now)
        (transition_view transition.now)) }
{
    if !source_is_there(alloc, chart, graph, &transition.source)? {
        return Ok(false);
    }
    if !target_is_there(alloc, chart, graph, &transition.target)? {
        return Ok(false);
    }
    Ok(has_right_parts(transition))
}

/// Whether a composite state that a target enters by its border has an initial transition.
pub(crate) fn begins_inside(
    alloc: Global,
    chart: &ChartIndex,
    graph: &NamedGraph,
    target: &Target,
) -> Result<bool, AllocError>
    ensures { IfOk result (λ b.
        b ≡ begins_inside (index_view chart.now) (named_view graph.now) (target_view target.now)) }
{
    let owner = graph.owner();
    match target {
        Target::State(state) => {
            let found = chart.graph_of(alloc, state, owner)?;
            let is_composite = found.is_some();
            let count = chart.initials_of(alloc, state, owner)?;
            Ok(!is_composite || count >= 1)
        }
        Target::Point { point: _, state } => {
            let count = chart.initials_of(alloc, state, owner)?;
            Ok(count >= 1)
        }
        Target::Choice(_) | Target::Entry { .. } | Target::Exit(_) => Ok(true),
    }
}
