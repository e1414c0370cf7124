//! States in the order of their numbers.
ghost use Rattle.std.specs.Prelude.{◌≡◌, ◌∷◌, ◌++◌, [], Some, map, IfOk, OnOk};
ghost use Rattle.chart_model.specs.Named.{graph_at};
ghost use Rattle.chart_trees.specs.chart_graphs.Views.{chart_view, graph_view, state_view};
ghost use Rattle.chart_compile.specs.chart_places.Places.{FoundAt, keys_of, place_of, place_view, places_below, places_of};

use crate::chart_places::keys::find_graph;
use chart_reader::{named_key, plain_key};
use chart_trees::{Chart, Graph, State};
use name_tables::NameIndex;
use std::alloc::{AllocError, Global};

/// A state in its graph.
#[derive(Drop)]
pub struct Place<'a> {
    pub graph: &'a Graph,
    pub state: &'a State,
}

/// The graph of a state of a graph, if it has one.
fn inner_graph<'a, 'b>(
    alloc: Global,
    chart: &'a Chart,
    graphs: &NameIndex<'b>,
    graph: &Graph,
    state: &State,
) -> Result<Option<&'a Graph>, AllocError>
    requires { graphs.now ≡ keys_of (map graph_view chart.now.graphs.items) }
    ensures { IfOk result (λ inner.
        FoundAt (chart_view chart.entry.now) (state.now.name ∷ graph.now.owner) inner) }
{
    let key = named_key(alloc, 2, &state.name, graph.owner.as_slice())?;
    Ok(find_graph(chart, graphs, key.as_slice()))
}

/// The top graph, if there is one.
fn top_graph<'a, 'b>(
    alloc: Global,
    chart: &'a Chart,
    graphs: &NameIndex<'b>,
) -> Result<Option<&'a Graph>, AllocError>
    requires { graphs.now ≡ keys_of (map graph_view chart.now.graphs.items) }
    ensures { IfOk result (λ top. FoundAt (chart_view chart.entry.now) [] top) }
{
    let key = plain_key(alloc, 2, &[])?;
    Ok(find_graph(chart, graphs, key.as_slice()))
}

/// Adds a state of a graph, and then those of its own graph, at most `depth` graphs deep.
#[cycle(places)]
fn add_state<'a, 'b>(
    alloc: Global,
    chart: &'a Chart,
    graphs: &NameIndex<'b>,
    depth: usize,
    graph: &'a Graph,
    state: &'a State,
    places: &mut Vec<Place<'a>>,
) -> Result<(), AllocError>
    requires { graphs.now ≡ keys_of (map graph_view chart.now.graphs.items) }
    ensures { OnOk result (map place_view places.new.items ≡ map place_view places.old.items
        ++ (place_of graph.now.owner (state_view state.now)
        ∷ places_below (chart_view chart.now) depth (state.now.name ∷ graph.now.owner))) }
{
    let inner = inner_graph(alloc, chart, graphs, graph, state)?;
    places.push(Place { graph, state })?;
    match inner {
        Some(inner) => {
            add_states(alloc, chart, graphs, depth, inner, places)?;
            Ok(())
        }
        None => Ok(()),
    }
}

/// Adds the states of a graph, at most `depth` graphs deep: in order of declaration, each before those
/// of its own graph. It goes as deep as states nest.
#[cycle(places)]
fn add_states<'a, 'b>(
    alloc: Global,
    chart: &'a Chart,
    graphs: &NameIndex<'b>,
    depth: usize,
    graph: &'a Graph,
    places: &mut Vec<Place<'a>>,
) -> Result<(), AllocError>
    requires keyed { graphs.now ≡ keys_of (map graph_view chart.now.graphs.items) }
    requires there { graph_at (chart_view chart.now) graph.now.owner ≡ Some (graph_view graph.now) }
    ensures { OnOk result (map place_view places.new.items ≡ map place_view places.old.items
        ++ places_below (chart_view chart.now) depth graph.now.owner) }
{
    if depth == 0 {
        return Ok(());
    }
    for state in &graph.states {
        add_state(alloc, chart, graphs, depth - 1, graph, state, places)?;
    }
    Ok(())
}

/// The states of a chart in the order of their numbers: in order of declaration, each before those of
/// its own graph.
pub fn places_of<'a, 'b>(
    alloc: Global,
    chart: &'a Chart,
    graphs: &NameIndex<'b>,
) -> Result<Vec<Place<'a>>, AllocError>
    requires { graphs.now ≡ keys_of (map graph_view chart.now.graphs.items) }
    ensures { IfOk result (λ places.
        map place_view places.items ≡ places_of (chart_view chart.entry.now)) }
{
    let mut places = Vec::new(alloc);
    let top = top_graph(alloc, chart, graphs)?;
    match top {
        Some(top) => {
            add_states(alloc, chart, graphs, chart.graphs.len(), top, &mut places)?;
            Ok(places)
        }
        None => Ok(places),
    }
}
