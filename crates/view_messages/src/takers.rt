//! Where in a chart a message is taken.
use crate::transitions::{Fit, Incoming, fit_of, is_from_point, put_transition};
use crate::tried::graph_of;
use room_ast::{GraphItem, Source, State, StateMachine, Target, Transition};
use std::alloc::{AllocError, Global};
use view_pages::Page;

/// How deep states nest at most.
const MOST_DEEP: usize = 17;

/// A graph, and the label of the state that has it, with a point behind it; nothing for the top graph.
#[derive(Drop)]
struct Graph<'a> {
    owner: Vec<u8>,
    items: &'a [GraphItem],
}

/// Where a transition of a graph that has the message begins, and the transition.
fn tell_taker(page: &mut Page, owner: &[u8], transition: &Transition, incoming: Incoming<'_>) {
    page.put(b"        ");
    if is_from_point(transition) {
        let whole: &[u8] = b"the chart";
        page.put(b"in every state of ");
        page.put(if owner.is_empty() {
            whole
        } else {
            owner.strip_suffix(b".").unwrap_or(owner)
        });
    } else if let Source::At(Target::Bare(state)) = &transition.source {
        page.put(b"in ");
        page.put(owner);
        page.put(state.as_bytes());
    }
    page.put(b", by ");
    put_transition(page, transition, incoming);
    page.end_line();
}

/// The transitions of a graph that have the message; says whether there are any.
fn tell_graph(page: &mut Page, graph: &Graph<'_>, incoming: Incoming<'_>, told: bool) -> bool {
    let mut has_some = told;
    for item in graph.items {
        if let GraphItem::Transition(transition) = item {
            if fit_of(transition, incoming) != Fit::Never {
                if !has_some {
                    page.put_line(b"    it is taken");
                }
                has_some = true;
                tell_taker(page, graph.owner.as_slice(), transition, incoming);
            }
        }
    }
    has_some
}

/// Adds the graph of a state.
fn add_graph<'a>(
    alloc: Global,
    graphs: &mut Vec<Graph<'a>>,
    owner: &[u8],
    state: &'a State,
) -> Result<(), AllocError> {
    let mut label = Vec::new(alloc);
    label.extend_from_slice(owner)?;
    label.extend_from_slice(state.name.as_bytes())?;
    label.push(b'.')?;
    graphs.push(Graph {
        owner: label,
        items: graph_of(state),
    })?;
    Ok(())
}

/// Adds the graphs of the states of a graph.
fn add_graphs<'a>(
    alloc: Global,
    graphs: &mut Vec<Graph<'a>>,
    owner: &[u8],
    items: &'a [GraphItem],
) -> Result<(), AllocError> {
    for item in items {
        if let GraphItem::State(state) = item {
            add_graph(alloc, graphs, owner, state)?;
        }
    }
    Ok(())
}

/// Tells in which states of a chart a message is taken, graph by graph from outer to inner.
pub fn tell_takers(
    alloc: Global,
    page: &mut Page,
    machine: &StateMachine,
    incoming: Incoming<'_>,
) -> Result<(), AllocError> {
    let mut level = Vec::new(alloc);
    level.push(Graph {
        owner: Vec::new(alloc),
        items: machine.items.as_slice(),
    })?;
    let mut has_some = false;
    for _deep in 0..MOST_DEEP {
        let mut below = Vec::new(alloc);
        for graph in level.as_slice() {
            has_some = tell_graph(page, graph, incoming, has_some);
            add_graphs(alloc, &mut below, graph.owner.as_slice(), graph.items)?;
        }
        level = below;
    }
    if !has_some {
        page.put_line(b"    no state of its class takes it");
    }
    Ok(())
}
