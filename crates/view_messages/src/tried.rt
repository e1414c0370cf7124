//! The transitions that are tried for a message in a state, in their order.
use crate::chain::{Chain, Graph, tell_chain};
use crate::transitions::{
    Fit, Incoming, fit_of, is_from_point, is_from_state, put_incoming, put_transition,
};
use room_ast::{GraphItem, StateMachine, Transition};
use std::alloc::{AllocError, Global};
use view_pages::Page;

/// A state of the active path, and the graph that holds it.
#[derive(Clone, Copy, Drop)]
struct Level<'a> {
    items: &'a [GraphItem],
    state: &'a [u8],
}

/// A transition that has the message, whether it is always taken, and in how many states its graph stands.
#[derive(Clone, Copy, Drop)]
struct Tried<'a> {
    transition: &'a Transition,
    fit: Fit,
    depth: usize,
}

/// The graph of a state of a graph; nothing where it has none.
fn inside<'a>(items: &'a [GraphItem], name: &[u8]) -> &'a [GraphItem] {
    for item in items {
        if let GraphItem::State(state) = item {
            if state.name.is(name) {
                return graph_of(state);
            }
        }
    }
    &[]
}

/// The graph of a state; nothing where it has none.
pub fn graph_of(state: &room_ast::State) -> &[GraphItem] {
    match &state.body {
        Some(body) => match &body.subgraph {
            Some(items) => items.as_slice(),
            None => &[],
        },
        None => &[],
    }
}

/// The states of an active path, from outer to inner.
fn levels_of<'a>(
    alloc: Global,
    machine: &'a StateMachine,
    label: &'a [u8],
) -> Result<Vec<Level<'a>>, AllocError> {
    let mut levels = Vec::new(alloc);
    let mut items = machine.items.as_slice();
    for state in label.split(|byte| *byte == b'.') {
        levels.push(Level { items, state })?;
        items = inside(items, state);
    }
    Ok(levels)
}

/// Adds the transitions of a graph that begin at a state, or else at a point, and have the message.
fn add_tried<'a>(
    tried: &mut Vec<Tried<'a>>,
    level: Level<'a>,
    depth: usize,
    incoming: Incoming<'_>,
    from_state: bool,
) -> Result<(), AllocError> {
    for item in level.items {
        if let GraphItem::Transition(transition) = item {
            let transition: &Transition = transition;
            let begins = if from_state {
                is_from_state(transition, level.state)
            } else {
                is_from_point(transition)
            };
            let fit = fit_of(transition, incoming);
            if begins && fit != Fit::Never {
                tried.push(Tried {
                    transition,
                    fit,
                    depth,
                })?;
            }
        }
    }
    Ok(())
}

/// The transitions that have a message and are tried in a state, from the innermost state outward.
fn tried_in<'a>(
    alloc: Global,
    levels: &[Level<'a>],
    incoming: Incoming<'_>,
) -> Result<Vec<Tried<'a>>, AllocError> {
    let mut tried = Vec::new(alloc);
    for (depth, level) in levels.iter().enumerate().rev() {
        add_tried(&mut tried, *level, depth, incoming, true)?;
        add_tried(&mut tried, *level, depth, incoming, false)?;
    }
    Ok(tried)
}

/// A message that comes in while the active path has a label, and whether each of the transitions that are tried for
/// it would be taken, and the chain of the one that was, where these are known.
#[derive(Clone, Copy)]
pub struct Moment<'a> {
    pub label: &'a [u8],
    pub incoming: Incoming<'a>,
    pub holds: &'a [bool],
    pub chain: Chain<'a>,
}

/// The transitions up to the first that is always taken.
fn tell_all(page: &mut Page, tried: &[Tried<'_>], incoming: Incoming<'_>) {
    for one in tried {
        page.put(b"        ");
        put_transition(page, one.transition, incoming);
        page.end_line();
        if one.fit == Fit::Always {
            return;
        }
    }
}

/// Which of the transitions is taken, where that is known.
fn place_of_taken(tried: &[Tried<'_>], holds: &[bool]) -> Option<usize> {
    if holds.len() == tried.len() {
        return holds.iter().position(|held| *held);
    }
    match tried {
        [first, ..] if first.fit == Fit::Always || tried.len() == 1 => Some(0),
        _ => None,
    }
}

/// The graphs in which a transition of a depth stands, from outer to inner.
fn graphs_of<'a>(
    alloc: Global,
    levels: &[Level<'a>],
    depth: usize,
) -> Result<Vec<Graph<'a>>, AllocError> {
    let mut graphs = Vec::new(alloc);
    let mut owner: &[u8] = b"";
    for level in levels.iter().take(depth.saturating_add(1)) {
        graphs.push(Graph {
            items: level.items,
            owner,
        })?;
        owner = level.state;
    }
    Ok(graphs)
}

/// The transition at a place, which was taken, and those that were tried before it.
fn tell_one(page: &mut Page, tried: &[Tried<'_>], place: usize, incoming: Incoming<'_>) {
    if let Some(one) = tried.get(place) {
        page.put(b"    taken by ");
        put_transition(page, one.transition, incoming);
        page.end_line();
    }
    for one in tried.get(..place).unwrap_or(&[]) {
        page.put(b"        after ");
        put_transition(page, one.transition, incoming);
        page.put_line(b", which did not hold");
    }
}

/// Tells which transition took a message, as far as that is known.
pub fn tell_taken(
    alloc: Global,
    page: &mut Page,
    machine: &StateMachine,
    at: Moment<'_>,
) -> Result<(), AllocError> {
    let levels = levels_of(alloc, machine, at.label)?;
    let tried = tried_in(alloc, levels.as_slice(), at.incoming)?;
    let all = tried.as_slice();
    match place_of_taken(all, at.holds) {
        Some(place) => {
            tell_one(page, all, place, at.incoming);
            let Some(one) = all.get(place) else {
                return Ok(());
            };
            let graphs = graphs_of(alloc, levels.as_slice(), one.depth)?;
            return tell_chain(page, machine, at.chain, graphs, one.transition);
        }
        None => {
            page.put_line(b"    taken by the first of these whose guard held:");
            tell_all(page, all, at.incoming);
        }
    }
    Ok(())
}

/// Tells which transitions were tried for a message that none took.
pub fn tell_tried(
    alloc: Global,
    page: &mut Page,
    machine: &StateMachine,
    at: Moment<'_>,
) -> Result<(), AllocError> {
    let levels = levels_of(alloc, machine, at.label)?;
    let tried = tried_in(alloc, levels.as_slice(), at.incoming)?;
    if tried.is_empty() {
        page.put(b"    no transition from ");
        page.put(at.label);
        page.put(b" takes ");
        put_incoming(page, at.incoming);
        page.end_line();
        return Ok(());
    }
    page.put_line(b"    tried, and no guard held:");
    tell_all(page, tried.as_slice(), at.incoming);
    Ok(())
}
