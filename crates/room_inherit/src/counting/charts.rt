//! The tokens of charts.
ghost use Rattle.std.specs.Prelude.{◌≡◌, ◌-◌, length};
ghost use Rattle.room_ast.specs.ChartTree.{item_view, state_view, body_view, refinement_view, graph_view};
ghost use Rattle.room_ast.specs.Tokens.{dotted, graph_item, state_tokens, graph_tokens, in_body, point, subgraph_tokens};

use crate::counting::codes::{less_code, less_code_if, less_times, less_transition};
use room_ast::{Change, Dotted, GraphItem, Point, PointKind, Refinement, State, StateBody};

/// Names joined by dots.
#[tactic(auto, using(crate::proofs::Counts::count_dots))]
pub(super) fn less_dotted(left: usize, path: &Dotted) -> usize
    ensures { result ≡ left - length (dotted path.now) }
{
    less_times(left.saturating_sub(1), 2, path.others.len())
}

fn less_point(left: usize, p: &Point) -> usize
    ensures { result ≡ left - length (point p.now) }
{
    match p.kind {
        PointKind::Transition => left.saturating_sub(2),
        PointKind::Entry => left.saturating_sub(2),
        PointKind::Exit => left.saturating_sub(2),
    }
}

/// An item of a graph. The calls nest as deep as graphs do.
#[cycle(counting)]
fn less_item(left: usize, item: &GraphItem) -> usize
    ensures { result ≡ left - length (graph_item (item_view item.now)) }
{
    match item {
        GraphItem::State(state) => less_state(left, state),
        GraphItem::Choice(_) => left.saturating_sub(2),
        GraphItem::Point(point) => less_point(left, point),
        GraphItem::Transition(transition) => less_transition(left, transition),
        GraphItem::Refinement(refinement) => less_refinement(left, refinement),
    }
}

#[cycle(counting)]
fn less_state(left: usize, state: &State) -> usize
    ensures { result ≡ left - length (state_tokens (state_view state.now)) }
{
    match &state.body {
        Some(body) => less_body(left.saturating_sub(2), body),
        None => left.saturating_sub(2),
    }
}

/// What stands in the braces of a state's body, and the braces.
#[cycle(counting)]
fn less_body(left: usize, body: &StateBody) -> usize
    ensures { result ≡ left
        - length (in_body (body_view body.now).entry (body_view body.now).exit
        (subgraph_tokens (body_view body.now).subgraph)) }
{
    let left = less_code_if(left.saturating_sub(2), &body.entry);
    let left = less_code_if(left, &body.exit);
    match &body.subgraph {
        Some(items) => less_items(left.saturating_sub(3), items),
        None => left,
    }
}

#[cycle(counting)]
fn less_refinement(left: usize, refinement: &Refinement) -> usize
    ensures { result ≡ left - length (graph_item (refinement_view refinement.now)) }
{
    let left = less_dotted(left.saturating_sub(1), &refinement.path);
    match &refinement.change {
        Change::State(body) => less_body(left, body),
        Change::Transition(code) => less_code(left.saturating_sub(3), code),
    }
}

/// The items of a graph.
#[cycle(counting)]
pub(super) fn less_items(left: usize, items: &Vec<GraphItem>) -> usize
    ensures { result ≡ left - length (graph_tokens (graph_view items.now.items)) }
{
    let mut left = left;
    for item in items {
        left = less_item(left, item);
    }
    left
}
