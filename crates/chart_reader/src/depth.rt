//! How deep the states of a text nest.
ghost use Rattle.std.specs.Prelude.{◌≡◌};
ghost use Rattle.room_ast.specs.ChartTree.{item_view, state_view, graph_view};
ghost use Rattle.chart_reader.specs.Depth.{item_nests, state_nests, graph_nests};

use room_ast::{GraphItem, State};

/// How deep states nest at most.
pub(crate) const MOST_DEEP: usize = 16;

#[cycle(nesting)]
fn item_nests(item: &GraphItem, most: usize) -> bool
    ensures { result ≡ item_nests (item_view item.now) most }
{
    match item {
        GraphItem::State(state) => state_nests(state, most),
        GraphItem::Choice(_) => true,
        GraphItem::Point(_) => true,
        GraphItem::Transition(_) => true,
        GraphItem::Refinement(_) => true,
    }
}

/// Whether a state and those inside it nest at most so deep.
#[cycle(nesting)]
fn state_nests(state: &State, most: usize) -> bool
    ensures { result ≡ state_nests (state_view state.now) most }
{
    if most == 0 {
        return false;
    }
    let Some(body) = &state.body else {
        return true;
    };
    match &body.subgraph {
        Some(items) => graph_nests(items, most - 1),
        None => true,
    }
}

/// Whether the states of a graph and those inside them nest at most so deep. It looks no deeper.
#[cycle(nesting)]
pub(crate) fn graph_nests(items: &Vec<GraphItem>, most: usize) -> bool
    ensures { result ≡ graph_nests (graph_view items.now.items) most }
{
    for item in items {
        if !item_nests(item, most) {
            return false;
        }
    }
    true
}
