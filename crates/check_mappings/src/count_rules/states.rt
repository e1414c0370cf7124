//! How many states a chart has.

ghost use Rattle.std.specs.Prelude.{◌≡◌, ◌+◌, min};
ghost use Rattle.std.specs.Option.{option_map_or};
ghost use Rattle.room_ast.specs.ChartTree.{item_view, state_view, graph_view};
ghost use Rattle.room_ast.specs.Trees.{actor_view};
ghost use Rattle.room_ast.specs.model_parts.Charts.{states_in_item, states_at, states_in, state_count};
ghost use Rattle.check_mappings.specs.count_rules.Counting.{most_counted};

use room_ast::{ActorClass, GraphItem, State};

/// More states than the rule allows: larger counts count as this one.
const MOST_COUNTED: usize = 60_001;

fn capped_sum(a: usize, b: usize) -> usize
    ensures { result ≡ min most_counted (a + b) }
{
    a.saturating_add(b).min(MOST_COUNTED)
}

#[cycle(states)]
fn states_in_item(item: &GraphItem) -> usize
    ensures { result ≡ min most_counted (states_in_item (item_view item.now)) }
{
    match item {
        GraphItem::State(state) => states_at(state),
        GraphItem::Choice(_) => 0,
        GraphItem::Point(_) => 0,
        GraphItem::Transition(_) => 0,
        GraphItem::Refinement(_) => 0,
    }
}

/// A state and the states inside it.
#[cycle(states)]
fn states_at(state: &State) -> usize
    ensures { result ≡ min most_counted (states_at (state_view state.now)) }
{
    let Some(body) = &state.body else {
        return 1;
    };
    match &body.subgraph {
        Some(items) => capped_sum(1, states_in(items)),
        None => 1,
    }
}

#[cycle(states)]
fn states_in(items: &Vec<GraphItem>) -> usize
    ensures { result ≡ min most_counted (states_in (graph_view items.now.items)) }
{
    let mut count = 0;
    for item in items {
        count = capped_sum(count, states_in_item(item));
    }
    count
}

/// How many states the chart of a class has, at most `MOST_COUNTED`; none where it has no chart.
pub(crate) fn state_count(class: &ActorClass) -> usize
    ensures { result ≡ min most_counted (state_count (actor_view class.now)) }
{
    let Some(behavior) = &class.behavior else {
        return 0;
    };
    match &behavior.machine {
        Some(machine) => states_in(&machine.items),
        None => 0,
    }
}
