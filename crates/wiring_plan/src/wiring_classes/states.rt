//! The texts of a chart's states.
ghost use Rattle.std.specs.Prelude.{◌≡◌, ◌∷◌, ◌++◌, [], map, IfOk, OnOk};
ghost use Rattle.std.specs.Option.{option_map_or};
ghost use Rattle.room_ast.specs.ChartTree.{item_view, state_view, graph_view};
ghost use Rattle.room_ast.specs.Trees.{actor_view};
ghost use Rattle.room_ast.specs.model_parts.Charts.{chart_of};
ghost use Rattle.wiring_plan.specs.wiring_classes.Labels.{label_of};
ghost use Rattle.wiring_plan.specs.wiring_classes.States.{states_of_item, states_of_state, states_below, states_of_graph, state_labels};

use crate::wiring_classes::labels::label_of;
use room_ast::{ActorClass, GraphItem, State};
use room_kinds::Sequence;
use room_wiring::Label;
use std::alloc::{AllocError, Global};

/// Two texts, one behind the other.
fn joined(alloc: Global, first: &[u8], second: &[u8]) -> Result<Vec<u8>, AllocError>
    ensures { IfOk result (λ v. v.items ≡ first.now ++ second.now) }
{
    let mut text = Vec::from_slice(alloc, first)?;
    text.extend_from_slice(second)?;
    Ok(text)
}

/// How deep graphs are looked into below the top graph: where states nest deeper than 16, a chart has
/// a fault, and nobody asks for their texts, which would take room in proportion to the square of the
/// depth.
const GRAPHS_BELOW: usize = 15;

#[cycle(states)]
fn add_item(
    alloc: Global,
    labels: &mut Vec<Label>,
    left: usize,
    prefix: &[u8],
    item: &GraphItem,
) -> Result<(), AllocError>
    ensures { OnOk result (labels.new.items
        ≡ labels.old.items ++ map label_of (states_of_item left prefix.now (item_view item.now))) }
{
    match item {
        GraphItem::State(state) => add_state(alloc, labels, left, prefix, state),
        GraphItem::Choice(_) => Ok(()),
        GraphItem::Point(_) => Ok(()),
        GraphItem::Transition(_) => Ok(()),
        GraphItem::Refinement(_) => Ok(()),
    }
}

/// Adds the text of a state, and then those of its own graph.
#[cycle(states)]
fn add_state(
    alloc: Global,
    labels: &mut Vec<Label>,
    left: usize,
    prefix: &[u8],
    state: &State,
) -> Result<(), AllocError>
    ensures { OnOk result (labels.new.items ≡ labels.old.items
        ++ map label_of (states_of_state left prefix.now (state_view state.now))) }
{
    let text = joined(alloc, prefix, state.name.as_bytes())?;
    labels.push(label_of(alloc, text.as_slice())?)?;
    let Some(body) = &state.body else {
        return Ok(());
    };
    match &body.subgraph {
        Some(items) => add_below(alloc, labels, left, text.as_slice(), items),
        None => Ok(()),
    }
}

/// Adds the texts of the states of the graph of the state with this text, if it may be looked into.
#[cycle(states)]
fn add_below(
    alloc: Global,
    labels: &mut Vec<Label>,
    left: usize,
    text: &[u8],
    items: &Vec<GraphItem>,
) -> Result<(), AllocError>
    ensures { OnOk result (labels.new.items ≡ labels.old.items
        ++ map label_of (states_below left text.now (graph_view items.now.items))) }
{
    if left == 0 {
        return Ok(());
    }
    let inner = joined(alloc, text, b".")?;
    add_graph(alloc, labels, left - 1, inner.as_slice(), items)
}

#[cycle(states)]
fn add_graph(
    alloc: Global,
    labels: &mut Vec<Label>,
    left: usize,
    prefix: &[u8],
    items: &Vec<GraphItem>,
) -> Result<(), AllocError>
    ensures { OnOk result (labels.new.items ≡ labels.old.items
        ++ map label_of (states_of_graph left prefix.now (graph_view items.now.items))) }
{
    for item in items {
        add_item(alloc, labels, left, prefix, item)?;
    }
    Ok(())
}

/// The texts of the states of a class, by number, where states nest at most 16 deep; none where it has
/// no chart. Their list takes no more room than they do.
#[tactic(auto, unfolding(crate::specs::wiring_classes::States::state_labels))]
pub(crate) fn state_labels(alloc: Global, class: &ActorClass) -> Result<Sequence<Label>, AllocError>
    ensures { IfOk result (λ s. s ≡ state_labels (actor_view class.now)) }
{
    let mut labels = Vec::new(alloc);
    let Some(behavior) = &class.behavior else {
        return Ok(Sequence::from(labels));
    };
    let Some(machine) = &behavior.machine else {
        return Ok(Sequence::from(labels));
    };
    add_graph(alloc, &mut labels, GRAPHS_BELOW, b"", &machine.items)?;
    labels.shrink_to_fit();
    Ok(Sequence::from(labels))
}
