//! Tables from the steps and the states of a chart.
ghost use Rattle.std.specs.Prelude.{◌≡◌, ◌<◌, ◌≤◌, ◌∷◌, [], ℕ, List, length, map, sum, IfOk};
ghost use Rattle.number_graphs.specs.class_containment.Containment.{NoneContainsItself};
ghost use Rattle.chart_model.specs.chart_plan.Same.{Each};
ghost use Rattle.chart_model.specs.Named.{nodes_in};
ghost use Rattle.chart_trees.specs.chart_graphs.Views.{graph_view};
ghost use Rattle.chart_reader.specs.chart_nodes.Keys.{codes};
ghost use Rattle.chart_reader.specs.chart_nodes.Steps.{step_view};
ghost use Rattle.chart_reader.specs.chart_nodes.Circles.{parts_of};
ghost use Rattle.chart_compile.specs.chart_places.Places.{place_view};
ghost use Rattle.chart_compile.specs.chart_parts.Parts.{ArePlaced, IsRow, IsShared, LeadTo, from_key, key_of};
ghost use Rattle.chart_compile.specs.chart_numbers.Order.{AreNumbered};
ghost use Rattle.chart_compile.specs.Joined.{AllGoOn, AreKeyed, AreMade, AreOf};

use crate::chart_numbers::{NodeOrder, number_nodes};
use crate::chart_places::{Place, group_by};
use crate::chart_rows::{rows_of, shared_of};
use crate::nodes::{fill_up, nodes_of};
use crate::start::initial_arrow;
use chart_reader::Step;
use chart_run::{Arrow, Node, Row, Tables};
use chart_trees::{Chart, Graph};
use name_tables::NameIndex;
use room_kinds::Sequence;
use std::alloc::{AllocError, Global};

/// The rows of states.
fn state_rows<'b, 'p, 's, 'g, 'n>(
    alloc: Global,
    states: &NameIndex<'s>,
    graphs: &NameIndex<'g>,
    nodes: &NameIndex<'n>,
    steps: &[Step<'b>],
    places: &[Place<'p>],
) -> Result<Vec<Row>, AllocError>
    requires keyed { states.now ≡ map key_of (map place_view places.now) }
    requires placed { ArePlaced states.now graphs.now (map place_view places.now) }
    requires lead { LeadTo nodes.now (map step_view steps.now) }
    ensures { IfOk result (λ rows.
        Each (IsRow states.now graphs.now nodes.now (map step_view steps.now)) rows.items
        (map place_view places.now)) }
{
    let own = group_by(alloc, states, places.len(), steps)?;
    let rows = rows_of(alloc, states, graphs, nodes, steps, own.as_slice(), places)?;
    Ok(rows)
}

/// For each graph the transitions from its transition points.
fn shared_rows<'b, 'g, 'n>(
    alloc: Global,
    graphs: &NameIndex<'g>,
    nodes: &NameIndex<'n>,
    steps: &[Step<'b>],
    keys: &[Sequence<u8>],
) -> Result<Vec<Vec<Arrow>>, AllocError>
    requires keyed { graphs.now ≡ keys.now }
    requires lead { LeadTo nodes.now (map step_view steps.now) }
    ensures { IfOk result (λ shared.
        Each (IsShared nodes.now (map step_view steps.now)) shared.items keys.now) }
{
    let groups = group_by(alloc, graphs, keys.len(), steps)?;
    let shared = shared_of(alloc, graphs, nodes, steps, groups.as_slice(), keys)?;
    Ok(shared)
}

/// The nodes that the steps with some numbers lead to, and then nodes to which nothing leads, as many
/// in all as graphs have.
fn node_rows<'b, 's, 'n>(
    alloc: Global,
    states: &NameIndex<'s>,
    nodes: &NameIndex<'n>,
    steps: &[Step<'b>],
    targets: &[usize],
    all: &[Graph],
) -> Result<Vec<Node>, AllocError>
    requires numbered { AreNumbered (map step_view steps.now) nodes.now targets.now }
    requires keyed { AreKeyed (map step_view steps.now) }
    requires go_on { AllGoOn states.now (map step_view steps.now) }
    requires lead { LeadTo nodes.now (map step_view steps.now) }
    requires enough { length nodes.now ≤ sum (map nodes_in (map graph_view all.now)) }
    ensures { IfOk result (λ made.
        AreMade states.now nodes.now (map step_view steps.now) targets.now
        (sum (map nodes_in (map graph_view all.now))) made.items) }
{
    let groups = group_by(alloc, nodes, targets.len(), steps)?;
    let mut made = nodes_of(alloc, states, nodes, steps, groups.as_slice(), targets)?;
    fill_up(&mut made, all)?;
    Ok(made)
}

/// The nodes to which steps lead, in the order of their numbers.
fn numbered<'a, 'b>(alloc: Global, steps: &'a [Step<'b>]) -> Result<NodeOrder<'a>, AllocError>
    requires keyed { AreKeyed (map step_view steps.now) }
    requires no_circle { NoneContainsItself (parts_of (map step_view steps.now)) }
    ensures numbered { IfOk result (λ nodes.
        AreNumbered (map step_view steps.now) nodes.keys nodes.targets.items) }
    ensures lead { IfOk result (λ nodes. LeadTo nodes.keys (map step_view steps.now)) }
{
    let nodes = number_nodes(alloc, steps)?;
    Ok(nodes)
}

/// The tables of steps and states, with as many nodes as the graphs of a chart have, and its values.
pub fn assemble<'b, 'p, 's, 'g>(
    alloc: Global,
    states: &NameIndex<'s>,
    graphs: &NameIndex<'g>,
    keys: &[Sequence<u8>],
    steps: &[Step<'b>],
    places: &[Place<'p>],
    chart: &Chart,
) -> Result<Tables, AllocError>
    requires states_are { states.now ≡ map key_of (map place_view places.now) }
    requires graphs_are { graphs.now ≡ keys.now }
    requires keyed { AreKeyed (map step_view steps.now) }
    requires placed { ArePlaced states.now graphs.now (map place_view places.now) }
    requires go_on { AllGoOn states.now (map step_view steps.now) }
    requires no_circle { NoneContainsItself (parts_of (map step_view steps.now)) }
    requires enough { (keys : List (List ℕ)) (targets : List ℕ)
        → AreNumbered (map step_view steps.now) keys targets
        → length keys ≤ sum (map nodes_in (map graph_view chart.now.graphs.items)) }
    requires starts { 0 < length (from_key (0 ∷ codes []) (map step_view steps.now)) }
    ensures tables { IfOk result (λ v.
        AreOf states.now graphs.now (map step_view steps.now) (map place_view places.now)
        (sum (map nodes_in (map graph_view chart.now.graphs.items))) v) }
    ensures values { IfOk result (λ v. v.values.items ≡ chart.now.values.items) }
{
    let nodes = numbered(alloc, steps)?;
    let rows = state_rows(alloc, states, graphs, &nodes.keys, steps, places)?;
    let shared = shared_rows(alloc, graphs, &nodes.keys, steps, keys)?;
    let targets = nodes.targets.as_slice();
    let made = node_rows(alloc, states, &nodes.keys, steps, targets, &chart.graphs)?;
    let initial = initial_arrow(alloc, &nodes.keys, steps)?;
    let copies = Vec::from_slice(alloc, chart.values.as_slice())?;
    Ok(Tables {
        states: rows,
        graphs: shared,
        nodes: made,
        initial,
        values: copies,
    })
}
