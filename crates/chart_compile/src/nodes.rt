//! The nodes of the tables.
ghost use Rattle.std.specs.Prelude.{◌≡◌, ◌+◌, ◌-◌, ◌≤◌, true, Some, length, map, slice_get, sum, IfOk, OnOk};
ghost use Rattle.name_tables.specs.name_numbers.Names.{is_among};
ghost use Rattle.chart_model.specs.chart_plan.Same.{Each};
ghost use Rattle.chart_model.specs.Named.{nodes_in};
ghost use Rattle.chart_trees.specs.chart_graphs.Views.{graph_view};
ghost use Rattle.chart_reader.specs.chart_nodes.Steps.{StepTree, step_view};
ghost use Rattle.chart_reader.specs.chart_nodes.Circles.{targets_of};
ghost use Rattle.chart_compile.specs.chart_places.Groups.{IsGrouped, picked};
ghost use Rattle.chart_compile.specs.chart_parts.Parts.{LeadTo, from_key, target_of};
ghost use Rattle.chart_compile.specs.chart_parts.Nodes.{GoesOn, IsNode, node_after};
ghost use Rattle.chart_compile.specs.Joined.{AddsNode, AllGoOn, AreKeyed, SameNodes};

use crate::chart_kinds::make_node;
use crate::chart_rows::{step_at, steps_at};
use chart_reader::Step;
use chart_run::Node;
use chart_trees::Graph;
use name_tables::NameIndex;
use room_kinds::Sequence;
use std::alloc::{AllocError, Global};

/// The node that a step leads to.
fn node_after<'b, 's, 'n>(
    alloc: Global,
    states: &NameIndex<'s>,
    nodes: &NameIndex<'n>,
    steps: &[Step<'b>],
    groups: &[Sequence<usize>],
    step: &Step<'b>,
) -> Result<Node, AllocError>
    requires grouped { IsGrouped nodes.now groups.now (map step_view steps.now) }
    requires keyed { (step_view step.now).target ≡ target_of (step_view step.now) }
    requires goes_on { GoesOn states.now (node_after (step_view step.now))
        (from_key (target_of (step_view step.now)) (map step_view steps.now)) }
    requires known { is_among nodes.now (step_view step.now).target ≡ true }
    requires lead { LeadTo nodes.now (map step_view steps.now) }
    ensures { IfOk result (λ n.
        IsNode states.now nodes.now (map step_view steps.now) n (step_view step.now)) }
{
    let group = steps_at(nodes, groups, step.target.as_slice());
    let node = make_node(alloc, states, nodes, steps, group, step)?;
    Ok(node)
}

/// Adds the node that the step with a number leads to, if there is such a step.
fn add_node<'b, 's, 'n>(
    alloc: Global,
    states: &NameIndex<'s>,
    nodes: &NameIndex<'n>,
    steps: &[Step<'b>],
    groups: &[Sequence<usize>],
    number: usize,
    made: &mut Vec<Node>,
) -> Result<(), AllocError>
    requires grouped { IsGrouped nodes.now groups.now (map step_view steps.now) }
    requires keyed { AreKeyed (map step_view steps.now) }
    requires go_on { AllGoOn states.now (map step_view steps.now) }
    requires lead { LeadTo nodes.now (map step_view steps.now) }
    requires known { (s : StepTree) → slice_get (map step_view steps.now) number ≡ Some s
        → is_among nodes.now s.target ≡ true }
    ensures { OnOk result (AddsNode states.now nodes.now (map step_view steps.now) number
        made.old.items made.new.items) }
{
    let Some(step) = step_at(steps, number) else {
        return Ok(());
    };
    let node = node_after(alloc, states, nodes, steps, groups, step)?;
    made.push(node)?;
    Ok(())
}

/// The nodes that the steps with some numbers lead to, in their order.
pub fn nodes_of<'b, 's, 'n>(
    alloc: Global,
    states: &NameIndex<'s>,
    nodes: &NameIndex<'n>,
    steps: &[Step<'b>],
    groups: &[Sequence<usize>],
    targets: &[usize],
) -> Result<Vec<Node>, AllocError>
    requires grouped { IsGrouped nodes.now groups.now (map step_view steps.now) }
    requires keyed { AreKeyed (map step_view steps.now) }
    requires go_on { AllGoOn states.now (map step_view steps.now) }
    requires lead { LeadTo nodes.now (map step_view steps.now) }
    requires numbered { nodes.now ≡ targets_of (picked (map step_view steps.now) targets.now) }
    ensures { IfOk result (λ made.
        Each (IsNode states.now nodes.now (map step_view steps.now)) made.items
        (picked (map step_view steps.now) targets.now)) }
{
    let mut made = Vec::new(alloc);
    for number in targets {
        add_node(alloc, states, nodes, steps, groups, *number, &mut made)?;
    }
    Ok(made)
}

/// Goes on through so many nodes of a graph, of which the first `there` are there already: for each of
/// the others it adds one to which nothing leads. It answers how many of the next ones are there.
fn fill_more(nodes: &mut Vec<Node>, there: usize, many: usize) -> Result<usize, AllocError>
    ensures same { OnOk result (SameNodes nodes.old.items nodes.new.items) }
    ensures size { OnOk result (length nodes.new.items ≡ length nodes.old.items + (many - there)) }
    ensures there { IfOk result (λ left. left ≡ there - many) }
{
    let known = many.min(there);
    for _i in known..many {
        nodes.push(Node::Simple(0))?;
    }
    Ok(there - known)
}

/// Goes on through the nodes of a graph.
fn fill_graph(nodes: &mut Vec<Node>, there: usize, graph: &Graph) -> Result<usize, AllocError>
    ensures same { OnOk result (SameNodes nodes.old.items nodes.new.items) }
    ensures size { OnOk result (length nodes.new.items
        ≡ length nodes.old.items + (nodes_in (graph_view graph.now) - there)) }
    ensures there { IfOk result (λ left. left ≡ there - nodes_in (graph_view graph.now)) }
{
    let there = fill_more(nodes, there, graph.states.len())?;
    let there = fill_more(nodes, there, graph.points.len())?;
    fill_more(nodes, there, graph.choices.len())
}

/// Adds nodes to which nothing leads, until there are as many as graphs have.
pub fn fill_up(nodes: &mut Vec<Node>, graphs: &[Graph]) -> Result<(), AllocError>
    requires { length nodes.old.items ≤ sum (map nodes_in (map graph_view graphs.now)) }
    ensures same { OnOk result (SameNodes nodes.old.items nodes.new.items) }
    ensures size { OnOk result (length nodes.new.items
        ≡ sum (map nodes_in (map graph_view graphs.now))) }
{
    let mut there = nodes.len();
    for graph in graphs {
        there = fill_graph(nodes, there, graph)?;
    }
    Ok(())
}
