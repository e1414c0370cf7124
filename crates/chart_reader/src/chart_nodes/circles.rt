//! Whether nodes lead in a circle.
ghost use Rattle.std.specs.Prelude.{◌≡◌, ◌<◌, ◌++◌, ◌∷◌, [], length, map, slice_set, slice_index_or, replicate, IfOk, OnOk};
ghost use Rattle.number_graphs.specs.class_containment.Walks.{Orders};
ghost use Rattle.chart_trees.specs.chart_graphs.Views.{chart_view};
ghost use Rattle.chart_reader.specs.chart_nodes.Steps.{step_view};
ghost use Rattle.chart_reader.specs.chart_nodes.Circles.{HasCircle, linked_by, targets_of, parts_of};

use crate::chart_nodes::steps::{Step, steps_of};
use chart_trees::Chart;
use name_tables::NameIndex;
use number_graphs::containment_order;
use room_kinds::Sequence;
use std::alloc::{AllocError, Global};

/// The nodes that steps lead to, by their keys. A node has the number of the first step that leads
/// to it.
pub fn target_index<'a, 'b>(
    alloc: Global,
    steps: &'a [Step<'b>],
) -> Result<NameIndex<'a>, AllocError>
    ensures { IfOk result (λ nodes. nodes ≡ targets_of (map step_view steps.now)) }
{
    let mut keys = Vec::new(alloc);
    for step in steps {
        keys.push(step.target.as_slice())?;
    }
    NameIndex::of(alloc, keys)
}

fn add_part(parts: &mut Vec<Sequence<usize>>, node: usize, next: usize) -> Result<(), AllocError>
    requires { node < length parts.old.items }
    ensures { OnOk result (parts.new.items
        ≡ slice_set parts.old.items node (slice_index_or parts.old.items node [] ++ next ∷ [])) }
{
    parts[node].push(next)?;
    Ok(())
}

/// Notes that a step leads from one node to another, if it begins at a node.
#[tactic(auto, unfolding(crate::specs::chart_nodes::Circles::linked))]
fn link<'a, 'b>(
    parts: &mut Vec<Sequence<usize>>,
    nodes: &NameIndex<'a>,
    step: &Step<'b>,
) -> Result<(), AllocError>
    requires { length parts.old.items ≡ length nodes.now }
    ensures { OnOk result (parts.new.items
        ≡ linked_by nodes.now parts.old.items (step_view step.now)) }
{
    let Some(node) = nodes.place_of(step.origin.as_slice()) else {
        return Ok(());
    };
    let Some(next) = nodes.place_of(step.target.as_slice()) else {
        return Ok(());
    };
    add_part(parts, node, next)
}

fn no_parts(alloc: Global, count: usize) -> Result<Vec<Sequence<usize>>, AllocError>
    ensures { IfOk result (λ parts. parts.items ≡ replicate count []) }
{
    let mut parts = Vec::new(alloc);
    for _i in 0..count {
        parts.push(Sequence::new(alloc))?;
    }
    Ok(parts)
}

/// For each node the nodes that it leads to at once, both by number. A node has the number of the
/// first step that leads to it; other numbers lead nowhere.
pub fn parts_of(alloc: Global, steps: &[Step]) -> Result<Vec<Sequence<usize>>, AllocError>
    ensures { IfOk result (λ parts. parts.items ≡ parts_of (map step_view steps.now)) }
{
    let nodes = target_index(alloc, steps)?;
    let mut parts = no_parts(alloc, steps.len())?;
    for step in steps {
        link(&mut parts, &nodes, step)?;
    }
    Ok(parts)
}

/// An order of the numbers of steps in which each node stands after those that it leads to; none
/// where nodes lead in a circle. It takes time in proportion to the steps and their keys.
pub fn node_order(alloc: Global, steps: &[Step]) -> Result<Option<Vec<usize>>, AllocError>
    ensures { IfOk result (λ order. Orders (parts_of (map step_view steps.now)) order) }
{
    let parts = parts_of(alloc, steps)?;
    containment_order(alloc, parts.as_slice())
}

/// Whether some node of a chart leads to itself, through transitions with no simple state between.
/// It takes time in proportion to the transitions and the names of their paths.
pub fn has_circle(alloc: Global, chart: &Chart) -> Result<bool, AllocError>
    ensures { IfOk result (λ b. HasCircle (chart_view chart.now) b) }
{
    let steps = steps_of(alloc, chart)?;
    let order = node_order(alloc, steps.as_slice())?;
    Ok(order.is_none())
}
