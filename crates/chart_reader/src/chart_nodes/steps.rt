//! The transitions of a chart, with keys.
ghost use Rattle.std.specs.Prelude.{◌≡◌, ◌++◌, map, IfOk, OnOk};
ghost use Rattle.chart_trees.specs.chart_graphs.Views.{chart_view, graph_view};
ghost use Rattle.chart_reader.specs.chart_nodes.Keys.{codes};
ghost use Rattle.chart_reader.specs.chart_nodes.Steps.{steps_in, steps_of, step_view};

use crate::chart_nodes::keys::{graph_key, origin_key, target_key};
use chart_trees::{Chart, Graph, Transition};
use name_tables::Numbers;
use room_kinds::Sequence;
use std::alloc::{AllocError, Global};

/// A transition in its graph, with the key of the place where it begins and that of the node that it
/// leads to.
#[derive(Drop)]
pub struct Step<'a> {
    pub graph: &'a Graph,
    pub transition: &'a Transition,
    pub origin: Vec<u8>,
    pub target: Vec<u8>,
}

fn graph_keys(alloc: Global, graphs: &[Graph]) -> Result<Vec<Sequence<u8>>, AllocError>
    ensures { IfOk result (λ keys. keys.items ≡ map (λ g. codes g.owner) graphs.now) }
{
    let mut keys = Vec::new(alloc);
    for graph in graphs {
        let key = graph_key(alloc, graph.owner.as_slice())?;
        keys.push(Sequence::from(key))?;
    }
    Ok(keys)
}

/// Adds the steps of a graph, in order of declaration.
#[tactic(auto, using(crate::proofs::chart_nodes::StepLaws::more_made))]
fn add_steps<'a>(
    alloc: Global,
    steps: &mut Vec<Step<'a>>,
    graph: &'a Graph,
) -> Result<(), AllocError>
    ensures { OnOk result (map step_view steps.new.items
        ≡ map step_view steps.old.items ++ steps_in (graph_view graph.now)) }
{
    let owner = graph.owner.as_slice();
    for transition in &graph.transitions {
        let origin = origin_key(alloc, owner, &transition.source)?;
        let target = target_key(alloc, owner, &transition.target)?;
        steps.push(Step {
            graph,
            transition,
            origin,
            target,
        })?;
    }
    Ok(())
}

/// The steps of a chart, graph by graph. Of two graphs under one path the first alone counts.
#[tactic(auto, using(crate::proofs::chart_nodes::StepLaws::graphs_more, crate::proofs::chart_nodes::StepLaws::graphs_end))]
pub fn steps_of<'a>(alloc: Global, chart: &'a Chart) -> Result<Vec<Step<'a>>, AllocError>
    ensures { IfOk result (λ steps. map step_view steps.items ≡ steps_of (chart_view chart.now)) }
{
    let keys = graph_keys(alloc, &chart.graphs)?;
    let mut seen = Numbers::new(alloc);
    let mut steps = Vec::new(alloc);
    for (i, graph) in chart.graphs.iter().enumerate() {
        if seen.add(keys[i].as_slice())? {
            add_steps(alloc, &mut steps, graph)?;
        }
    }
    Ok(steps)
}
