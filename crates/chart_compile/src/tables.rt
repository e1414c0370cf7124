//! Compiling a chart.
ghost use Rattle.std.specs.Prelude.{IfOk};
ghost use Rattle.chart_trees.specs.chart_graphs.Views.{chart_view};
ghost use Rattle.chart_reader.specs.Whole.{IsWhole};
ghost use Rattle.chart_compile.specs.chart_parts.Compiled.{Compiles};

use crate::assemble::assemble;
use crate::chart_numbers::state_keys;
use crate::chart_places::{graph_keys, index_of, places_of};
use chart_reader::steps_of;
use chart_run::Tables;
use chart_trees::Chart;
use std::alloc::{AllocError, Global};

/// The tables of a valid chart whose graphs are those of its states, of which there are at most
/// 65,535: a machine over them does what the chart says. It takes time in proportion to the
/// transitions and states of the chart and the names of their paths.
///
/// Of two graphs under one path the first alone counts.
pub fn compile(alloc: Global, chart: &Chart) -> Result<Tables, AllocError>
    requires { IsWhole (chart_view chart.now) }
    ensures { IfOk result (λ t. Compiles t (chart_view chart.now)) }
{
    let steps = steps_of(alloc, chart)?;
    let graph_keys = graph_keys(alloc, &chart.graphs)?;
    let graphs = index_of(alloc, graph_keys.as_slice())?;
    let places = places_of(alloc, chart, &graphs)?;
    let state_keys = state_keys(alloc, places.as_slice())?;
    let states = index_of(alloc, state_keys.as_slice())?;
    let tables = assemble(
        alloc,
        &states,
        &graphs,
        graph_keys.as_slice(),
        steps.as_slice(),
        places.as_slice(),
        chart,
    )?;
    Ok(tables)
}
