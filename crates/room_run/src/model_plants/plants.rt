//! Plants of wirings and charts.
ghost use Rattle.std.specs.Prelude.{◌≡◌, List, Option, IfOk, map, option_map};
ghost use Rattle.chart_trees.specs.chart_graphs.Views.{chart_view};
ghost use Rattle.chart_reader.specs.model_charts.Charts.{AreValid};
ghost use Rattle.chart_run.specs.declared.chart_tables.tables.Tables.{Tables as AnyTables};
ghost use Rattle.controller_actors.specs.PlantParts.{AreOfPlant};
ghost use Rattle.law_charts.specs.Charts.{ShowsChart, ShowCharts};
ghost use Rattle.room_run.specs.model_plants.Shown.{IsValidIfAny};

use chart_compile::compile;
use chart_run::Tables;
use chart_trees::Chart;
use controller_actors::{Plant, SlotRows};
use room_wiring::Wiring;
use service_messages::SlotRuns;
use std::alloc::{AllocError, Global};

fn tables_of(alloc: Global, chart: &Option<Chart>) -> Result<Option<Tables>, AllocError>
    requires { IsValidIfAny (option_map chart_view chart.now) }
    ensures { IfOk result (λ t. ShowsChart t (option_map chart_view chart.now)) }
{
    match chart {
        Some(chart) => Ok(Some(compile(alloc, chart)?)),
        None => Ok(None),
    }
}

#[tactic(auto, using(crate::proofs::model_plants::Tabled::valid_at, crate::proofs::model_plants::Tabled::one_more))]
fn all_tables(alloc: Global, charts: &[Option<Chart>]) -> Result<Vec<Option<Tables>>, AllocError>
    requires { AreValid (map (option_map chart_view) charts.now) }
    ensures { IfOk result (λ tables.
        ShowCharts tables.items (map (option_map chart_view) charts.now)) }
{
    let mut tables = Vec::new(alloc);
    for chart in charts {
        let shown = tables_of(alloc, chart)?;
        tables.push(shown)?;
    }
    Ok(tables)
}

/// What a model with this wiring and these charts, one for each class that has a state machine, runs
/// as. The charts are compiled, each once.
pub fn plant_of(
    alloc: Global,
    wiring: Wiring,
    charts: &[Option<Chart>],
) -> Result<Plant, AllocError>
    requires valid { AreValid (map (option_map chart_view) charts.now) }
    requires plant { (tables : List (Option AnyTables))
        → ShowCharts tables (map (option_map chart_view) charts.now)
        → AreOfPlant wiring tables }
    ensures wiring { IfOk result (λ p. p.wiring ≡ wiring) }
    ensures tables { IfOk result (λ p.
        ShowCharts p.tables.items (map (option_map chart_view) charts.now)) }
{
    let tables = all_tables(alloc, charts)?;
    let rows = SlotRows::of(alloc, &wiring)?;
    let runs = SlotRuns::new(alloc, &wiring)?;
    Ok(Plant {
        wiring,
        tables,
        rows,
        runs,
    })
}
