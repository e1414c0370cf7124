//! The tables of the charts of a plant.
ghost use Rattle.std.specs.Prelude.{IfSome};
ghost use Rattle.chart_run.specs.chart_tables.Tables.{IsSound};

use chart_run::Tables;
use controller_actors::Plant;

/// The tables of the chart of the class of a number, if it has a chart.
#[tactic(auto, using(crate::proofs::chart_replays::SoundTables::tables_are_sound))]
pub(crate) fn tables_of(plant: &Plant, class: usize) -> Option<&Tables>
    ensures { IfSome result (λ t. IsSound t.now) }
{
    match plant.tables.as_slice().get(class) {
        Some(Some(tables)) => Some(tables),
        _ => None,
    }
}
