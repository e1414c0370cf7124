//! Plants.
ghost use Rattle.std.specs.Prelude.{◌≡◌, ◌<◌, length, IfOk};
ghost use Rattle.std.specs.Option.{option_copied};
ghost use Rattle.chart_behaviour.specs.ModelCharts.{tables_at};
ghost use Rattle.controller_actors.specs.PlantParts.{AreOfPlant, AreOfPlant-prop, AreRunEnds-prop};
ghost use Rattle.controller_actors.specs.Rows.{AreRows, AreRows-prop, IsRowOf};
ghost use Rattle.service_messages.specs.slot_runs.Runs.{AreRunEnds};

use crate::slot_rows::SlotRows;
use chart_run::Tables;
use room_kinds::SlotId;
use room_wiring::Wiring;
use service_messages::SlotRuns;
use std::alloc::AllocError;

/// What a model runs as: its wiring, for each actor class, in order of declaration, the tables of its
/// chart, if it has one, which row each slot has at its owner, and where the runs of slots end.
/// Controllers run on every plant.
#[derive(Drop)]
pub struct Plant {
    pub wiring: Wiring,
    pub tables: Vec<Option<Tables>>,
    pub rows: SlotRows,
    pub runs: SlotRuns,
    pub ghost fits: { AreOfPlant wiring tables.items } by { AreOfPlant-prop wiring tables.items },
    pub ghost in_rows: { AreRows wiring rows } by { AreRows-prop wiring rows },
    pub ghost in_runs: { AreRunEnds wiring runs } by { AreRunEnds-prop wiring runs },
}

impl Plant {
    /// The row of a slot in the table of its owner.
    pub(crate) fn row_of(&self, slot: SlotId) -> usize
        requires { slot.0 < length self.now.wiring.slots }
        ensures { IsRowOf self.now.wiring slot.0 result }
    {
        self.rows.row(slot)
    }

    /// Where the runs of slots end, for one more owner. It takes no memory.
    pub(crate) fn share_runs(&self) -> Result<SlotRuns, AllocError>
        ensures { IfOk result (AreRunEnds self.now.wiring) }
    {
        let runs = self.runs.share()?;
        Ok(runs)
    }

    /// The tables of the class of a slot, if it has a chart. It takes no memory.
    #[tactic(auto, using(crate::proofs::Tabled::no_class, crate::proofs::Tabled::class_tables_at), unfolding(chart_behaviour::specs::ModelCharts::tables_at))]
    pub(crate) fn tables_of(&self, slot: SlotId) -> Option<&Tables>
        ensures { option_copied result ≡ tables_at self.now.wiring self.now.tables.items slot.0 }
    {
        if u32::from(slot.0) >= self.wiring.slot_count() {
            return None;
        }
        let class = usize::from(self.wiring.slot(slot).class);
        match self.tables.as_slice().get(class) {
            Some(Some(tables)) => Some(tables),
            Some(None) => None,
            None => None,
        }
    }
}
