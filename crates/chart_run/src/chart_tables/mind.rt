//! What a chain changes.
ghost use Rattle.std.specs.Prelude.{◌≡◌, option_map, OnOk, IfOk};
ghost use Rattle.action_program.specs.Numbered.{program_view, expr_view};
ghost use Rattle.chart_model.specs.Acting.{acting};
ghost use Rattle.chart_model.specs.chart_plan.Handling.{runs, holds, enter};
ghost use Rattle.chart_run.specs.chart_tables.Tables.{plan};
ghost use Rattle.chart_run.specs.chart_tables.Minds.{memory_of, Becomes, Gives};

use crate::chart_tables::tables::Tables;
use action_program::{Bound, BoundExpr, Effects, Moment, Vars, eval, test};
use std::alloc::{AllocError, Global};

/// What a chain changes: for each composite state the state at which the path ended that last left
/// it, the attributes, and what actions told and asked for.
#[derive(Drop)]
pub struct Mind {
    pub past: Vec<Option<u16>>,
    pub vars: Vars,
    pub effects: Effects,
}

impl Mind {
    /// Runs a program.
    #[tactic(auto, unfolding(chart_model::specs::chart_plan::Handling::runs))]
    pub(crate) fn run(
        &mut self,
        alloc: Global,
        program: &Bound,
        at: &Moment,
    ) -> Result<(), AllocError>
        ensures { OnOk result (Becomes self.old self.new
            (runs (acting at.now) (program_view program.now) (memory_of self.old))) }
    {
        eval(alloc, program, &mut self.vars, at, &mut self.effects)
    }

    /// Whether a condition holds; one that is missing does.
    #[tactic(auto, unfolding(chart_model::specs::chart_plan::Handling::holds), using(crate::proofs::chart_tables::MindLemmas::condition_held))]
    pub(crate) fn holds(
        &mut self,
        condition: &Option<BoundExpr>,
        at: &Moment,
    ) -> Result<bool, AllocError>
        ensures { IfOk result (λ b.
            Gives self.old self.new b
            (holds (acting at.now) (option_map expr_view condition.now) (memory_of self.old))) }
    {
        match condition {
            None => Ok(true),
            Some(condition) => {
                let holds = test(condition, &self.vars, at, &mut self.effects)?;
                Ok(holds)
            }
        }
    }

    /// Enters a state: its entry action runs.
    #[tactic(auto, unfolding(chart_model::specs::chart_plan::Handling::enter), using(crate::proofs::chart_tables::MindLemmas::unknown_enters))]
    pub(crate) fn enter(
        &mut self,
        alloc: Global,
        tables: &Tables,
        state: u16,
        at: &Moment,
    ) -> Result<(), AllocError>
        ensures { OnOk result (Becomes self.old self.new
            (enter (plan tables.now) (acting at.now) state (memory_of self.old))) }
    {
        match tables.states.get(usize::from(state)) {
            Some(row) => self.run(alloc, &row.entry, at),
            None => Ok(()),
        }
    }

    /// Runs the exit action of a state.
    #[tactic(auto, using(crate::proofs::chart_tables::MindLemmas::unknown_exits))]
    pub(crate) fn run_exit(
        &mut self,
        alloc: Global,
        tables: &Tables,
        state: u16,
        at: &Moment,
    ) -> Result<(), AllocError>
        ensures { OnOk result (Becomes self.old self.new
            (runs (acting at.now) ((plan tables.now).exit state) (memory_of self.old))) }
    {
        match tables.states.get(usize::from(state)) {
            Some(row) => self.run(alloc, &row.exit, at),
            None => Ok(()),
        }
    }
}
