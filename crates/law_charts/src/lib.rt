//! Runs over the charts of a model, by the names of their states: a run over the tables of a plant is a
//! run over the charts that the tables show. So who reads a journal need not meet a table.
//!
//! No code: the law.
#![tactic(auto)]

ghost use Rattle.law_charts.specs.Charts.{RunsAreByCharts};

/// A run over the tables of a plant is a run over the charts that they show.
pub fn runs_are_by_charts()
    ensures { RunsAreByCharts }
{}
