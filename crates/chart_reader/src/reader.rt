//! Reading a chart.
ghost use Rattle.std.specs.Prelude.{◌≡◌, Some, None, IfOk, OnOk};
ghost use Rattle.action_lang.specs.action_check.Answers.{Grows};
ghost use Rattle.room_ast.specs.ChartTree.{graph_view};
ghost use Rattle.chart_model.specs.Valid.{IsValid};
ghost use Rattle.chart_trees.specs.chart_graphs.Views.{chart_view};
ghost use Rattle.chart_trees.specs.Reading.{reading};
ghost use Rattle.chart_reader.specs.Faults.{names_fault};
ghost use Rattle.chart_reader.specs.Reads.{IsLowestFault, Reads};
ghost use Rattle.chart_reader.specs.chart_rules.IndexView.{index_view};

use crate::chart_nodes::{has_circle, steps_of};
use crate::chart_rules::{
    ChartIndex, border_keys, has_defaults, has_initials, has_one_initial_at_most, has_right_names,
    is_shallow,
};
use crate::depth::{MOST_DEEP, graph_nests};
use crate::fault::{ChartFault, ReadFault};
use action_lang::action_check::ServiceNames;
use chart_trees::{Chart, Marks, write_chart};
use room_ast::{Scope, StateMachine};
use std::alloc::{AllocError, Global};

/// The first of the rules on names and transitions that a chart breaks, told from its tables.
#[tactic(auto, unfolding(crate::specs::Faults::names_fault))]
fn indexed_fault(alloc: Global, chart: &ChartIndex) -> Result<Option<ChartFault>, AllocError>
    ensures { IfOk result (λ fault. fault ≡ names_fault (index_view chart.now)) }
{
    if !is_shallow(chart) {
        return Ok(Some(ChartFault::DepthAbove16));
    }
    if !has_right_names(alloc, chart)? {
        return Ok(Some(ChartFault::BadPoint));
    }
    if !has_one_initial_at_most(alloc, chart)? {
        return Ok(Some(ChartFault::TwoInitials));
    }
    if !has_initials(alloc, chart)? {
        return Ok(Some(ChartFault::NoInitial));
    }
    if !has_defaults(alloc, chart)? {
        return Ok(Some(ChartFault::NoDefault));
    }
    Ok(None)
}

/// The first of the rules on names and transitions that a chart breaks. It takes time in proportion
/// to the chart and the names of its paths.
fn names_fault(alloc: Global, chart: &Chart) -> Result<Option<ChartFault>, AllocError>
    ensures { IfOk result (λ fault. fault ≡ names_fault (chart_view chart.now)) }
{
    let keys = border_keys(alloc, chart)?;
    let steps = steps_of(alloc, chart)?;
    let index = ChartIndex::of(alloc, chart, keys.as_slice(), steps.as_slice())?;
    indexed_fault(alloc, &index)
}

/// The lowest fault of a chart that keeps the rules on names and transitions.
#[tactic(auto, using(crate::proofs::Lowest::circle_told, crate::proofs::Lowest::trigger_told, crate::proofs::Lowest::action_told, crate::proofs::Lowest::none_told))]
fn later_fault(alloc: Global, chart: &Chart, marks: Marks) -> Result<Option<ChartFault>, AllocError>
    requires { names_fault (chart_view chart.now) ≡ None }
    ensures { IfOk result (λ fault.
        IsLowestFault (chart_view chart.now) marks.events_fit marks.codes_fit fault) }
{
    if has_circle(alloc, chart)? {
        return Ok(Some(ChartFault::ChoiceCycle));
    }
    if !marks.events_fit {
        return Ok(Some(ChartFault::BadTrigger));
    }
    if !marks.codes_fit {
        return Ok(Some(ChartFault::BadAction));
    }
    Ok(None)
}

/// The lowest fault of a chart.
#[tactic(auto, using(crate::proofs::Lowest::names_told))]
fn lowest_fault(
    alloc: Global,
    chart: &Chart,
    marks: Marks,
) -> Result<Option<ChartFault>, AllocError>
    ensures { IfOk result (λ fault.
        IsLowestFault (chart_view chart.now) marks.events_fit marks.codes_fit fault) }
{
    match names_fault(alloc, chart)? {
        Some(fault) => Ok(Some(fault)),
        None => later_fault(alloc, chart, marks),
    }
}

/// The chart that a state machine's text writes, in a class, behind the service names of the
/// classes before it: these are the names after it, once it is read. Else the lowest fault of the
/// text. Whatever it answers, `names` has gained names at its end alone. What is read is valid. A text
/// whose states nest too deep is told without being read any deeper.
#[tactic(auto, using(crate::proofs::Nesting::depth_told, crate::proofs::Lowest::fault_told, crate::proofs::Lowest::memory_told, crate::proofs::Lowest::chart_told, crate::proofs::Lowest::names_now))]
pub fn read_chart(
    alloc: Global,
    machine: &StateMachine,
    scope: &Scope,
    names: &mut ServiceNames,
) -> Result<Chart, ReadFault>
    ensures reads { Reads scope.now names.old (graph_view machine.now.items.items) result }
    ensures valid { IfOk result (λ c. IsValid (chart_view c)) }
    ensures names { OnOk result ((reading scope.now names.old
        (graph_view machine.now.items.items)).names
        ≡ Some names.new) }
    ensures grown { Grows names.old names.new }
{
    if !graph_nests(&machine.items, MOST_DEEP) {
        return Err(ReadFault::Chart(ChartFault::DepthAbove16));
    }
    let written = write_chart(alloc, machine, scope, names)?;
    match lowest_fault(alloc, &written.chart, written.marks)? {
        Some(fault) => Err(ReadFault::Chart(fault)),
        None => Ok(written.chart),
    }
}
