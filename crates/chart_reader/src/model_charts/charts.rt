//! Reading the charts of all classes.

ghost use Rattle.std.specs.Prelude.{◌≡◌, ◌<◌, [], ◌∷◌, ◌++◌, None, length, map, option_map, IfOk, OnOk};
ghost use Rattle.room_ast.specs.ChartTree.{graph_view};
ghost use Rattle.room_ast.specs.Trees.{model_view};
ghost use Rattle.room_ast.specs.model_parts.Classes.{actors};
ghost use Rattle.chart_trees.specs.chart_graphs.Views.{chart_view};
ghost use Rattle.structure_check.specs.Classes.{HasClasses};
ghost use Rattle.structure_check.specs.List.{all_rules};
ghost use Rattle.structure_check.specs.Rules.{first_broken};
ghost use Rattle.chart_reader.specs.model_charts.Charts.{AreValid};
ghost use Rattle.chart_reader.specs.model_charts.Making.{ReadsClass, TellsClass};
ghost use Rattle.chart_reader.specs.model_charts.Reads.{ReadsCharts};

use crate::model_charts::fault::ChartsFault;
use crate::{ChartFault, ReadFault, read_chart};
use action_lang::action_check::ServiceNames;
use chart_trees::Chart;
use room_ast::{Scope, StateMachine};
use std::alloc::{AllocError, Global};
use structure_check::Checked;

/// The chart of a class, if it has one, behind the service names of the classes before it.
fn chart_of(
    alloc: Global,
    machine: Option<&StateMachine>,
    scope: &Scope,
    names: &mut ServiceNames,
) -> Result<Option<Chart>, ReadFault>
    ensures { ReadsClass scope.now names.old names.new
        (option_map (λ s. graph_view s.now.items.items) machine.entry) result }
{
    let Some(machine) = machine else {
        return Ok(None);
    };
    match read_chart(alloc, machine, scope, names) {
        Ok(chart) => Ok(Some(chart)),
        Err(fault) => Err(fault),
    }
}

/// Adds the chart of a class, if it has one.
fn add(charts: &mut Vec<Option<Chart>>, chart: Option<Chart>) -> Result<(), AllocError>
    ensures { OnOk result (charts.new.items ≡ charts.old.items ++ chart ∷ []) }
{
    charts.push(chart)?;
    Ok(())
}

/// What is told of a fault of the chart of the actor class of a number.
fn told(alloc: Global, checked: &Checked, class: u16, fault: ChartFault) -> ChartsFault
    requires range { class < length (actors (model_view checked.now.model.now)) }
    requires classes { HasClasses checked.now }
    ensures { TellsClass (model_view checked.now.model.now) class fault result }
{
    match checked.classes[class as usize].name.copy(alloc) {
        Ok(class) => ChartsFault::Chart { class, fault },
        Err(_) => ChartsFault::Memory,
    }
}

/// The charts of the actor classes of a model that keeps all rules, in order of declaration: none for
/// a class without a state machine. Else the first class whose chart has a fault, with the lowest
/// fault that it has. Service names are numbered through all classes. It takes time in proportion to
/// the charts' texts, to how deep they nest, and to the ports of the class for each event.
pub fn charts_of(alloc: Global, checked: &Checked) -> Result<Vec<Option<Chart>>, ChartsFault>
    requires rules { first_broken all_rules (model_view checked.now.model.now) ≡ None }
    requires classes { HasClasses checked.now }
    ensures reads { ReadsCharts (model_view checked.now.model.now) result }
    ensures valid { IfOk result (λ v. AreValid (map (option_map chart_view) v.items)) }
{
    let mut names = ServiceNames::new(alloc);
    let mut charts = Vec::new(alloc);
    for scope in &checked.scopes {
        let class = charts.len() as u16;
        match chart_of(alloc, checked.chart(class), scope, &mut names) {
            Ok(chart) => add(&mut charts, chart)?,
            Err(ReadFault::Chart(fault)) => return Err(told(alloc, checked, class, fault)),
            Err(ReadFault::Memory) => return Err(ChartsFault::Memory),
        }
    }
    Ok(charts)
}
