//! Transitions of the tables.
ghost use Rattle.std.specs.Prelude.{◌≡◌, map, slice_get, IfOk, OnOk};
ghost use Rattle.chart_model.specs.chart_plan.Same.{Each};
ghost use Rattle.chart_run.specs.chart_tables.Tables.{arrow_view, arrow_views, trigger_view};
ghost use Rattle.chart_reader.specs.chart_nodes.Steps.{step_view};
ghost use Rattle.chart_compile.specs.chart_places.Groups.{picked};
ghost use Rattle.chart_compile.specs.chart_parts.Parts.{AddsArrow, HasNumber, IsArrow, LeadTo, target_of};

use crate::chart_rows::lookup::{number, step_at};
use action_program::{copy_guard, copy_program};
use chart_reader::{Step, target_key};
use chart_run::{Arrow, Trigger};
use name_tables::NameIndex;
use std::alloc::{AllocError, Global};

fn copy_triggers(alloc: Global, triggers: &[Trigger]) -> Result<Vec<Trigger>, AllocError>
    ensures { IfOk result (λ copies.
        map trigger_view copies.items ≡ map trigger_view triggers.now) }
{
    let mut copies = Vec::new(alloc);
    for trigger in triggers {
        let events = Vec::from_slice(alloc, trigger.events.as_slice())?;
        let guard = copy_guard(alloc, &trigger.guard)?;
        copies.push(Trigger { events, guard })?;
    }
    Ok(copies)
}

/// The arrow of a step, whose node has a number.
pub fn make_arrow<'b, 'c>(
    alloc: Global,
    nodes: &NameIndex<'c>,
    step: &Step<'b>,
) -> Result<Arrow, AllocError>
    requires { HasNumber nodes.now (target_of (step_view step.now)) }
    ensures { IfOk result (λ arrow. IsArrow nodes.now (arrow_view arrow) (step_view step.now)) }
{
    let transition = step.transition;
    let key = target_key(alloc, step.graph.owner.as_slice(), &transition.target)?;
    let target = number(nodes, key.as_slice());
    let triggers = copy_triggers(alloc, &transition.triggers)?;
    let condition = copy_guard(alloc, &transition.condition)?;
    let action = copy_program(alloc, &transition.action)?;
    Ok(Arrow {
        triggers,
        condition,
        action,
        target,
    })
}

/// Adds the arrow of the step with a number, if there is such a step.
fn add_arrow<'b, 'c>(
    alloc: Global,
    nodes: &NameIndex<'c>,
    steps: &[Step<'b>],
    number: usize,
    arrows: &mut Vec<Arrow>,
) -> Result<(), AllocError>
    requires { LeadTo nodes.now (map step_view steps.now) }
    ensures { OnOk result (AddsArrow nodes.now (slice_get (map step_view steps.now) number)
        arrows.old.items arrows.new.items) }
{
    let Some(step) = step_at(steps, number) else {
        return Ok(());
    };
    let arrow = make_arrow(alloc, nodes, step)?;
    arrows.push(arrow)?;
    Ok(())
}

/// The arrows of the steps with some numbers, in their order.
pub fn arrows_of<'b, 'c>(
    alloc: Global,
    nodes: &NameIndex<'c>,
    steps: &[Step<'b>],
    group: &[usize],
) -> Result<Vec<Arrow>, AllocError>
    requires { LeadTo nodes.now (map step_view steps.now) }
    ensures { IfOk result (λ arrows.
        Each (IsArrow nodes.now) (arrow_views arrows.items)
        (picked (map step_view steps.now) group.now)) }
{
    let mut arrows = Vec::new(alloc);
    for number in group {
        add_arrow(alloc, nodes, steps, *number, &mut arrows)?;
    }
    Ok(arrows)
}
