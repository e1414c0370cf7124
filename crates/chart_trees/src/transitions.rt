//! Transitions.
ghost use Rattle.std.specs.Prelude.{◌≡◌, IfOk, OnOk};
ghost use Rattle.action_lang.specs.action_check.Answers.{Grows};
ghost use Rattle.chart_trees.specs.chart_graphs.Views.{transition_view};
ghost use Rattle.chart_trees.specs.chart_codes.Progress.{progress};
ghost use Rattle.chart_trees.specs.Reading.{after_transition, transition_of};
ghost use Rattle.chart_trees.specs.Views.{around_view};

use crate::around::Around;
use crate::chart_codes::{Marks, action, guard, no_action, triggers};
use crate::chart_graphs::Transition;
use crate::terminals::{source, target};
use action_lang::action_check::ServiceNames;
use room_ast::Scope;
use std::alloc::{AllocError, Global};

/// A transition among these names. Its guards and its condition are read before its action.
pub(crate) fn transition(
    alloc: Global,
    written: &room_ast::Transition,
    around: &Around,
    scope: &Scope,
    names: &mut ServiceNames,
    marks: &mut Marks,
) -> Result<Transition, AllocError>
    ensures transition { IfOk result (λ t.
        transition_view t ≡ transition_of scope.now (around_view around.now)
        (progress marks.old names.old) written.now) }
    ensures met { OnOk result (progress marks.new names.new
        ≡ after_transition scope.now (progress marks.old names.old) written.now.body) }
    ensures grown { Grows names.old names.new }
{
    let source = source(alloc, &written.source, around)?;
    let target = target(alloc, &written.target, around)?;
    let Some(body) = &written.body else {
        return Ok(Transition {
            source,
            target,
            triggers: Vec::new(alloc),
            condition: None,
            action: no_action(alloc),
        });
    };
    let triggers = triggers(alloc, &body.triggers, scope, marks)?;
    let condition = guard(alloc, &body.condition, scope, marks)?;
    let action = action(alloc, &body.action, scope, names, marks)?;
    Ok(Transition {
        source,
        target,
        triggers,
        condition,
        action,
    })
}
