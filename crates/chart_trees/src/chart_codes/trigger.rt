//! Triggers, guards and conditions.
ghost use Rattle.std.specs.Prelude.{◌≡◌, ◌∷◌, ◌&&◌, option_map, map, IfOk, OnOk};
ghost use Rattle.action_program.specs.Numbered as numbered;
ghost use Rattle.chart_run.specs.chart_tables.Tables.{trigger_view};
ghost use Rattle.chart_trees.specs.chart_codes.Codes.{guard_of};
ghost use Rattle.chart_trees.specs.chart_codes.Events.{trigger_of, triggers_of, trigger_list, events_fit, guards_fit};
ghost use Rattle.chart_trees.specs.chart_codes.Progress.{marks_after_guard, marks_after_trigger};

use crate::chart_codes::event::events;
use crate::chart_codes::marks::Marks;
use crate::chart_codes::parse::condition;
use action_program::BoundExpr;
use chart_run::Trigger;
use room_ast::{Code, Scope, Triggers};
use std::alloc::{AllocError, Global};

/// A guard or a condition that may be missing; 0, and a mark, in place of one that isn't the
/// class's.
pub fn guard(
    alloc: Global,
    code: &Option<Code>,
    scope: &Scope,
    marks: &mut Marks,
) -> Result<Option<BoundExpr>, AllocError>
    ensures guard { IfOk result (λ g.
        option_map numbered.expr_view g ≡ guard_of scope.now code.now) }
    ensures marks { OnOk result (marks.new ≡ marks_after_guard scope.now marks.old code.now) }
{
    let Some(code) = code else {
        return Ok(None);
    };
    match condition(alloc, code, scope)? {
        Some(condition) => Ok(Some(condition)),
        None => {
            marks.codes_fit = false;
            Ok(Some(BoundExpr::Number(0)))
        }
    }
}

fn trigger(
    alloc: Global,
    trigger: &room_ast::Trigger,
    scope: &Scope,
    marks: &mut Marks,
) -> Result<Trigger, AllocError>
    ensures trigger { IfOk result (λ t. trigger_view t ≡ trigger_of scope.now trigger.now) }
    ensures marks { OnOk result (marks.new ≡ marks_after_trigger scope.now marks.old trigger.now) }
{
    let events = events(alloc, trigger, scope, marks)?;
    let guard = guard(alloc, &trigger.guard, scope, marks)?;
    Ok(Trigger { events, guard })
}

fn all_triggers(
    alloc: Global,
    written: &Triggers,
    scope: &Scope,
    marks: &mut Marks,
) -> Result<Vec<Trigger>, AllocError>
    ensures triggers { IfOk result (λ v.
        map trigger_view v.items
        ≡ map (trigger_of scope.now) (written.now.first ∷ written.now.others)) }
    ensures events { OnOk result (marks.new.events_fit
        ≡ (marks.old.events_fit && events_fit scope.now (written.now.first ∷ written.now.others))) }
    ensures codes { OnOk result (marks.new.codes_fit
        ≡ (marks.old.codes_fit && guards_fit scope.now (written.now.first ∷ written.now.others))) }
{
    let mut found = Vec::new(alloc);
    found.push(trigger(alloc, &written.first, scope, marks)?)?;
    for other in written.others.as_slice() {
        found.push(trigger(alloc, other, scope, marks)?)?;
    }
    Ok(found)
}

/// Triggers that may be missing; what isn't the class's is marked.
#[tactic(auto, using(crate::proofs::chart_codes::Lists::still))]
pub fn triggers(
    alloc: Global,
    written: &Option<Triggers>,
    scope: &Scope,
    marks: &mut Marks,
) -> Result<Vec<Trigger>, AllocError>
    ensures triggers { IfOk result (λ v.
        map trigger_view v.items ≡ triggers_of scope.now written.now) }
    ensures events { OnOk result (marks.new.events_fit
        ≡ (marks.old.events_fit && events_fit scope.now (trigger_list written.now))) }
    ensures codes { OnOk result (marks.new.codes_fit
        ≡ (marks.old.codes_fit && guards_fit scope.now (trigger_list written.now))) }
{
    match written {
        Some(written) => all_triggers(alloc, written, scope, marks),
        None => Ok(Vec::new(alloc)),
    }
}
