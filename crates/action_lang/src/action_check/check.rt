//! Programs and conditions against a class.
ghost use Rattle.std.specs.Prelude.{◌≡◌, OnOk, map};
ghost use Rattle.action_program.specs.Named as named;
ghost use Rattle.action_program.specs.Numbered as numbered;
ghost use Rattle.action_lang.specs.action_check.Faults.{expr_fault, stmts_fault};
ghost use Rattle.action_lang.specs.action_check.Numbering.{stmts_names, numbered_expr, numbered_stmts};
ghost use Rattle.action_lang.specs.action_check.Answers.{Answers, Grows};

use crate::action_check::expression::expression;
use crate::action_check::names::ServiceNames;
use crate::action_check::statement::statements;
use action_program::{ActionFault, Bound, BoundExpr, Expr, Program};
use room_ast::Scope;
use std::alloc::Global;

/// The program with numbers in place of names, and with the types of what is assigned and sent;
/// else the first fault of its text. Service names that it names first are added to `names`, after
/// a refusal perhaps some of them.
pub fn check_action(
    alloc: Global,
    program: &Program,
    scope: &Scope,
    names: &mut ServiceNames,
) -> Result<Bound, ActionFault>
    ensures answer { Answers numbered.program_view result
        (stmts_fault scope.now (named.program_view program.now))
        (numbered_stmts scope.now names.old (named.program_view program.now)) }
    ensures names { OnOk result (names.new
        ≡ stmts_names (named.program_view program.now) names.old) }
    ensures grown { Grows names.old names.new }
{
    let statements = statements(alloc, &program.statements, scope, names)?;
    Ok(Bound { statements })
}

/// The condition with numbers in place of names; else the first fault of its text.
pub fn check_cond(alloc: Global, cond: &Expr, scope: &Scope) -> Result<BoundExpr, ActionFault>
    ensures { Answers numbered.expr_view result (expr_fault scope.now (named.expr_view cond.now))
        (numbered_expr scope.now (named.expr_view cond.now)) }
{
    expression(alloc, cond, scope)
}
