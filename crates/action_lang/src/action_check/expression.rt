//! The check of expressions.
ghost use Rattle.std.specs.Prelude.{◌≡◌, map, option_map};
ghost use Rattle.action_program.specs.Named as named;
ghost use Rattle.action_program.specs.Numbered as numbered;
ghost use Rattle.action_lang.specs.action_check.Faults.{expr_fault, steps_fault, index_fault};
ghost use Rattle.action_lang.specs.action_check.Numbering.{numbered_expr, numbered_steps, numbered_index};
ghost use Rattle.action_lang.specs.action_check.Answers.{Answers};

use action_program::{ActionFault, BoundChain, BoundExpr, BoundStep, BoundUnary, Expr, Step};
use room_ast::{Name, Scope};
use std::alloc::Global;
use std::slice;

fn attribute(path: &[Name], scope: &Scope) -> Result<BoundExpr, ActionFault>
    ensures { Answers numbered.expr_view result (expr_fault scope.now (named.an_attribute path.now))
        (numbered_expr scope.now (named.an_attribute path.now)) }
{
    match scope.attribute(path) {
        Some((number, _)) => Ok(BoundExpr::Attribute(number)),
        None => Err(ActionFault::UnknownName),
    }
}

/// An expression with numbers in place of names.
#[cycle(expression)]
pub fn expression(alloc: Global, e: &Expr, scope: &Scope) -> Result<BoundExpr, ActionFault>
    ensures { Answers numbered.expr_view result (expr_fault scope.now (named.expr_view e.now))
        (numbered_expr scope.now (named.expr_view e.now)) }
{
    match e {
        Expr::Number(n) => Ok(BoundExpr::Number(n.cast_signed())),
        Expr::True => Ok(BoundExpr::Number(1)),
        Expr::False => Ok(BoundExpr::Number(0)),
        Expr::Data(None) => Ok(BoundExpr::Data(0)),
        Expr::Data(Some(k)) => Ok(BoundExpr::Data(*k)),
        Expr::Place => Ok(BoundExpr::Place),
        Expr::Me => Ok(BoundExpr::Me),
        Expr::Attribute(name) => attribute(slice::from_ref(name), scope),
        Expr::Within(parts) => attribute(parts.as_slice(), scope),
        Expr::Paren(inner) => expression(alloc, inner, scope),
        Expr::Unary(unary) => {
            let operand = expression(alloc, &unary.operand, scope)?;
            let op = unary.op;
            let numbered = Box::new(alloc, BoundUnary { op, operand })?;
            Ok(BoundExpr::Unary(numbered))
        }
        Expr::Chain(chain) => {
            let first = expression(alloc, &chain.first, scope)?;
            let steps = steps(alloc, &chain.steps, scope)?;
            let numbered = Box::new(alloc, BoundChain { first, steps })?;
            Ok(BoundExpr::Chain(numbered))
        }
    }
}

#[cycle(expression)]
fn steps(alloc: Global, steps: &Vec<Step>, scope: &Scope) -> Result<Vec<BoundStep>, ActionFault>
    ensures { Answers (λ v. numbered.steps_of (map numbered.step_view v.items)) result
        (steps_fault scope.now (named.steps_of (map named.step_view steps.now.items)))
        (numbered_steps scope.now (named.steps_of (map named.step_view steps.now.items))) }
{
    let mut found = Vec::with_capacity(alloc, steps.len())?;
    for step in steps {
        let operand = expression(alloc, &step.operand, scope)?;
        found.push(BoundStep {
            op: step.op,
            operand,
        })?;
    }
    Ok(found)
}

/// An expression that may be missing; then it is 0.
pub fn index(alloc: Global, e: &Option<Expr>, scope: &Scope) -> Result<BoundExpr, ActionFault>
    ensures { Answers numbered.expr_view result
        (index_fault scope.now (option_map named.expr_view e.now))
        (numbered_index scope.now (option_map named.expr_view e.now)) }
{
    match e {
        None => Ok(BoundExpr::Number(0)),
        Some(e) => expression(alloc, e, scope),
    }
}
