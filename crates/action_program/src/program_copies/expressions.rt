//! Copies of expressions.
ghost use Rattle.std.specs.Prelude.{◌≡◌, map, option_map, IfOk};
ghost use Rattle.action_program.specs.Numbered.{expr_view, step_view};

use crate::{BoundChain, BoundExpr, BoundStep, BoundUnary};
use std::alloc::{AllocError, Global};

/// A copy of an expression. It goes as deep as the expression nests, and a chain of operators of one
/// level does not nest.
#[cycle(copying_expression)]
pub fn copy_expr(alloc: Global, e: &BoundExpr) -> Result<BoundExpr, AllocError>
    ensures { IfOk result (λ copy. expr_view copy ≡ expr_view e.now) }
{
    match e {
        BoundExpr::Number(n) => Ok(BoundExpr::Number(*n)),
        BoundExpr::Data(k) => Ok(BoundExpr::Data(*k)),
        BoundExpr::Place => Ok(BoundExpr::Place),
        BoundExpr::Me => Ok(BoundExpr::Me),
        BoundExpr::Attribute(k) => Ok(BoundExpr::Attribute(*k)),
        BoundExpr::Unary(unary) => {
            let operand = copy_expr(alloc, &unary.operand)?;
            let op = unary.op;
            let copy = Box::new(alloc, BoundUnary { op, operand })?;
            Ok(BoundExpr::Unary(copy))
        }
        BoundExpr::Chain(chain) => {
            let first = copy_expr(alloc, &chain.first)?;
            let steps = copy_steps(alloc, &chain.steps)?;
            let copy = Box::new(alloc, BoundChain { first, steps })?;
            Ok(BoundExpr::Chain(copy))
        }
    }
}

#[cycle(copying_expression)]
fn copy_steps(alloc: Global, steps: &Vec<BoundStep>) -> Result<Vec<BoundStep>, AllocError>
    ensures { IfOk result (λ copies. map step_view copies.items ≡ map step_view steps.now.items) }
{
    let mut copies = Vec::with_capacity(alloc, steps.len())?;
    for step in steps {
        let operand = copy_expr(alloc, &step.operand)?;
        copies.push(BoundStep {
            op: step.op,
            operand,
        })?;
    }
    Ok(copies)
}

/// A copy of an expression that may be missing.
pub fn copy_guard(alloc: Global, e: &Option<BoundExpr>) -> Result<Option<BoundExpr>, AllocError>
    ensures { IfOk result (λ copy. option_map expr_view copy ≡ option_map expr_view e.now) }
{
    match e {
        None => Ok(None),
        Some(e) => Ok(Some(copy_expr(alloc, e)?)),
    }
}
