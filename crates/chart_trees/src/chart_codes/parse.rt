//! Programs and conditions of codes.
ghost use Rattle.std.specs.Prelude.{◌≡◌, ◌≢◌, option_map, IfOk, OnOk};
ghost use Rattle.action_program.specs.Named as named;
ghost use Rattle.action_program.specs.Numbered as numbered;
ghost use Rattle.chart_trees.specs.chart_codes.Codes.{program_of, condition_of, bound_condition, condition_in};

use crate::chart_codes::text::code_bytes;
use action_lang::action_check::check_cond;
use action_parse::{parse_action, parse_cond};
use action_program::{ActionFault, BoundExpr, Expr, Program};
use room_ast::{Code, Scope};
use std::alloc::{AllocError, Global};

/// Goes on with a fault that isn't want of memory.
fn not_memory(fault: ActionFault) -> Result<(), AllocError>
    ensures { OnOk result (fault ≢ ActionFault.Memory) }
{
    match fault {
        ActionFault::Memory => Err(AllocError),
        ActionFault::Syntax
        | ActionFault::UnknownName
        | ActionFault::WrongPort
        | ActionFault::WrongArgs
        | ActionFault::NestTooDeep => Ok(()),
    }
}

/// The program of a text, if it has one within the limits of the language.
#[tactic(auto, using(crate::proofs::chart_codes::Read::some_program, crate::proofs::chart_codes::Read::no_program))]
pub(crate) fn program(alloc: Global, bytes: &[u8]) -> Result<Option<Program>, AllocError>
    ensures { IfOk result (λ p. option_map named.program_view p ≡ program_of bytes.now) }
{
    match parse_action(alloc, bytes) {
        Ok(program) => Ok(Some(program)),
        Err(fault) => {
            not_memory(fault)?;
            Ok(None)
        }
    }
}

/// The condition of a text, if it has one within the limits of the language.
#[tactic(auto, using(crate::proofs::chart_codes::Read::some_condition, crate::proofs::chart_codes::Read::no_condition))]
fn expression(alloc: Global, bytes: &[u8]) -> Result<Option<Expr>, AllocError>
    ensures { IfOk result (λ e. option_map named.expr_view e ≡ condition_of bytes.now) }
{
    match parse_cond(alloc, bytes) {
        Ok(condition) => Ok(Some(condition)),
        Err(fault) => {
            not_memory(fault)?;
            Ok(None)
        }
    }
}

fn checked(alloc: Global, condition: &Expr, scope: &Scope) -> Result<Option<BoundExpr>, AllocError>
    ensures { IfOk result (λ e.
        option_map numbered.expr_view e
        ≡ bound_condition scope.now (named.expr_view condition.now)) }
{
    match check_cond(alloc, condition, scope) {
        Ok(condition) => Ok(Some(condition)),
        Err(ActionFault::Memory) => Err(AllocError),
        Err(_) => Ok(None),
    }
}

/// The condition of a code, bound to the class; none where it isn't a condition, or names what the
/// class doesn't have.
pub fn condition(alloc: Global, code: &Code, scope: &Scope) -> Result<Option<BoundExpr>, AllocError>
    ensures { IfOk result (λ e. option_map numbered.expr_view e ≡ condition_in scope.now code.now) }
{
    let bytes = code_bytes(alloc, code)?;
    match expression(alloc, bytes.as_slice())? {
        Some(condition) => checked(alloc, &condition, scope),
        None => Ok(None),
    }
}
