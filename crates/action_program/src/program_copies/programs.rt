//! Copies of programs.
ghost use Rattle.std.specs.Prelude.{◌≡◌, map, IfOk};
ghost use Rattle.action_program.specs.Numbered.{argument_view, assign_view, branch_view, frame_view, if_view, import_view, program_view, send_view, stmt_view};

use crate::program_copies::expressions::{copy_expr, copy_guard};
use crate::{
    Argument, Bound, BoundAssign, BoundBranch, BoundFrame, BoundIf, BoundImport, BoundRepeat,
    BoundSend, BoundStmt,
};
use std::alloc::{AllocError, Global};

fn copy_arguments(alloc: Global, arguments: &[Argument]) -> Result<Vec<Argument>, AllocError>
    ensures { IfOk result (λ copies. map argument_view copies.items ≡ map argument_view arguments.now) }
{
    let mut copies = Vec::with_capacity(alloc, arguments.len())?;
    for argument in arguments {
        let value = copy_expr(alloc, &argument.value)?;
        copies.push(Argument {
            kind: argument.kind,
            value,
        })?;
    }
    Ok(copies)
}

fn copy_send(alloc: Global, s: &BoundSend) -> Result<BoundSend, AllocError>
    ensures { IfOk result (λ copy. send_view copy ≡ send_view s.now) }
{
    let place = copy_guard(alloc, &s.place)?;
    let arguments = copy_arguments(alloc, &s.arguments)?;
    Ok(BoundSend {
        port: s.port,
        place,
        signal: s.signal,
        arguments,
        prio: s.prio,
    })
}

fn copy_assign(alloc: Global, s: &BoundAssign) -> Result<BoundStmt, AllocError>
    ensures { IfOk result (λ copy. stmt_view copy ≡ assign_view s.now) }
{
    let value = copy_expr(alloc, &s.value)?;
    let copy = BoundAssign {
        attribute: s.attribute,
        kind: s.kind,
        value,
    };
    Ok(BoundStmt::Assign(Box::new(alloc, copy)?))
}

fn copy_frame(alloc: Global, s: &BoundFrame) -> Result<BoundStmt, AllocError>
    ensures { IfOk result (λ copy. stmt_view copy ≡ frame_view s.now) }
{
    let index = copy_expr(alloc, &s.index)?;
    let copy = BoundFrame {
        verb: s.verb,
        reference: s.reference,
        index,
    };
    Ok(BoundStmt::Frame(Box::new(alloc, copy)?))
}

fn copy_import(alloc: Global, s: &BoundImport) -> Result<BoundStmt, AllocError>
    ensures { IfOk result (λ copy. stmt_view copy ≡ import_view s.now) }
{
    let index = copy_expr(alloc, &s.index)?;
    let id = copy_expr(alloc, &s.id)?;
    let copy = BoundImport {
        reference: s.reference,
        index,
        id,
    };
    Ok(BoundStmt::Import(Box::new(alloc, copy)?))
}

#[cycle(copying)]
fn copy_statement(alloc: Global, s: &BoundStmt) -> Result<BoundStmt, AllocError>
    ensures { IfOk result (λ copy. stmt_view copy ≡ stmt_view s.now) }
{
    match s {
        BoundStmt::Empty => Ok(BoundStmt::Empty),
        BoundStmt::Assign(s) => copy_assign(alloc, s),
        BoundStmt::If(choice) => {
            let copy = copy_choice(alloc, choice)?;
            Ok(BoundStmt::If(Box::new(alloc, copy)?))
        }
        BoundStmt::Repeat(s) => {
            let body = copy_statements(alloc, &s.body)?;
            let times = s.times;
            let copy = Box::new(alloc, BoundRepeat { times, body })?;
            Ok(BoundStmt::Repeat(copy))
        }
        BoundStmt::Send(s) => {
            let copy = copy_send(alloc, s)?;
            Ok(BoundStmt::Send(Box::new(alloc, copy)?))
        }
        BoundStmt::Defer => Ok(BoundStmt::Defer),
        BoundStmt::Recall => Ok(BoundStmt::Recall),
        BoundStmt::RecallAll => Ok(BoundStmt::RecallAll),
        BoundStmt::Frame(s) => copy_frame(alloc, s),
        BoundStmt::Import(s) => copy_import(alloc, s),
        BoundStmt::Register { port, name } => Ok(BoundStmt::Register {
            port: *port,
            name: *name,
        }),
        BoundStmt::Withdraw { port } => Ok(BoundStmt::Withdraw { port: *port }),
    }
}

#[cycle(copying)]
fn copy_choice(alloc: Global, choice: &BoundIf) -> Result<BoundIf, AllocError>
    ensures { IfOk result (λ copy. if_view copy ≡ if_view choice.now) }
{
    let branches = copy_branches(alloc, &choice.branches)?;
    let otherwise = copy_statements(alloc, &choice.otherwise)?;
    Ok(BoundIf {
        branches,
        otherwise,
    })
}

#[cycle(copying)]
fn copy_branches(alloc: Global, branches: &Vec<BoundBranch>) -> Result<Vec<BoundBranch>, AllocError>
    ensures { IfOk result (λ copies. map branch_view copies.items ≡ map branch_view branches.now.items) }
{
    let mut copies = Vec::with_capacity(alloc, branches.len())?;
    for branch in branches {
        let condition = copy_expr(alloc, &branch.condition)?;
        let body = copy_statements(alloc, &branch.body)?;
        copies.push(BoundBranch { condition, body })?;
    }
    Ok(copies)
}

#[cycle(copying)]
fn copy_statements(alloc: Global, statements: &Vec<BoundStmt>) -> Result<Vec<BoundStmt>, AllocError>
    ensures { IfOk result (λ copies. map stmt_view copies.items ≡ map stmt_view statements.now.items) }
{
    let mut copies = Vec::with_capacity(alloc, statements.len())?;
    for s in statements {
        let copy = copy_statement(alloc, s)?;
        copies.push(copy)?;
    }
    Ok(copies)
}

/// A copy of a program. It goes as deep as the program nests.
pub fn copy_program(alloc: Global, program: &Bound) -> Result<Bound, AllocError>
    ensures { IfOk result (λ copy. program_view copy ≡ program_view program.now) }
{
    let statements = copy_statements(alloc, &program.statements)?;
    Ok(Bound { statements })
}
