//! The check of sends.
ghost use Rattle.std.specs.Prelude.{◌≡◌, map, option_map, length};
ghost use Rattle.action_program.specs.Named as named;
ghost use Rattle.action_program.specs.Numbered as numbered;
ghost use Rattle.action_lang.specs.action_check.Faults.{can_send, index_fault, exprs_fault, send_fault};
ghost use Rattle.action_lang.specs.action_check.Numbering.{numbered_expr, numbered_arguments, numbered_send};
ghost use Rattle.action_lang.specs.action_check.Answers.{Answers};

use crate::action_check::expression::expression;
use action_program::{ActionFault, Argument, BoundExpr, BoundSend, Expr, SendStmt};
use room_ast::Scope;
use room_kinds::{NumberType, PortKind, Priority};
use std::alloc::Global;

/// The priority of a send that names none.
const GENERAL: Priority = Priority(3);

fn can_send(kind: PortKind) -> bool
    ensures { result ≡ can_send kind }
{
    match kind {
        PortKind::Frame | PortKind::Relay => false,
        PortKind::End | PortKind::Internal | PortKind::Sap | PortKind::Spp => true,
    }
}

/// The place of a send, if there is one.
fn place(alloc: Global, e: &Option<Expr>, scope: &Scope) -> Result<Option<BoundExpr>, ActionFault>
    ensures { Answers (option_map numbered.expr_view) result
        (index_fault scope.now (option_map named.expr_view e.now))
        (option_map (numbered_expr scope.now) (option_map named.expr_view e.now)) }
{
    match e {
        None => Ok(None),
        Some(e) => Ok(Some(expression(alloc, e, scope)?)),
    }
}

/// Arguments with the types of a message's numbers, of which there are as many.
fn arguments(
    alloc: Global,
    kinds: &[NumberType],
    arguments: &[Expr],
    scope: &Scope,
) -> Result<Vec<Argument>, ActionFault>
    requires { length arguments.now ≡ length kinds.now }
    ensures { Answers (λ v. map numbered.argument_view v.items) result
        (exprs_fault scope.now (map named.expr_view arguments.now))
        (numbered_arguments scope.now kinds.now (map named.expr_view arguments.now)) }
{
    let mut found = Vec::with_capacity(alloc, arguments.len())?;
    for (i, argument) in arguments.iter().enumerate() {
        let value = expression(alloc, argument, scope)?;
        found.push(Argument {
            kind: kinds[i],
            value,
        })?;
    }
    Ok(found)
}

/// A send with numbers in place of names.
pub fn send(alloc: Global, s: &SendStmt, scope: &Scope) -> Result<BoundSend, ActionFault>
    ensures { Answers numbered.send_view result (send_fault scope.now (named.send_view s.now))
        (numbered_send scope.now (named.send_view s.now)) }
{
    let Some((port, known)) = scope.port(s.port.as_bytes()) else {
        return Err(ActionFault::UnknownName);
    };
    if !can_send(known.kind) {
        return Err(ActionFault::WrongPort);
    }
    let place = place(alloc, &s.place, scope)?;
    let Some((signal, message)) = known.sent(s.signal.as_bytes()) else {
        return Err(ActionFault::WrongPort);
    };
    if s.arguments.len() != message.numbers.len() {
        return Err(ActionFault::WrongArgs);
    }
    let arguments = arguments(
        alloc,
        message.numbers.as_slice(),
        s.arguments.as_slice(),
        scope,
    )?;
    let prio = match s.prio {
        None => GENERAL,
        Some(prio) => prio,
    };
    Ok(BoundSend {
        port,
        place,
        signal,
        arguments,
        prio,
    })
}
