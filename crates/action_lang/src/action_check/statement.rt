//! The check of statements.
ghost use Rattle.std.specs.Prelude.{◌≡◌, IfOk, OnOk, [], map};
ghost use Rattle.action_program.specs.Named as named;
ghost use Rattle.action_program.specs.Numbered as numbered;
ghost use Rattle.action_lang.specs.action_check.Faults.{takes_names, takes_verb, takes_import, naming_fault, reference_fault, stmt_fault, stmts_fault, branches_fault};
ghost use Rattle.action_lang.specs.action_check.Numbering.{number, stmt_names, stmts_names, branches_names, numbered_stmt, numbered_stmts, numbered_branches};
ghost use Rattle.action_lang.specs.action_check.Answers.{Answers, Grows};
ghost use Rattle.action_lang.specs.action_check.ServiceNames.{with_name};
ghost use Rattle.room_ast.specs.Found.{found_port, found_reference};

use crate::action_check::expression::{expression, index};
use crate::action_check::names::ServiceNames;
use crate::action_check::send::send;
use action_program::{
    ActionFault, AssignStmt, BoundAssign, BoundBranch, BoundFrame, BoundIf, BoundImport,
    BoundRepeat, BoundStmt, Branch, FrameStmt, FrameVerb, IfStmt, ImportStmt, Stmt,
};
use room_ast::{Name, Scope};
use room_kinds::{PortKind, ReferenceKind};
use std::alloc::{AllocError, Global};

fn takes_names(kind: PortKind) -> bool
    ensures { result ≡ takes_names kind }
{
    match kind {
        PortKind::Sap | PortKind::Spp => true,
        PortKind::Frame | PortKind::Relay | PortKind::End | PortKind::Internal => false,
    }
}

fn takes_verb(verb: FrameVerb, kind: ReferenceKind) -> bool
    ensures { result ≡ takes_verb verb kind }
{
    match (verb, kind) {
        (FrameVerb::Incarnate | FrameVerb::Destroy, ReferenceKind::Optional) => true,
        (FrameVerb::Deport, ReferenceKind::Imported) => true,
        _ => false,
    }
}

fn takes_import(kind: ReferenceKind) -> bool
    ensures { result ≡ takes_import kind }
{
    match kind {
        ReferenceKind::Imported => true,
        ReferenceKind::Fixed | ReferenceKind::Optional => false,
    }
}

/// The number of an access point or a provision point.
fn named_port(port: &Name, scope: &Scope) -> Result<u16, ActionFault>
    ensures { Answers (λ k. k) result (naming_fault (found_port scope.now port.now))
        (number (found_port scope.now port.now)) }
{
    let Some((number, port)) = scope.port(port.as_bytes()) else {
        return Err(ActionFault::UnknownName);
    };
    if takes_names(port.kind) {
        Ok(number)
    } else {
        Err(ActionFault::WrongPort)
    }
}

/// The number of a reference of the kind that the verb needs.
fn framed(verb: FrameVerb, reference: &Name, scope: &Scope) -> Result<u16, ActionFault>
    ensures { Answers (λ k. k) result
        (reference_fault (takes_verb verb) (found_reference scope.now reference.now))
        (number (found_reference scope.now reference.now)) }
{
    let Some((number, reference)) = scope.reference(reference.as_bytes()) else {
        return Err(ActionFault::UnknownName);
    };
    if takes_verb(verb, reference.kind) {
        Ok(number)
    } else {
        Err(ActionFault::UnknownName)
    }
}

/// The number of an imported reference.
fn imported(reference: &Name, scope: &Scope) -> Result<u16, ActionFault>
    ensures { Answers (λ k. k) result
        (reference_fault takes_import (found_reference scope.now reference.now))
        (number (found_reference scope.now reference.now)) }
{
    let Some((number, reference)) = scope.reference(reference.as_bytes()) else {
        return Err(ActionFault::UnknownName);
    };
    if takes_import(reference.kind) {
        Ok(number)
    } else {
        Err(ActionFault::UnknownName)
    }
}

fn assign(alloc: Global, s: &AssignStmt, scope: &Scope) -> Result<BoundStmt, ActionFault>
    ensures { Answers numbered.stmt_view result (stmt_fault scope.now (named.assign_view s.now))
        (numbered_stmt scope.now [] (named.assign_view s.now)) }
{
    let Some((attribute, known)) = scope.attribute(s.attribute.parts()) else {
        return Err(ActionFault::UnknownName);
    };
    let value = expression(alloc, &s.value, scope)?;
    let numbered = BoundAssign {
        attribute,
        kind: known.kind,
        value,
    };
    Ok(BoundStmt::Assign(Box::new(alloc, numbered)?))
}

fn frame(alloc: Global, s: &FrameStmt, scope: &Scope) -> Result<BoundStmt, ActionFault>
    ensures { Answers numbered.stmt_view result (stmt_fault scope.now (named.frame_view s.now))
        (numbered_stmt scope.now [] (named.frame_view s.now)) }
{
    let reference = framed(s.verb, &s.reference, scope)?;
    let index = self::index(alloc, &s.index, scope)?;
    let numbered = BoundFrame {
        verb: s.verb,
        reference,
        index,
    };
    Ok(BoundStmt::Frame(Box::new(alloc, numbered)?))
}

fn import(alloc: Global, s: &ImportStmt, scope: &Scope) -> Result<BoundStmt, ActionFault>
    ensures { Answers numbered.stmt_view result (stmt_fault scope.now (named.import_view s.now))
        (numbered_stmt scope.now [] (named.import_view s.now)) }
{
    let reference = imported(&s.reference, scope)?;
    let index = self::index(alloc, &s.index, scope)?;
    let id = expression(alloc, &s.id, scope)?;
    let numbered = BoundImport {
        reference,
        index,
        id,
    };
    Ok(BoundStmt::Import(Box::new(alloc, numbered)?))
}

fn register(
    alloc: Global,
    port: &Name,
    name: &Name,
    scope: &Scope,
    names: &mut ServiceNames,
) -> Result<BoundStmt, ActionFault>
    ensures answer { Answers numbered.stmt_view result
        (stmt_fault scope.now (named.register port.now name.now))
        (numbered_stmt scope.now names.old (named.register port.now name.now)) }
    ensures names { OnOk result (names.new ≡ with_name names.old name.now) }
    ensures grown { Grows names.old names.new }
{
    let port = named_port(port, scope)?;
    let name = names.number(alloc, name)?;
    Ok(BoundStmt::Register { port, name })
}

/// A statement with numbers in place of names.
#[cycle(statement)]
fn statement(
    alloc: Global,
    s: &Stmt,
    scope: &Scope,
    names: &mut ServiceNames,
) -> Result<BoundStmt, ActionFault>
    ensures answer { Answers numbered.stmt_view result
        (stmt_fault scope.now (named.stmt_view s.now))
        (numbered_stmt scope.now names.old (named.stmt_view s.now)) }
    ensures names { OnOk result (names.new ≡ stmt_names (named.stmt_view s.now) names.old) }
    ensures grown { Grows names.old names.new }
{
    match s {
        Stmt::Empty => Ok(BoundStmt::Empty),
        Stmt::Assign(s) => assign(alloc, s, scope),
        Stmt::If(choice) => choose(alloc, choice, scope, names),
        Stmt::Repeat(s) => {
            let body = statements(alloc, &s.body, scope, names)?;
            let times = s.times;
            let numbered = Box::new(alloc, BoundRepeat { times, body })?;
            Ok(BoundStmt::Repeat(numbered))
        }
        Stmt::Send(s) => {
            let numbered = send(alloc, s, scope)?;
            Ok(BoundStmt::Send(Box::new(alloc, numbered)?))
        }
        Stmt::Defer => Ok(BoundStmt::Defer),
        Stmt::Recall => Ok(BoundStmt::Recall),
        Stmt::RecallAll => Ok(BoundStmt::RecallAll),
        Stmt::Frame(s) => frame(alloc, s, scope),
        Stmt::Import(s) => import(alloc, s, scope),
        Stmt::Register(s) => register(alloc, &s.port, &s.name, scope, names),
        Stmt::Withdraw(s) => {
            let port = named_port(&s.port, scope)?;
            Ok(BoundStmt::Withdraw { port })
        }
    }
}

/// Statements with numbers in place of names.
#[cycle(statement)]
pub fn statements(
    alloc: Global,
    statements: &Vec<Stmt>,
    scope: &Scope,
    names: &mut ServiceNames,
) -> Result<Vec<BoundStmt>, ActionFault>
    ensures answer { Answers (λ v. numbered.stmts_of (map numbered.stmt_view v.items)) result
        (stmts_fault scope.now (named.stmts_of (map named.stmt_view statements.now.items)))
        (numbered_stmts scope.now names.old
        (named.stmts_of (map named.stmt_view statements.now.items))) }
    ensures names { OnOk result (names.new
        ≡ stmts_names (named.stmts_of (map named.stmt_view statements.now.items)) names.old) }
    ensures grown { Grows names.old names.new }
{
    let mut found = Vec::with_capacity(alloc, statements.len())?;
    for s in statements {
        let one = statement(alloc, s, scope, names)?;
        found.push(one)?;
    }
    Ok(found)
}

/// The statement of numbered branches and a last block.
fn chosen(
    alloc: Global,
    branches: Vec<BoundBranch>,
    otherwise: Vec<BoundStmt>,
) -> Result<BoundStmt, AllocError>
    ensures { IfOk result (λ s. numbered.stmt_view s
        ≡ numbered.choose (numbered.branches_of (map numbered.branch_view branches.items))
        (numbered.stmts_of (map numbered.stmt_view otherwise.items))) }
{
    let numbered = BoundIf {
        branches,
        otherwise,
    };
    Ok(BoundStmt::If(Box::new(alloc, numbered)?))
}

#[cycle(statement)]
fn choose(
    alloc: Global,
    choice: &IfStmt,
    scope: &Scope,
    names: &mut ServiceNames,
) -> Result<BoundStmt, ActionFault>
    ensures answer { Answers numbered.stmt_view result
        (stmt_fault scope.now (named.choose (named.if_view choice.now).0
        (named.if_view choice.now).1))
        (numbered_stmt scope.now names.old
        (named.choose (named.if_view choice.now).0 (named.if_view choice.now).1)) }
    ensures names { OnOk result (names.new ≡ stmt_names
        (named.choose (named.if_view choice.now).0 (named.if_view choice.now).1) names.old) }
    ensures grown { Grows names.old names.new }
{
    let branches = branches(alloc, &choice.branches, scope, names)?;
    match &choice.otherwise {
        None => Ok(chosen(alloc, branches, Vec::new(alloc))?),
        Some(body) => {
            let otherwise = statements(alloc, body, scope, names)?;
            Ok(chosen(alloc, branches, otherwise)?)
        }
    }
}

#[cycle(statement)]
fn branches(
    alloc: Global,
    branches: &Vec<Branch>,
    scope: &Scope,
    names: &mut ServiceNames,
) -> Result<Vec<BoundBranch>, ActionFault>
    ensures answer { Answers (λ v. numbered.branches_of (map numbered.branch_view v.items)) result
        (branches_fault scope.now (named.branches_of (map named.branch_view branches.now.items)))
        (numbered_branches scope.now names.old
        (named.branches_of (map named.branch_view branches.now.items))) }
    ensures names { OnOk result (names.new
        ≡ branches_names (named.branches_of (map named.branch_view branches.now.items)) names.old) }
    ensures grown { Grows names.old names.new }
{
    let mut found = Vec::with_capacity(alloc, branches.len())?;
    for branch in branches {
        let condition = expression(alloc, &branch.condition, scope)?;
        let body = statements(alloc, &branch.body, scope, names)?;
        found.push(BoundBranch { condition, body })?;
    }
    Ok(found)
}
