//! The limits of repetitions.
ghost use Rattle.std.specs.Prelude.{◌≡◌, map};
ghost use Rattle.action_program.specs.Named.{stmt_view, branch_view, if_view, choose, stmts_of, branches_of};
ghost use Rattle.action_parse.specs.action_reading.Written.{stmt_repeats, repeats_within, branches_repeat};

use action_program::{Branch, IfStmt, Stmt};

/// The most turns of a repetition.
const MOST_TIMES: u64 = 255;

/// Whether each repetition goes 255 times at most, and repetitions nest no deeper than `most`.
#[cycle(repeats)]
pub fn repeats_within(statements: &Vec<Stmt>, most: u8) -> bool
    ensures { result ≡ repeats_within (stmts_of (map stmt_view statements.now.items)) most }
{
    for statement in statements {
        if !stmt_repeats(statement, most) {
            return false;
        }
    }
    true
}

#[cycle(repeats)]
fn stmt_repeats(statement: &Stmt, most: u8) -> bool
    ensures { result ≡ stmt_repeats (stmt_view statement.now) most }
{
    match statement {
        Stmt::If(choice) => choice_repeats(choice, most),
        Stmt::Repeat(repeat) => {
            repeat.times <= MOST_TIMES && most > 0 && repeats_within(&repeat.body, most - 1)
        }
        Stmt::Empty
        | Stmt::Assign(_)
        | Stmt::Send(_)
        | Stmt::Defer
        | Stmt::Recall
        | Stmt::RecallAll
        | Stmt::Frame(_)
        | Stmt::Import(_)
        | Stmt::Register(_)
        | Stmt::Withdraw(_) => true,
    }
}

#[cycle(repeats)]
fn branches_repeat(branches: &Vec<Branch>, most: u8) -> bool
    ensures { result ≡ branches_repeat (branches_of (map branch_view branches.now.items)) most }
{
    for branch in branches {
        if !repeats_within(&branch.body, most) {
            return false;
        }
    }
    true
}

#[cycle(repeats)]
fn choice_repeats(choice: &IfStmt, most: u8) -> bool
    ensures { result ≡ stmt_repeats (choose (if_view choice.now).0 (if_view choice.now).1) most }
{
    if !branches_repeat(&choice.branches, most) {
        return false;
    }
    match &choice.otherwise {
        None => true,
        Some(body) => repeats_within(body, most),
    }
}
