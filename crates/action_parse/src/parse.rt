//! Programs and conditions of texts.
ghost use Rattle.std.specs.Prelude.{◌≡◌, ◌∷◌, [], map, reverse};
ghost use Rattle.room_tokens.specs.Reader.{Gives, to_end};
ghost use Rattle.room_tokens.specs.action_tokens.Values.{token_value};
ghost use Rattle.room_tokens.specs.action_tokens.Single.{left};
ghost use Rattle.action_program.specs.Named.{expr_view, program_view};
ghost use Rattle.action_parse.specs.action_reading.ExprReading.{expression};
ghost use Rattle.action_parse.specs.action_reading.StmtReading.{stmts_at, statement};
ghost use Rattle.action_parse.specs.Expected.{Accepted};
ghost use Rattle.action_parse.specs.Parsed.{IsParsed, IsParsedCondition, IsRefused, IsLimited, told};

use crate::action_reading::{expression, statements};
use crate::goal::Goal;
use crate::recogniser::accepts;
use crate::repeats::repeats_within;
use action_program::{ActionFault, Expr, Program};
use room_tokens::action_tokens::{ActionToken, Rest, action_tokens};
use room_tokens::{ReadFault, place};
use std::alloc::Global;

/// How deep blocks, parentheses and signs may nest, together.
const DEPTH: usize = 64;

/// How deep repetitions may nest.
const REPEATS: u8 = 2;

static PROGRAM: [Goal; 1] = [Goal::Statements];

static CONDITION: [Goal; 2] = [Goal::Operators, Goal::Operand];

fn told(fault: ReadFault) -> ActionFault
    ensures { result ≡ told fault }
{
    match fault {
        ReadFault::Syntax(_) => ActionFault::Syntax,
        ReadFault::Memory => ActionFault::Memory,
    }
}

/// The program that the tokens are, if it nests no deeper than the limit.
#[tactic(auto, unfolding(crate::specs::action_reading::StmtReading::stmts_at))]
fn shallow_program(
    alloc: Global,
    bytes: &[u8],
    tokens: &[ActionToken],
) -> Result<Program, ReadFault>
    ensures { Gives program_view result
        (to_end (stmts_at (statement 64)) (map (token_value bytes.now) tokens.now)) }
{
    let (mut statements, rest) = statements(alloc, DEPTH, Rest { bytes, tokens })?;
    statements.shrink_to_fit();
    match rest.tokens {
        [] => Ok(Program { statements }),
        [_, ..] => Err(ReadFault::Syntax(place(rest))),
    }
}

/// The condition that the tokens are, if it nests no deeper than the limit.
fn shallow_condition(alloc: Global, bytes: &[u8], tokens: &[ActionToken]) -> Result<Expr, ReadFault>
    ensures { Gives expr_view result
        (to_end (expression 64) (map (token_value bytes.now) tokens.now)) }
{
    let (condition, rest) = expression(alloc, DEPTH, Rest { bytes, tokens })?;
    match rest.tokens {
        [] => Ok(condition),
        [_, ..] => Err(ReadFault::Syntax(place(rest))),
    }
}

/// Why no shallow tree was found: there are only deeper ones, or none at all.
fn refusal(alloc: Global, expected: &[Goal], rest: Rest) -> ActionFault
    ensures { IsRefused (Accepted (reverse expected.now) (left rest.entry)) result }
{
    match accepts(alloc, expected, rest) {
        Ok(true) => ActionFault::NestTooDeep,
        Ok(false) => ActionFault::Syntax,
        Err(fault) => told(fault),
    }
}

/// The program of a text. `Syntax` says that it has none; `NestTooDeep`, which is told after it,
/// that its program breaks a limit: 64 for blocks, parentheses and signs that nest, 2 for
/// repetitions that nest, and 255 for the turns of one. Neither the parentheses of a condition and
/// of a send count, nor brackets, nor chains of `else if`. It takes time linear in the bytes.
pub fn parse_action(alloc: Global, bytes: &[u8]) -> Result<Program, ActionFault>
    ensures { IsParsed bytes.now result }
{
    let tokens = match action_tokens(alloc, bytes) {
        Ok(tokens) => tokens,
        Err(fault) => return Err(told(fault)),
    };
    match shallow_program(alloc, bytes, tokens.as_slice()) {
        Ok(program) => limited(program),
        Err(ReadFault::Memory) => Err(ActionFault::Memory),
        Err(ReadFault::Syntax(_)) => Err(refusal(
            alloc,
            &PROGRAM,
            Rest {
                bytes,
                tokens: tokens.as_slice(),
            },
        )),
    }
}

/// The program, if its repetitions are within the limits.
fn limited(program: Program) -> Result<Program, ActionFault>
    ensures { IsLimited (program_view program) result }
{
    if repeats_within(&program.statements, REPEATS) {
        Ok(program)
    } else {
        Err(ActionFault::NestTooDeep)
    }
}

/// The condition of a text. `Syntax` says that it has none; `NestTooDeep`, which is told after it,
/// that parentheses and signs nest deeper than 64.
pub fn parse_cond(alloc: Global, bytes: &[u8]) -> Result<Expr, ActionFault>
    ensures { IsParsedCondition bytes.now result }
{
    let tokens = match action_tokens(alloc, bytes) {
        Ok(tokens) => tokens,
        Err(fault) => return Err(told(fault)),
    };
    match shallow_condition(alloc, bytes, tokens.as_slice()) {
        Ok(condition) => Ok(condition),
        Err(ReadFault::Memory) => Err(ActionFault::Memory),
        Err(ReadFault::Syntax(_)) => Err(refusal(
            alloc,
            &CONDITION,
            Rest {
                bytes,
                tokens: tokens.as_slice(),
            },
        )),
    }
}
