//! Whether a text has a program or a condition, however deep it nests.
//!
//! The stack of what is expected lies on the heap, so nothing here calls itself.
ghost use Rattle.std.specs.Prelude.{◌≡◌, ◌++◌, ◌∷◌, [], OnOk, MatchResult, Some, reverse};
ghost use Rattle.room_tokens.specs.Reader.{Gives, reads_as};
ghost use Rattle.room_tokens.specs.action_tokens.Values.{AWord};
ghost use Rattle.room_tokens.specs.action_tokens.Single.{left, name_at};
ghost use Rattle.action_parse.specs.action_reading.ExprReading.{operand};
ghost use Rattle.action_parse.specs.Expected.{expand, message_goals, operand_goals, otherwise_goals, named_goals, statements_goals, Accepted};
ghost use Rattle.action_parse.specs.Parsed.{Decided};

use crate::action_reading::{
    else_if_comes, is_send, operand, operator_comes, path, prio, register, withdraw,
};
use crate::goal::Goal;
use room_lexer::Mark;
use room_tokens::action_tokens::{ActionToken, ActionWord, Rest};
use room_tokens::{ReadFault, comes, comes_word, name, next, number, place, skip, take_mark};
use std::alloc::{AllocError, Global};

// Goals in the order in which they are put on the stack: what is expected first comes last.

static NOTHING: [Goal; 0] = [];

static OPERAND: [Goal; 1] = [Goal::Operand];

static RIGHT_SIDE: [Goal; 2] = [Goal::Operators, Goal::Operand];

static ARGUMENT: [Goal; 3] = [Goal::Arguments, Goal::Operators, Goal::Operand];

static IN_PARENS: [Goal; 3] = [Goal::Take(Mark::CloseParen), Goal::Operators, Goal::Operand];

static IN_BRACKETS: [Goal; 3] = [
    Goal::Take(Mark::CloseBracket),
    Goal::Operators,
    Goal::Operand,
];

static BARE_MESSAGE: [Goal; 3] = [
    Goal::Take(Mark::Semicolon),
    Goal::Prio,
    Goal::Take(Mark::CloseParen),
];

static MESSAGE: [Goal; 6] = [
    Goal::Take(Mark::Semicolon),
    Goal::Prio,
    Goal::Take(Mark::CloseParen),
    Goal::Arguments,
    Goal::Operators,
    Goal::Operand,
];

static BLOCK: [Goal; 3] = [
    Goal::Take(Mark::CloseBrace),
    Goal::Statements,
    Goal::Take(Mark::OpenBrace),
];

static BRANCH: [Goal; 8] = [
    Goal::Otherwise,
    Goal::Take(Mark::CloseBrace),
    Goal::Statements,
    Goal::Take(Mark::OpenBrace),
    Goal::Take(Mark::CloseParen),
    Goal::Operators,
    Goal::Operand,
    Goal::Take(Mark::OpenParen),
];

static STATEMENTS: [Goal; 1] = [Goal::Statements];

static ALONE: [Goal; 2] = [Goal::Statements, Goal::Take(Mark::Semicolon)];

static SEND: [Goal; 3] = [Goal::Statements, Goal::Message, Goal::Index];

static ASSIGNMENT: [Goal; 5] = [
    Goal::Statements,
    Goal::Take(Mark::Semicolon),
    Goal::Operators,
    Goal::Operand,
    Goal::Take(Mark::Equals),
];

static CHOICE: [Goal; 9] = [
    Goal::Statements,
    Goal::Otherwise,
    Goal::Take(Mark::CloseBrace),
    Goal::Statements,
    Goal::Take(Mark::OpenBrace),
    Goal::Take(Mark::CloseParen),
    Goal::Operators,
    Goal::Operand,
    Goal::Take(Mark::OpenParen),
];

static REPETITION: [Goal; 4] = [
    Goal::Statements,
    Goal::Take(Mark::CloseBrace),
    Goal::Statements,
    Goal::Take(Mark::OpenBrace),
];

static VERB: [Goal; 3] = [Goal::Statements, Goal::Take(Mark::Semicolon), Goal::Index];

static IMPORT: [Goal; 6] = [
    Goal::Statements,
    Goal::Take(Mark::Semicolon),
    Goal::Operators,
    Goal::Operand,
    Goal::Take(Mark::Equals),
    Goal::Index,
];

#[tactic(auto, unfolding(crate::specs::Expected::message_goals))]
fn message<'a>(alloc: Global, rest: Rest<'a>) -> Result<(&'static [Goal], Rest<'a>), ReadFault>
    ensures { Gives (λ x. (reverse x.0.now, left x.1)) result (message_goals (left rest.entry)) }
{
    let rest = take_mark(rest, Mark::Dot)?;
    let (_, rest) = name(alloc, rest)?;
    let rest = take_mark(rest, Mark::OpenParen)?;
    if comes(rest, Mark::CloseParen) {
        return Ok((&BARE_MESSAGE, rest));
    }
    Ok((&MESSAGE, rest))
}

/// An operand in which nothing nests.
fn flat_operand<'a>(alloc: Global, rest: Rest<'a>) -> Result<(&'static [Goal], Rest<'a>), ReadFault>
    ensures { Gives (λ x. (reverse x.0.now, left x.1)) result
        (reads_as (λ x. []) (operand 0) (left rest.entry)) }
{
    let (_, rest) = operand(alloc, 0, rest)?;
    Ok((&NOTHING, rest))
}

#[tactic(auto, unfolding(crate::specs::Expected::operand_goals))]
fn operand_here<'a>(alloc: Global, rest: Rest<'a>) -> Result<(&'static [Goal], Rest<'a>), ReadFault>
    ensures { Gives (λ x. (reverse x.0.now, left x.1)) result (operand_goals (left rest.entry)) }
{
    let Some((token, after)) = next(rest) else {
        return flat_operand(alloc, rest);
    };
    match token {
        ActionToken::Mark(_, Mark::OpenParen) => Ok((&IN_PARENS, after)),
        ActionToken::Mark(_, Mark::Minus | Mark::Bang) => Ok((&OPERAND, after)),
        _ => flat_operand(alloc, rest),
    }
}

#[tactic(auto, unfolding(crate::specs::Expected::otherwise_goals))]
fn otherwise<'a>(rest: Rest<'a>) -> (&'static [Goal], Rest<'a>)
    ensures { otherwise_goals (left rest.entry) ≡ Some (reverse result.0.now, left result.1) }
{
    if else_if_comes(rest) {
        return (&BRANCH, skip(skip(rest)));
    }
    if comes_word(rest, ActionWord::Else) {
        return (&BLOCK, skip(rest));
    }
    (&NOTHING, rest)
}

#[tactic(auto, unfolding(crate::specs::Expected::named_goals))]
fn named<'a>(alloc: Global, rest: Rest<'a>) -> Result<(&'static [Goal], Rest<'a>), ReadFault>
    ensures { Gives (λ x. (reverse x.0.now, left x.1)) result (named_goals (left rest.entry)) }
{
    if is_send(skip(rest)) {
        return Ok((&SEND, skip(rest)));
    }
    let (_, rest) = path(alloc, rest)?;
    Ok((&ASSIGNMENT, rest))
}

/// Goals behind a name.
fn behind_name<'a>(
    alloc: Global,
    goals: &'static [Goal],
    rest: Rest<'a>,
) -> Result<(&'static [Goal], Rest<'a>), ReadFault>
    ensures { Gives (λ x. (reverse x.0.now, left x.1)) result
        (reads_as (λ x. reverse goals.now) name_at (left rest.entry)) }
{
    let (_, rest) = name(alloc, rest)?;
    Ok((goals, rest))
}

/// Goals behind a word at the beginning of a statement.
#[tactic(auto, unfolding(crate::specs::Expected::statements_goals))]
fn worded<'a>(
    alloc: Global,
    word: ActionWord,
    rest: Rest<'a>,
) -> Result<(&'static [Goal], Rest<'a>), ReadFault>
    ensures { Gives (λ x. (reverse x.0.now, left x.1)) result
        (statements_goals (AWord word ∷ left rest.entry)) }
{
    match word {
        ActionWord::If => Ok((&CHOICE, rest)),
        ActionWord::Repeat => {
            let (_, rest) = number(rest)?;
            Ok((&REPETITION, rest))
        }
        ActionWord::Defer | ActionWord::Recall | ActionWord::RecallAll => Ok((&ALONE, rest)),
        ActionWord::Incarnate | ActionWord::Destroy | ActionWord::Deport => {
            behind_name(alloc, &VERB, rest)
        }
        ActionWord::Import => behind_name(alloc, &IMPORT, rest),
        ActionWord::Register => {
            let (_, rest) = register(alloc, rest)?;
            Ok((&STATEMENTS, rest))
        }
        ActionWord::Withdraw => {
            let (_, rest) = withdraw(alloc, rest)?;
            Ok((&STATEMENTS, rest))
        }
        _ => Err(ReadFault::Syntax(place(rest))),
    }
}

#[tactic(auto, unfolding(crate::specs::Expected::statements_goals))]
fn statements<'a>(alloc: Global, rest: Rest<'a>) -> Result<(&'static [Goal], Rest<'a>), ReadFault>
    ensures { Gives (λ x. (reverse x.0.now, left x.1)) result (statements_goals (left rest.entry)) }
{
    let Some((token, after)) = next(rest) else {
        return Ok((&NOTHING, rest));
    };
    match token {
        ActionToken::Mark(_, Mark::CloseBrace) => Ok((&NOTHING, rest)),
        ActionToken::Mark(_, Mark::Semicolon) => Ok((&STATEMENTS, after)),
        ActionToken::Name { .. } => named(alloc, rest),
        ActionToken::Word(_, word) => worded(alloc, word, after),
        _ => Err(ReadFault::Syntax(place(rest))),
    }
}

/// What a goal stands for, and what is left for it.
fn expand<'a>(
    alloc: Global,
    goal: Goal,
    rest: Rest<'a>,
) -> Result<(&'static [Goal], Rest<'a>), ReadFault>
    ensures { Gives (λ x. (reverse x.0.now, left x.1)) result (expand goal (left rest.entry)) }
{
    match goal {
        Goal::Take(mark) => {
            let rest = take_mark(rest, mark)?;
            Ok((&NOTHING, rest))
        }
        Goal::Prio => {
            let (_, rest) = prio(rest)?;
            Ok((&NOTHING, rest))
        }
        Goal::Message => message(alloc, rest),
        Goal::Operand => operand_here(alloc, rest),
        Goal::Statements => statements(alloc, rest),
        Goal::Otherwise => Ok(otherwise(rest)),
        Goal::Index => {
            if comes(rest, Mark::OpenBracket) {
                return Ok((&IN_BRACKETS, skip(rest)));
            }
            Ok((&NOTHING, rest))
        }
        Goal::Operators => {
            if operator_comes(rest) {
                return Ok((&RIGHT_SIDE, skip(rest)));
            }
            Ok((&NOTHING, rest))
        }
        Goal::Arguments => {
            if comes(rest, Mark::Comma) {
                return Ok((&ARGUMENT, skip(rest)));
            }
            Ok((&NOTHING, rest))
        }
    }
}

/// Puts goals on the stack.
fn put(stack: &mut Vec<Goal>, goals: &[Goal]) -> Result<(), AllocError>
    ensures { OnOk result (stack.new.items ≡ stack.old.items ++ goals.now) }
{
    for goal in goals {
        stack.push(*goal)?;
    }
    Ok(())
}

/// Whether the tokens are what the goals stand for, of which the last is expected first. The error
/// is `Memory`. It takes time linear in the tokens.
pub fn accepts(alloc: Global, expected: &[Goal], rest: Rest) -> Result<bool, ReadFault>
    ensures { MatchResult result
        (λ b. Decided b (Accepted (reverse expected.now) (left rest.entry)))
        (λ e. e ≡ ReadFault.Memory) }
{
    let mut stack = Vec::new(alloc);
    put(&mut stack, expected)?;
    let mut rest = rest;
    while let Some(goal) = stack.pop() {
        let (goals, after) = match expand(alloc, goal, rest) {
            Ok(found) => found,
            Err(ReadFault::Syntax(_)) => return Ok(false),
            Err(ReadFault::Memory) => return Err(ReadFault::Memory),
        };
        put(&mut stack, goals)?;
        rest = after;
    }
    match rest.tokens {
        [] => Ok(true),
        [_, ..] => Ok(false),
    }
}
