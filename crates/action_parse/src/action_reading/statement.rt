//! Statements.
ghost use Rattle.std.specs.Prelude.{◌≡◌, map, option_map};
ghost use Rattle.room_tokens.specs.Reader.{Gives, ◌⊕◌, reads_as, all_while};
ghost use Rattle.room_tokens.specs.action_tokens.Single.{left, mark};
ghost use Rattle.room_lexer.specs.declared.token.Mark.TheVariants as marks;
ghost use Rattle.action_program.specs.Named.{expr_view, stmt_view, branch_view, else_view, stmts_of};
ghost use Rattle.action_parse.specs.action_reading.ExprReading.{expression};
ghost use Rattle.action_parse.specs.action_reading.StmtReading.{index_at, argument_at, some_arguments_at, arguments_at, prio_of, prio_word_at, prio_at, is_send, send_at, assign_at, frame_at, import_behind, register_at, withdraw_at, repeat_at, branch_at, else_if_comes, else_if_at, branches_at, else_at, choose_at, named_at, goes_on, block_at, block_below, statement};

use crate::action_reading::expressions::{WEAKEST, level, path};
use action_program::{
    AssignStmt, Branch, Expr, FrameStmt, FrameVerb, IfStmt, ImportStmt, RegisterStmt, RepeatStmt,
    SendStmt, Stmt, WithdrawStmt,
};
use room_kinds::Priority;
use room_lexer::Mark;
use room_tokens::action_tokens::{ActionToken, ActionWord, Rest};
use room_tokens::{
    ReadFault, comes, comes_word, name, next, number, place, skip, take_mark, take_word,
};
use std::alloc::Global;

/// A whole expression.
pub fn expression<'a>(
    alloc: Global,
    depth: usize,
    rest: Rest<'a>,
) -> Result<(Expr, Rest<'a>), ReadFault>
    ensures { Gives (λ x. (expr_view x.0, left x.1)) result (expression depth (left rest.entry)) }
{
    level(alloc, WEAKEST, depth, rest)
}

/// The place of a port or the index of a reference, if one comes.
#[tactic(auto, unfolding(crate::specs::action_reading::StmtReading::index_at, room_tokens::specs::Reader::optional))]
fn index<'a>(
    alloc: Global,
    depth: usize,
    rest: Rest<'a>,
) -> Result<(Option<Expr>, Rest<'a>), ReadFault>
    ensures { Gives (λ x. (option_map expr_view x.0, left x.1)) result
        (index_at (expression depth) (left rest.entry)) }
{
    if !comes(rest, Mark::OpenBracket) {
        return Ok((None, rest));
    }
    let rest = take_mark(rest, Mark::OpenBracket)?;
    let (index, rest) = expression(alloc, depth, rest)?;
    let rest = take_mark(rest, Mark::CloseBracket)?;
    Ok((Some(index), rest))
}

/// A comma and an expression.
#[tactic(auto, unfolding(crate::specs::action_reading::StmtReading::argument_at))]
fn argument<'a>(alloc: Global, depth: usize, rest: Rest<'a>) -> Result<(Expr, Rest<'a>), ReadFault>
    ensures { Gives (λ x. (expr_view x.0, left x.1)) result
        (argument_at (expression depth) (left rest.entry)) }
{
    let rest = take_mark(rest, Mark::Comma)?;
    expression(alloc, depth, rest)
}

#[tactic(auto, unfolding(crate::specs::action_reading::StmtReading::some_arguments_at))]
fn some_arguments<'a>(
    alloc: Global,
    depth: usize,
    rest: Rest<'a>,
) -> Result<(Vec<Expr>, Rest<'a>), ReadFault>
    ensures { Gives (λ x. (map expr_view x.0.items, left x.1)) result
        (some_arguments_at (expression depth) (left rest.entry)) }
{
    let (first, mut rest) = expression(alloc, depth, rest)?;
    let mut found = Vec::new(alloc);
    found.push(first)?;
    while comes(rest, Mark::Comma) {
        let (one, after) = argument(alloc, depth, rest)?;
        found.push(one)?;
        rest = after;
    }
    Ok((found, rest))
}

/// The arguments of a send, before its closing parenthesis.
#[tactic(auto, unfolding(crate::specs::action_reading::StmtReading::arguments_at))]
fn arguments<'a>(
    alloc: Global,
    depth: usize,
    rest: Rest<'a>,
) -> Result<(Vec<Expr>, Rest<'a>), ReadFault>
    ensures { Gives (λ x. (map expr_view x.0.items, left x.1)) result
        (arguments_at (expression depth) (left rest.entry)) }
{
    if comes(rest, Mark::CloseParen) {
        return Ok((Vec::new(alloc), rest));
    }
    some_arguments(alloc, depth, rest)
}

/// The priority that a word names.
fn prio_of(word: ActionWord) -> Option<Priority>
    ensures { result ≡ prio_of word }
{
    match word {
        ActionWord::Panic => Some(Priority(1)),
        ActionWord::High => Some(Priority(2)),
        ActionWord::General => Some(Priority(3)),
        ActionWord::Low => Some(Priority(4)),
        ActionWord::Background => Some(Priority(5)),
        _ => None,
    }
}

#[tactic(auto, unfolding(crate::specs::action_reading::StmtReading::prio_word_at))]
fn prio_word<'a>(rest: Rest<'a>) -> Result<(Priority, Rest<'a>), ReadFault>
    ensures { Gives (λ x. (x.0, left x.1)) result (prio_word_at (left rest.entry)) }
{
    let Some((token, after)) = next(rest) else {
        return Err(ReadFault::Syntax(place(rest)));
    };
    let ActionToken::Word(_, word) = token else {
        return Err(ReadFault::Syntax(place(rest)));
    };
    match prio_of(word) {
        Some(prio) => Ok((prio, after)),
        None => Err(ReadFault::Syntax(place(rest))),
    }
}

/// The priority of a send, if it names one.
#[tactic(auto, unfolding(crate::specs::action_reading::StmtReading::prio_at, room_tokens::specs::Reader::optional))]
pub fn prio<'a>(rest: Rest<'a>) -> Result<(Option<Priority>, Rest<'a>), ReadFault>
    ensures { Gives (λ x. (x.0, left x.1)) result (prio_at (left rest.entry)) }
{
    if !comes_word(rest, ActionWord::At) {
        return Ok((None, rest));
    }
    let rest = take_word(rest, ActionWord::At)?;
    let (prio, rest) = prio_word(rest)?;
    Ok((Some(prio), rest))
}

/// Whether a name before what is left begins a send.
#[tactic(auto, unfolding(crate::specs::action_reading::StmtReading::is_send))]
pub fn is_send(rest: Rest) -> bool
    ensures { result ≡ is_send (left rest.entry) }
{
    if comes(rest, Mark::OpenBracket) {
        return true;
    }
    comes(rest, Mark::Dot) && comes(skip(skip(rest)), Mark::OpenParen)
}

#[tactic(auto, unfolding(crate::specs::action_reading::StmtReading::send_at))]
fn send<'a>(alloc: Global, depth: usize, rest: Rest<'a>) -> Result<(Stmt, Rest<'a>), ReadFault>
    ensures { Gives (λ x. (stmt_view x.0, left x.1)) result
        (send_at (expression depth) (left rest.entry)) }
{
    let (port, rest) = name(alloc, rest)?;
    let (place, rest) = index(alloc, depth, rest)?;
    let rest = take_mark(rest, Mark::Dot)?;
    let (signal, rest) = name(alloc, rest)?;
    let rest = take_mark(rest, Mark::OpenParen)?;
    let (arguments, rest) = arguments(alloc, depth, rest)?;
    let rest = take_mark(rest, Mark::CloseParen)?;
    let (prio, rest) = prio(rest)?;
    let rest = take_mark(rest, Mark::Semicolon)?;
    let send = SendStmt {
        port,
        place,
        signal,
        arguments,
        prio,
    };
    Ok((Stmt::Send(Box::new(alloc, send)?), rest))
}

#[tactic(auto, unfolding(crate::specs::action_reading::StmtReading::assign_at))]
fn assign<'a>(alloc: Global, depth: usize, rest: Rest<'a>) -> Result<(Stmt, Rest<'a>), ReadFault>
    ensures { Gives (λ x. (stmt_view x.0, left x.1)) result
        (assign_at (expression depth) (left rest.entry)) }
{
    let (attribute, rest) = path(alloc, rest)?;
    let rest = take_mark(rest, Mark::Equals)?;
    let (value, rest) = expression(alloc, depth, rest)?;
    let rest = take_mark(rest, Mark::Semicolon)?;
    let assign = AssignStmt { attribute, value };
    Ok((Stmt::Assign(Box::new(alloc, assign)?), rest))
}

/// Behind `incarnate`, `destroy` or `deport`.
#[tactic(auto, unfolding(crate::specs::action_reading::StmtReading::frame_at))]
fn frame<'a>(
    alloc: Global,
    verb: FrameVerb,
    depth: usize,
    rest: Rest<'a>,
) -> Result<(Stmt, Rest<'a>), ReadFault>
    ensures { Gives (λ x. (stmt_view x.0, left x.1)) result
        (frame_at (expression depth) verb (left rest.entry)) }
{
    let (reference, rest) = name(alloc, rest)?;
    let (index, rest) = index(alloc, depth, rest)?;
    let rest = take_mark(rest, Mark::Semicolon)?;
    let frame = FrameStmt {
        verb,
        reference,
        index,
    };
    Ok((Stmt::Frame(Box::new(alloc, frame)?), rest))
}

/// Behind `import`.
#[tactic(auto, unfolding(crate::specs::action_reading::StmtReading::import_behind))]
fn import<'a>(alloc: Global, depth: usize, rest: Rest<'a>) -> Result<(Stmt, Rest<'a>), ReadFault>
    ensures { Gives (λ x. (stmt_view x.0, left x.1)) result
        (import_behind (expression depth) (left rest.entry)) }
{
    let (reference, rest) = name(alloc, rest)?;
    let (index, rest) = index(alloc, depth, rest)?;
    let rest = take_mark(rest, Mark::Equals)?;
    let (id, rest) = expression(alloc, depth, rest)?;
    let rest = take_mark(rest, Mark::Semicolon)?;
    let import = ImportStmt {
        reference,
        index,
        id,
    };
    Ok((Stmt::Import(Box::new(alloc, import)?), rest))
}

/// Behind `register`.
#[tactic(auto, unfolding(crate::specs::action_reading::StmtReading::register_at))]
pub fn register<'a>(alloc: Global, rest: Rest<'a>) -> Result<(Stmt, Rest<'a>), ReadFault>
    ensures { Gives (λ x. (stmt_view x.0, left x.1)) result (register_at (left rest.entry)) }
{
    let (port, rest) = name(alloc, rest)?;
    let rest = take_word(rest, ActionWord::As)?;
    let (service, rest) = name(alloc, rest)?;
    let rest = take_mark(rest, Mark::Semicolon)?;
    let register = RegisterStmt {
        port,
        name: service,
    };
    Ok((Stmt::Register(Box::new(alloc, register)?), rest))
}

/// Behind `withdraw`.
#[tactic(auto, unfolding(crate::specs::action_reading::StmtReading::withdraw_at))]
pub fn withdraw<'a>(alloc: Global, rest: Rest<'a>) -> Result<(Stmt, Rest<'a>), ReadFault>
    ensures { Gives (λ x. (stmt_view x.0, left x.1)) result (withdraw_at (left rest.entry)) }
{
    let (port, rest) = name(alloc, rest)?;
    let rest = take_mark(rest, Mark::Semicolon)?;
    let withdraw = Box::new(alloc, WithdrawStmt { port })?;
    Ok((Stmt::Withdraw(withdraw), rest))
}

#[tactic(auto, unfolding(crate::specs::action_reading::StmtReading::else_if_comes))]
pub fn else_if_comes(rest: Rest) -> bool
    ensures { result ≡ else_if_comes (left rest.entry) }
{
    comes_word(rest, ActionWord::Else) && comes_word(skip(rest), ActionWord::If)
}

/// Whether statements go on: neither a closing brace nor the end comes.
#[tactic(auto, unfolding(crate::specs::action_reading::StmtReading::goes_on, room_tokens::specs::action_tokens::Single::comes))]
fn goes_on(rest: Rest) -> bool
    ensures { result ≡ goes_on (left rest.entry) }
{
    match rest.tokens {
        [] => false,
        [_, ..] => !comes(rest, Mark::CloseBrace),
    }
}

/// A condition in parentheses, and its block.
#[cycle(statement)]
#[tactic(auto, unfolding(crate::specs::action_reading::StmtReading::branch_at))]
fn branch<'a>(alloc: Global, depth: usize, rest: Rest<'a>) -> Result<(Branch, Rest<'a>), ReadFault>
    ensures { Gives (λ x. (branch_view x.0, left x.1)) result
        (branch_at (expression depth) (block_below depth) (left rest.entry)) }
{
    let rest = take_mark(rest, Mark::OpenParen)?;
    let (condition, rest) = expression(alloc, depth, rest)?;
    let rest = take_mark(rest, Mark::CloseParen)?;
    let (body, rest) = block(alloc, depth, rest)?;
    Ok((Branch { condition, body }, rest))
}

#[cycle(statement)]
#[tactic(auto, unfolding(crate::specs::action_reading::StmtReading::else_if_at))]
fn else_if<'a>(alloc: Global, depth: usize, rest: Rest<'a>) -> Result<(Branch, Rest<'a>), ReadFault>
    ensures { Gives (λ x. (branch_view x.0, left x.1)) result
        (else_if_at (expression depth) (block_below depth) (left rest.entry)) }
{
    let rest = take_word(rest, ActionWord::Else)?;
    let rest = take_word(rest, ActionWord::If)?;
    branch(alloc, depth, rest)
}

/// A chain of conditions with their blocks, behind the first `if`.
#[cycle(statement)]
#[tactic(auto, unfolding(crate::specs::action_reading::StmtReading::branches_at))]
fn branches<'a>(
    alloc: Global,
    depth: usize,
    rest: Rest<'a>,
) -> Result<(Vec<Branch>, Rest<'a>), ReadFault>
    ensures { Gives (λ x. (map branch_view x.0.items, left x.1)) result
        (branches_at (expression depth) (block_below depth) (left rest.entry)) }
{
    let (first, mut rest) = branch(alloc, depth, rest)?;
    let mut found = Vec::new(alloc);
    found.push(first)?;
    while else_if_comes(rest) {
        let (one, after) = else_if(alloc, depth, rest)?;
        found.push(one)?;
        rest = after;
    }
    Ok((found, rest))
}

/// The last block of a chain, if there is one.
#[cycle(statement)]
#[tactic(auto, unfolding(crate::specs::action_reading::StmtReading::else_at, room_tokens::specs::Reader::optional))]
fn otherwise<'a>(
    alloc: Global,
    depth: usize,
    rest: Rest<'a>,
) -> Result<(Option<Vec<Stmt>>, Rest<'a>), ReadFault>
    ensures { Gives (λ x. (else_view x.0, left x.1)) result
        (else_at (block_below depth) (left rest.entry)) }
{
    if !comes_word(rest, ActionWord::Else) {
        return Ok((None, rest));
    }
    let rest = take_word(rest, ActionWord::Else)?;
    let (body, rest) = block(alloc, depth, rest)?;
    Ok((Some(body), rest))
}

/// Behind `if`.
#[cycle(statement)]
#[tactic(auto, unfolding(crate::specs::action_reading::StmtReading::choose_at))]
fn choose<'a>(alloc: Global, depth: usize, rest: Rest<'a>) -> Result<(Stmt, Rest<'a>), ReadFault>
    ensures { Gives (λ x. (stmt_view x.0, left x.1)) result
        (choose_at (expression depth) (block_below depth) (left rest.entry)) }
{
    let (mut branches, rest) = branches(alloc, depth, rest)?;
    branches.shrink_to_fit();
    let (otherwise, rest) = otherwise(alloc, depth, rest)?;
    let choice = IfStmt {
        branches,
        otherwise,
    };
    Ok((Stmt::If(Box::new(alloc, choice)?), rest))
}

/// Behind `repeat`.
#[cycle(statement)]
#[tactic(auto, unfolding(crate::specs::action_reading::StmtReading::repeat_at))]
fn repeat<'a>(alloc: Global, depth: usize, rest: Rest<'a>) -> Result<(Stmt, Rest<'a>), ReadFault>
    ensures { Gives (λ x. (stmt_view x.0, left x.1)) result
        (repeat_at (block_below depth) (left rest.entry)) }
{
    let (times, rest) = number(rest)?;
    let (body, rest) = block(alloc, depth, rest)?;
    let repeat = Box::new(alloc, RepeatStmt { times, body })?;
    Ok((Stmt::Repeat(repeat), rest))
}

/// A statement that begins with a name.
#[tactic(auto, unfolding(crate::specs::action_reading::StmtReading::named_at))]
fn named<'a>(alloc: Global, depth: usize, rest: Rest<'a>) -> Result<(Stmt, Rest<'a>), ReadFault>
    ensures { Gives (λ x. (stmt_view x.0, left x.1)) result
        (named_at (expression depth) (left rest.entry)) }
{
    if is_send(skip(rest)) {
        send(alloc, depth, rest)
    } else {
        assign(alloc, depth, rest)
    }
}

/// A statement that is a word alone.
fn alone<'a>(stmt: Stmt, rest: Rest<'a>) -> Result<(Stmt, Rest<'a>), ReadFault>
    ensures { Gives (λ x. (stmt_view x.0, left x.1)) result
        (reads_as (λ x. stmt_view stmt) (mark marks.Semicolon) (left rest.entry)) }
{
    let rest = take_mark(rest, Mark::Semicolon)?;
    Ok((stmt, rest))
}

/// A statement.
#[cycle(statement)]
#[tactic(auto, unfolding(crate::specs::action_reading::StmtReading::statement_with))]
fn statement<'a>(alloc: Global, depth: usize, rest: Rest<'a>) -> Result<(Stmt, Rest<'a>), ReadFault>
    ensures { Gives (λ x. (stmt_view x.0, left x.1)) result (statement depth (left rest.entry)) }
{
    let Some((token, after)) = next(rest) else {
        return Err(ReadFault::Syntax(place(rest)));
    };
    match token {
        ActionToken::Mark(_, Mark::Semicolon) => Ok((Stmt::Empty, after)),
        ActionToken::Name { .. } => named(alloc, depth, rest),
        ActionToken::Word(_, ActionWord::If) => choose(alloc, depth, after),
        ActionToken::Word(_, ActionWord::Repeat) => repeat(alloc, depth, after),
        ActionToken::Word(_, ActionWord::Defer) => alone(Stmt::Defer, after),
        ActionToken::Word(_, ActionWord::Recall) => alone(Stmt::Recall, after),
        ActionToken::Word(_, ActionWord::RecallAll) => alone(Stmt::RecallAll, after),
        ActionToken::Word(_, ActionWord::Incarnate) => frame(
            alloc,
            FrameVerb::Incarnate,
            depth,
            after,
        ),
        ActionToken::Word(_, ActionWord::Destroy) => frame(alloc, FrameVerb::Destroy, depth, after),
        ActionToken::Word(_, ActionWord::Deport) => frame(alloc, FrameVerb::Deport, depth, after),
        ActionToken::Word(_, ActionWord::Import) => import(alloc, depth, after),
        ActionToken::Word(_, ActionWord::Register) => register(alloc, after),
        ActionToken::Word(_, ActionWord::Withdraw) => withdraw(alloc, after),
        _ => Err(ReadFault::Syntax(place(rest))),
    }
}

/// Statements up to a closing brace or the end.
#[cycle(statement)]
pub fn statements<'a>(
    alloc: Global,
    depth: usize,
    rest: Rest<'a>,
) -> Result<(Vec<Stmt>, Rest<'a>), ReadFault>
    ensures { Gives (λ x. (map stmt_view x.0.items, left x.1)) result
        (all_while goes_on (statement depth) (left rest.entry)) }
{
    let mut found = Vec::new(alloc);
    let mut rest = rest;
    while goes_on(rest) {
        let (one, after) = statement(alloc, depth, rest)?;
        found.push(one)?;
        rest = after;
    }
    Ok((found, rest))
}

/// Statements in braces.
#[cycle(statement)]
#[tactic(auto, unfolding(crate::specs::action_reading::StmtReading::block_at, crate::specs::action_reading::StmtReading::stmts_at))]
fn braces<'a>(
    alloc: Global,
    depth: usize,
    rest: Rest<'a>,
) -> Result<(Vec<Stmt>, Rest<'a>), ReadFault>
    ensures { Gives (λ x. (stmts_of (map stmt_view x.0.items), left x.1)) result
        (block_at (statement depth) (left rest.entry)) }
{
    let rest = take_mark(rest, Mark::OpenBrace)?;
    let (mut found, rest) = statements(alloc, depth, rest)?;
    found.shrink_to_fit();
    let rest = take_mark(rest, Mark::CloseBrace)?;
    Ok((found, rest))
}

/// A block, if one may nest here.
#[cycle(statement)]
fn block<'a>(
    alloc: Global,
    depth: usize,
    rest: Rest<'a>,
) -> Result<(Vec<Stmt>, Rest<'a>), ReadFault>
    ensures { Gives (λ x. (stmts_of (map stmt_view x.0.items), left x.1)) result
        (block_below depth (left rest.entry)) }
{
    if depth == 0 {
        return Err(ReadFault::Syntax(place(rest)));
    }
    braces(alloc, depth - 1, rest)
}
