//! Expressions.
ghost use Rattle.std.specs.Prelude.{◌≡◌, ◌≤◌, ◌∷◌, IfOk, map};
ghost use Rattle.room_lexer.specs.declared.token.Mark.TheVariants as marks;
ghost use Rattle.room_tokens.specs.Reader.{Gives, ◌⊕◌, reads_as, all_while};
ghost use Rattle.room_tokens.specs.action_tokens.Single.{left, mark};
ghost use Rattle.action_program.specs.Named.{expr_view, step_view, path_view, an_attribute, a_paren, a_unary};
ghost use Rattle.action_parse.specs.action_reading.Written.{below as below_of};
ghost use Rattle.action_parse.specs.action_reading.ExprReading.{operator_of, operator_comes, op_at, op_comes, step_at, chain_of, level, part_at, path_at, path_from, small_number_at, datum_at, under, operand};

use action_program::{BinaryOp, Chain, Expr, Path, Step, Unary, UnaryOp};
use room_ast::Name;
use room_lexer::Mark;
use room_tokens::action_tokens::{ActionToken, ActionWord, Rest};
use room_tokens::{ReadFault, comes, name, next, number, place, skip, take_mark};
use std::alloc::{AllocError, Global};

/// The level of whole expressions; level 0 is an operand alone.
pub const WEAKEST: usize = 5;

/// The greatest `k` of `data[k]`.
const MAX_DATUM: u64 = 63;

fn operator_of(mark: Mark) -> Option<BinaryOp>
    ensures { result ≡ operator_of mark }
{
    match mark {
        Mark::OrOr => Some(BinaryOp::Or),
        Mark::AndAnd => Some(BinaryOp::And),
        Mark::EqualEqual => Some(BinaryOp::Equal),
        Mark::NotEqual => Some(BinaryOp::NotEqual),
        Mark::Less => Some(BinaryOp::Less),
        Mark::AtMost => Some(BinaryOp::LessEqual),
        Mark::Greater => Some(BinaryOp::Greater),
        Mark::AtLeast => Some(BinaryOp::GreaterEqual),
        Mark::Plus => Some(BinaryOp::Add),
        Mark::Minus => Some(BinaryOp::Subtract),
        Mark::Star => Some(BinaryOp::Multiply),
        Mark::Slash => Some(BinaryOp::Divide),
        Mark::Percent => Some(BinaryOp::Remainder),
        _ => None,
    }
}

/// The level at which an operator's operands stand.
fn below(op: BinaryOp) -> usize
    ensures { result ≡ below_of op }
{
    match op {
        BinaryOp::Multiply | BinaryOp::Divide | BinaryOp::Remainder => 0,
        BinaryOp::Add | BinaryOp::Subtract => 1,
        BinaryOp::Equal
        | BinaryOp::NotEqual
        | BinaryOp::Less
        | BinaryOp::LessEqual
        | BinaryOp::Greater
        | BinaryOp::GreaterEqual => 2,
        BinaryOp::And => 3,
        BinaryOp::Or => 4,
    }
}

/// Whether an operator between two values comes.
#[tactic(auto, unfolding(crate::specs::action_reading::ExprReading::operator_comes))]
pub fn operator_comes(rest: Rest) -> bool
    ensures { result ≡ operator_comes (left rest.entry) }
{
    match next(rest) {
        Some((token, _)) => match token {
            ActionToken::Mark(_, mark) => operator_of(mark).is_some(),
            _ => false,
        },
        None => false,
    }
}

/// The operator that comes, if its operands stand at this level.
#[tactic(auto, unfolding(crate::specs::action_reading::ExprReading::op_at))]
fn op_at(rest: Rest, k: usize) -> Option<BinaryOp>
    ensures { result ≡ op_at k (left rest.entry) }
{
    let Some((token, _)) = next(rest) else {
        return None;
    };
    let ActionToken::Mark(_, mark) = token else {
        return None;
    };
    let Some(op) = operator_of(mark) else {
        return None;
    };
    if below(op) == k { Some(op) } else { None }
}

#[tactic(auto, unfolding(crate::specs::action_reading::ExprReading::op_comes))]
fn op_comes(rest: Rest, k: usize) -> bool
    ensures { result ≡ op_comes k (left rest.entry) }
{
    op_at(rest, k).is_some()
}

/// A dot and a name.
fn part<'a>(alloc: Global, rest: Rest<'a>) -> Result<(Name, Rest<'a>), ReadFault>
    ensures { Gives (λ x. (x.0, left x.1)) result (part_at (left rest.entry)) }
{
    let rest = take_mark(rest, Mark::Dot)?;
    name(alloc, rest)
}

/// The parts of a dotted name, of which the first was read.
fn parts<'a>(alloc: Global, first: Name, rest: Rest<'a>) -> Result<(Vec<Name>, Rest<'a>), ReadFault>
    ensures { Gives (λ x. (x.0.items, left x.1)) result (path_from first (left rest.entry)) }
{
    let mut path = Vec::new(alloc);
    path.push(first)?;
    let mut rest = rest;
    while comes(rest, Mark::Dot) {
        let (next_part, after) = part(alloc, rest)?;
        path.push(next_part)?;
        rest = after;
    }
    Ok((path, rest))
}

/// A dotted name. One without a dot needs no list.
#[tactic(auto, unfolding(crate::specs::action_reading::ExprReading::path_at), using(crate::proofs::action_reading::Turns::one_part, crate::proofs::action_reading::Turns::more_parts))]
pub fn path<'a>(alloc: Global, rest: Rest<'a>) -> Result<(Path, Rest<'a>), ReadFault>
    ensures { Gives (λ x. (path_view x.0, left x.1)) result (path_at (left rest.entry)) }
{
    let (first, rest) = name(alloc, rest)?;
    if !comes(rest, Mark::Dot) {
        return Ok((Path::Attribute(first), rest));
    }
    let (mut parts, rest) = parts(alloc, first, rest)?;
    parts.shrink_to_fit();
    Ok((Path::Within(parts), rest))
}

/// The value of what a path names.
fn attribute(alloc: Global, path: Path) -> Result<Expr, AllocError>
    ensures { IfOk result (λ e. expr_view e ≡ an_attribute (path_view path)) }
{
    match path {
        Path::Attribute(name) => Ok(Expr::Attribute(Box::new(alloc, name)?)),
        Path::Within(parts) => Ok(Expr::Within(Box::new(alloc, parts)?)),
    }
}

/// The number of a place of the payload.
#[tactic(auto, unfolding(crate::specs::action_reading::ExprReading::small_number_at))]
fn small_number<'a>(rest: Rest<'a>) -> Result<(u8, Rest<'a>), ReadFault>
    ensures { Gives (λ x. (x.0, left x.1)) result (small_number_at (left rest.entry)) }
{
    let (n, after) = number(rest)?;
    if n > MAX_DATUM {
        return Err(ReadFault::Syntax(place(rest)));
    }
    Ok((n as u8, after))
}

/// What stands behind `data`.
#[tactic(auto, unfolding(crate::specs::action_reading::ExprReading::datum_at, room_tokens::specs::Reader::optional))]
fn datum<'a>(rest: Rest<'a>) -> Result<(Option<u8>, Rest<'a>), ReadFault>
    ensures { Gives (λ x. (x.0, left x.1)) result (datum_at (left rest.entry)) }
{
    if !comes(rest, Mark::OpenBracket) {
        return Ok((None, rest));
    }
    let rest = take_mark(rest, Mark::OpenBracket)?;
    let (k, rest) = small_number(rest)?;
    let rest = take_mark(rest, Mark::CloseBracket)?;
    Ok((Some(k), rest))
}

/// An expression of which these steps are the rest.
fn chain(alloc: Global, first: Expr, steps: Vec<Step>) -> Result<Expr, AllocError>
    ensures { IfOk result (λ e.
        expr_view e ≡ chain_of (expr_view first, map step_view steps.items)) }
{
    if steps.is_empty() {
        return Ok(first);
    }
    let mut steps = steps;
    steps.shrink_to_fit();
    Ok(Expr::Chain(Box::new(alloc, Chain { first, steps })?))
}

/// An operator whose operands stand at a level, and its right side.
#[cycle(expression)]
#[tactic(auto, unfolding(crate::specs::action_reading::ExprReading::step_at))]
fn step<'a>(
    alloc: Global,
    k: usize,
    depth: usize,
    rest: Rest<'a>,
) -> Result<(Step, Rest<'a>), ReadFault>
    ensures { Gives (λ x. (step_view x.0, left x.1)) result
        (step_at k (level k (operand depth)) (left rest.entry)) }
{
    let Some(op) = op_at(rest, k) else {
        return Err(ReadFault::Syntax(place(rest)));
    };
    let (operand, rest) = level(alloc, k, depth, skip(rest))?;
    Ok((Step { op, operand }, rest))
}

/// As many of them as there are.
#[cycle(expression)]
fn steps<'a>(
    alloc: Global,
    k: usize,
    depth: usize,
    rest: Rest<'a>,
) -> Result<(Vec<Step>, Rest<'a>), ReadFault>
    ensures { Gives (λ x. (map step_view x.0.items, left x.1)) result
        (all_while (op_comes k) (step_at k (level k (operand depth))) (left rest.entry)) }
{
    let mut found = Vec::new(alloc);
    let mut rest = rest;
    while op_comes(rest, k) {
        let (one, after) = step(alloc, k, depth, rest)?;
        found.push(one)?;
        rest = after;
    }
    Ok((found, rest))
}

/// An expression of a level.
#[cycle(expression)]
pub fn level<'a>(
    alloc: Global,
    k: usize,
    depth: usize,
    rest: Rest<'a>,
) -> Result<(Expr, Rest<'a>), ReadFault>
    ensures { Gives (λ x. (expr_view x.0, left x.1)) result
        (level k (operand depth) (left rest.entry)) }
{
    if k == 0 {
        return operand(alloc, depth, rest);
    }
    let (first, rest) = level(alloc, k - 1, depth, rest)?;
    let (others, rest) = steps(alloc, k - 1, depth, rest)?;
    Ok((chain(alloc, first, others)?, rest))
}

/// An expression that nests in an operand.
#[cycle(expression)]
fn inside<'a>(alloc: Global, depth: usize, rest: Rest<'a>) -> Result<(Expr, Rest<'a>), ReadFault>
    ensures { Gives (λ x. (expr_view x.0, left x.1)) result
        (level 5 (under depth) (left rest.entry)) }
{
    if depth == 0 {
        return Err(ReadFault::Syntax(place(rest)));
    }
    level(alloc, WEAKEST, depth - 1, rest)
}

/// An operand that nests in an operand.
#[cycle(expression)]
fn nested<'a>(alloc: Global, depth: usize, rest: Rest<'a>) -> Result<(Expr, Rest<'a>), ReadFault>
    ensures { Gives (λ x. (expr_view x.0, left x.1)) result (under depth (left rest.entry)) }
{
    if depth == 0 {
        return Err(ReadFault::Syntax(place(rest)));
    }
    operand(alloc, depth - 1, rest)
}

/// Behind an opening parenthesis.
#[cycle(expression)]
fn paren<'a>(alloc: Global, depth: usize, rest: Rest<'a>) -> Result<(Expr, Rest<'a>), ReadFault>
    ensures { Gives (λ x. (expr_view x.0, left x.1)) result (reads_as (λ x. a_paren x.0)
        (level 5 (under depth) ⊕ mark marks.CloseParen) (left rest.entry)) }
{
    let (inner, rest) = inside(alloc, depth, rest)?;
    let rest = take_mark(rest, Mark::CloseParen)?;
    Ok((Expr::Paren(Box::new(alloc, inner)?), rest))
}

/// Behind an operator before a value.
#[cycle(expression)]
fn unary<'a>(
    alloc: Global,
    op: UnaryOp,
    depth: usize,
    rest: Rest<'a>,
) -> Result<(Expr, Rest<'a>), ReadFault>
    ensures { Gives (λ x. (expr_view x.0, left x.1)) result
        (reads_as (a_unary op) (under depth) (left rest.entry)) }
{
    let (inner, rest) = nested(alloc, depth, rest)?;
    let operand = inner;
    let unary = Box::new(alloc, Unary { op, operand })?;
    Ok((Expr::Unary(unary), rest))
}

/// An operand.
#[cycle(expression)]
#[tactic(auto, unfolding(crate::specs::action_reading::ExprReading::operand_with, room_tokens::specs::action_tokens::Single::name_at))]
pub fn operand<'a>(
    alloc: Global,
    depth: usize,
    rest: Rest<'a>,
) -> Result<(Expr, Rest<'a>), ReadFault>
    ensures { Gives (λ x. (expr_view x.0, left x.1)) result (operand depth (left rest.entry)) }
{
    let Some((token, after)) = next(rest) else {
        return Err(ReadFault::Syntax(place(rest)));
    };
    match token {
        ActionToken::Number(_, n) => Ok((Expr::Number(n), after)),
        ActionToken::Word(_, ActionWord::True) => Ok((Expr::True, after)),
        ActionToken::Word(_, ActionWord::False) => Ok((Expr::False, after)),
        ActionToken::Word(_, ActionWord::Data) => {
            let (k, rest) = datum(after)?;
            Ok((Expr::Data(k), rest))
        }
        ActionToken::Word(_, ActionWord::Place) => Ok((Expr::Place, after)),
        ActionToken::Word(_, ActionWord::Me) => Ok((Expr::Me, after)),
        ActionToken::Name { .. } => {
            let (path, rest) = path(alloc, rest)?;
            Ok((attribute(alloc, path)?, rest))
        }
        ActionToken::Mark(_, Mark::OpenParen) => paren(alloc, depth, after),
        ActionToken::Mark(_, Mark::Minus) => unary(alloc, UnaryOp::Negate, depth, after),
        ActionToken::Mark(_, Mark::Bang) => unary(alloc, UnaryOp::Not, depth, after),
        _ => Err(ReadFault::Syntax(place(rest))),
    }
}
