//! The value of an expression.
ghost use Rattle.std.specs.Prelude.{◌≡◌, ◌++◌, ◌+◌, ◌*◌, pos, IfOk, OnOk};
ghost use Rattle.action_program.specs.Arithmetic.{truth, is_true, quotient, rest, unary_value, binary_value, zero_notes, divides};
ghost use Rattle.action_program.specs.Numbered.{expr_view, steps_of, step_view};
ghost use Rattle.action_program.specs.Meaning.{datum, place_of, value_of, value_behind, notes_of, notes_behind};
ghost use Rattle.std.specs.Prelude.{map};

use crate::bound::{BoundExpr, BoundStep};
use crate::moment::{Effects, Moment, Vars};
use crate::operator::{BinaryOp, UnaryOp};
use room_kinds::{Note, Notes};
use std::alloc::AllocError;

fn truth(b: bool) -> i64
    ensures { result ≡ truth b }
{
    if b { 1 } else { 0 }
}

fn is_true(x: i64) -> bool
    ensures { result ≡ is_true x }
{
    x != 0
}

fn datum(at: &Moment, k: u8) -> i64
    ensures { result ≡ datum at.now k }
{
    if !at.has_message {
        return 0;
    }
    match at.payload.numbers().get(usize::from(k)) {
        Some(number) => *number,
        None => 0,
    }
}

fn place(at: &Moment) -> i64
    ensures { result ≡ place_of at.now }
{
    if at.has_message {
        i64::from(at.place)
    } else {
        0
    }
}

fn own_number(slot: u16, generation: u32) -> i64
    ensures { result ≡ pos (slot * 1048576 + generation) }
{
    i64::from(slot) * 1_048_576 + i64::from(generation)
}

fn quotient(x: i64, y: i64) -> i64
    ensures { result ≡ quotient x y }
{
    if y == 0 { 0 } else { x.wrapping_div(y) }
}

fn rest(x: i64, y: i64) -> i64
    ensures { result ≡ rest x y }
{
    if y == 0 { 0 } else { x.wrapping_rem(y) }
}

#[tactic(auto, using(std::proofs::lemmas::Int::wraps))]
fn unary_value(op: UnaryOp, x: i64) -> i64
    ensures { result ≡ unary_value op x }
{
    match op {
        UnaryOp::Negate => x.wrapping_neg(),
        UnaryOp::Not => truth(x == 0),
    }
}

#[tactic(auto, using(std::proofs::lemmas::Int::wraps))]
fn binary_value(op: BinaryOp, x: i64, y: i64) -> i64
    ensures { result ≡ binary_value op x y }
{
    match op {
        BinaryOp::Or => truth(is_true(x) || is_true(y)),
        BinaryOp::And => truth(is_true(x) && is_true(y)),
        BinaryOp::Equal => truth(x == y),
        BinaryOp::NotEqual => truth(x != y),
        BinaryOp::Less => truth(x < y),
        BinaryOp::LessEqual => truth(x <= y),
        BinaryOp::Greater => truth(x > y),
        BinaryOp::GreaterEqual => truth(x >= y),
        BinaryOp::Add => x.wrapping_add(y),
        BinaryOp::Subtract => x.wrapping_sub(y),
        BinaryOp::Multiply => x.wrapping_mul(y),
        BinaryOp::Divide => quotient(x, y),
        BinaryOp::Remainder => rest(x, y),
    }
}

fn divides(op: BinaryOp) -> bool
    ensures { result ≡ divides op }
{
    match op {
        BinaryOp::Divide | BinaryOp::Remainder => true,
        _ => false,
    }
}

/// Notes a division by zero.
fn note_zero(op: BinaryOp, y: i64, notes: &mut Notes) -> Result<(), AllocError>
    ensures { OnOk result (notes.new ≡ notes.old ++ zero_notes op y) }
{
    if y == 0 && divides(op) {
        notes.push(Note::Zero)?;
    }
    Ok(())
}

/// The value of an expression; its notes go to the end.
#[cycle(value)]
pub fn value(e: &BoundExpr, vars: &Vars, at: &Moment, notes: &mut Notes) -> Result<i64, AllocError>
    ensures value { IfOk result (λ x. x ≡ value_of (expr_view e.now) vars.now at.now) }
    ensures notes { OnOk result (notes.new ≡ notes.old ++ notes_of (expr_view e.now) vars.now at.now) }
{
    match e {
        BoundExpr::Number(n) => Ok(*n),
        BoundExpr::Data(k) => Ok(datum(at, *k)),
        BoundExpr::Place => Ok(place(at)),
        BoundExpr::Me => Ok(own_number(at.me.slot.0, at.me.generation.0)),
        BoundExpr::Attribute(k) => Ok(vars.number(*k)),
        BoundExpr::Unary(unary) => {
            let x = value(&unary.operand, vars, at, notes)?;
            Ok(unary_value(unary.op, x))
        }
        BoundExpr::Chain(chain) => {
            let x = value(&chain.first, vars, at, notes)?;
            value_behind(&chain.steps, vars, at, x, notes)
        }
    }
}

/// The value of a chain, from the value of its first operand.
#[cycle(value)]
fn value_behind(
    steps: &Vec<BoundStep>,
    vars: &Vars,
    at: &Moment,
    first: i64,
    notes: &mut Notes,
) -> Result<i64, AllocError>
    ensures value { IfOk result (λ x. x ≡ value_behind (steps_of (map step_view steps.now.items)) vars.now at.now first) }
    ensures notes { OnOk result (notes.new ≡ notes.old ++ notes_behind (steps_of (map step_view steps.now.items)) vars.now at.now) }
{
    let mut x = first;
    for step in steps {
        let y = value(&step.operand, vars, at, notes)?;
        note_zero(step.op, y, notes)?;
        x = binary_value(step.op, x, y);
    }
    Ok(x)
}

/// Whether a condition holds: whether its value isn't 0. Its notes go to the end, and it asks for
/// nothing.
pub fn test(e: &BoundExpr, vars: &Vars, at: &Moment, out: &mut Effects) -> Result<bool, AllocError>
    ensures value { IfOk result (λ b. b ≡ is_true (value_of (expr_view e.now) vars.now at.now)) }
    ensures notes { OnOk result (out.new.notes ≡ out.old.notes ++ notes_of (expr_view e.now) vars.now at.now) }
    ensures commands { out.new.commands ≡ out.old.commands }
{
    let x = value(e, vars, at, &mut out.notes)?;
    Ok(is_true(x))
}
