//! Programs whose names are numbers.
//!
//! A chain of operators of one level, a list of statements and a chain of `else if` are vectors
//! here, so that only what nests makes a tree deep. A statement and an expression are two words, and
//! what takes more stands in a box, so that a program takes room in proportion to its text.

use crate::operator::{BinaryOp, FrameVerb, UnaryOp};
use room_kinds::{NumberType, Priority};

/// A program that was checked against a class: attributes, ports, signals, references and service
/// names are numbers.
#[derive(Drop)]
pub struct Bound {
    pub statements: Vec<BoundStmt>,
}

/// An expression over numbered attributes.
#[cycle(bound_expression)]
#[derive(Drop)]
pub enum BoundExpr {
    Number(i64),
    /// The number of the message's payload at this place.
    Data(u8),
    /// The place at which the message came.
    Place,
    /// The number of the actor.
    Me,
    Attribute(u32),
    Unary(Box<BoundUnary>),
    Chain(Box<BoundChain>),
}

const _: () = prove!(size_of::<BoundExpr>() <= 16);

/// An operator before a value.
#[cycle(bound_expression)]
#[derive(Drop)]
pub struct BoundUnary {
    pub op: UnaryOp,
    pub operand: BoundExpr,
}

/// Operators of one level with their right sides, from left to right, behind their first operand.
#[cycle(bound_expression)]
#[derive(Drop)]
pub struct BoundChain {
    pub first: BoundExpr,
    pub steps: Vec<BoundStep>,
}

/// An operator and its right side.
#[cycle(bound_expression)]
#[derive(Drop)]
pub struct BoundStep {
    pub op: BinaryOp,
    pub operand: BoundExpr,
}

/// A statement over numbered names.
#[cycle(bound_statement)]
#[derive(Drop)]
pub enum BoundStmt {
    Empty,
    Assign(Box<BoundAssign>),
    If(Box<BoundIf>),
    Repeat(Box<BoundRepeat>),
    Send(Box<BoundSend>),
    Defer,
    Recall,
    RecallAll,
    Frame(Box<BoundFrame>),
    Import(Box<BoundImport>),
    Register { port: u16, name: u32 },
    Withdraw { port: u16 },
}

const _: () = prove!(size_of::<BoundStmt>() <= 16);

/// The value that an attribute gets, reduced to its type.
#[derive(Drop)]
pub struct BoundAssign {
    pub attribute: u32,
    pub kind: NumberType,
    pub value: BoundExpr,
}

/// A block that is run so often.
#[cycle(bound_statement)]
#[derive(Drop)]
pub struct BoundRepeat {
    pub times: u64,
    pub body: Vec<BoundStmt>,
}

/// What is asked of the reference with this number.
#[derive(Drop)]
pub struct BoundFrame {
    pub verb: FrameVerb,
    pub reference: u16,
    pub index: BoundExpr,
}

/// The import of an actor into the reference with this number.
#[derive(Drop)]
pub struct BoundImport {
    pub reference: u16,
    pub index: BoundExpr,
    pub id: BoundExpr,
}

/// The block of the first branch whose condition isn't 0, else the last block.
#[cycle(bound_statement)]
#[derive(Drop)]
pub struct BoundIf {
    pub branches: Vec<BoundBranch>,
    pub otherwise: Vec<BoundStmt>,
}

/// A condition and its block.
#[cycle(bound_statement)]
#[derive(Drop)]
pub struct BoundBranch {
    pub condition: BoundExpr,
    pub body: Vec<BoundStmt>,
}

/// A send at a place of a port; without a place, at all.
#[derive(Drop)]
pub struct BoundSend {
    pub port: u16,
    pub place: Option<BoundExpr>,
    pub signal: u16,
    pub arguments: Vec<Argument>,
    pub prio: Priority,
}

/// A number of a message, and the type to which it is reduced.
#[derive(Drop)]
pub struct Argument {
    pub kind: NumberType,
    pub value: BoundExpr,
}
