//! Programs as they are written, with names.
//!
//! A tree keeps all that a text says, so that no two trees have the same text but for blanks. A
//! chain of operators of one level, a list of statements and a chain of `else if` are vectors, so
//! that only what nests makes a tree deep. A statement and an expression are two words, and what
//! takes more stands in a box, so that a tree takes room in proportion to its text.

ghost use Rattle.std.specs.Prelude.{◌≡◌};
ghost use Rattle.action_program.specs.Named.{path_view};

use crate::operator::{BinaryOp, FrameVerb, UnaryOp};
use room_ast::Name;
use room_kinds::Priority;
use std::slice;

/// A program: statements in order.
#[derive(Drop)]
pub struct Program {
    pub statements: Vec<Stmt>,
}

/// A path to a number of an actor.
#[derive(Drop)]
pub enum Path {
    /// An attribute.
    Attribute(Name),
    /// A number within an attribute: the parts of a dotted name.
    Within(Vec<Name>),
}

impl Path {
    /// Its parts; of an attribute its name alone.
    pub fn parts(&self) -> &[Name]
        ensures { result.now ≡ path_view self.now }
    {
        match self {
            Path::Attribute(name) => slice::from_ref(name),
            Path::Within(parts) => parts.as_slice(),
        }
    }
}

/// An expression.
#[cycle(expression)]
#[derive(Drop)]
pub enum Expr {
    Number(u64),
    /// `true`
    True,
    /// `false`
    False,
    /// `data`, or `data[k]`
    Data(Option<u8>),
    /// `place`
    Place,
    /// `self`
    Me,
    /// An attribute.
    Attribute(Box<Name>),
    /// A number within an attribute: the parts of a dotted name.
    Within(Box<Vec<Name>>),
    /// An expression in parentheses.
    Paren(Box<Expr>),
    Unary(Box<Unary>),
    Chain(Box<Chain>),
}

const _: () = prove!(size_of::<Expr>() <= 16);

/// An operator before a value.
#[cycle(expression)]
#[derive(Drop)]
pub struct Unary {
    pub op: UnaryOp,
    pub operand: Expr,
}

/// Operators of one level with their right sides, from left to right, behind their first operand.
#[cycle(expression)]
#[derive(Drop)]
pub struct Chain {
    pub first: Expr,
    pub steps: Vec<Step>,
}

/// An operator and its right side.
#[cycle(expression)]
#[derive(Drop)]
pub struct Step {
    pub op: BinaryOp,
    pub operand: Expr,
}

/// A statement.
#[cycle(statement)]
#[derive(Drop)]
pub enum Stmt {
    /// `;`
    Empty,
    Assign(Box<AssignStmt>),
    If(Box<IfStmt>),
    Repeat(Box<RepeatStmt>),
    Send(Box<SendStmt>),
    Defer,
    Recall,
    RecallAll,
    Frame(Box<FrameStmt>),
    Import(Box<ImportStmt>),
    Register(Box<RegisterStmt>),
    Withdraw(Box<WithdrawStmt>),
}

const _: () = prove!(size_of::<Stmt>() <= 16);

/// A path, `=`, and an expression.
#[derive(Drop)]
pub struct AssignStmt {
    pub attribute: Path,
    pub value: Expr,
}

/// `if`, its chain of `else if`, and its `else`, if there is one. There is a branch at least.
#[cycle(statement)]
#[derive(Drop)]
pub struct IfStmt {
    pub branches: Vec<Branch>,
    pub otherwise: Option<Vec<Stmt>>,
}

/// A condition and its block.
#[cycle(statement)]
#[derive(Drop)]
pub struct Branch {
    pub condition: Expr,
    pub body: Vec<Stmt>,
}

/// `repeat`, a number, and a block.
#[cycle(statement)]
#[derive(Drop)]
pub struct RepeatStmt {
    pub times: u64,
    pub body: Vec<Stmt>,
}

/// A send at a place of a port; without a place, at all.
#[derive(Drop)]
pub struct SendStmt {
    pub port: Name,
    pub place: Option<Expr>,
    pub signal: Name,
    pub arguments: Vec<Expr>,
    /// The word behind `at`, if there is one.
    pub prio: Option<Priority>,
}

/// A verb, a reference, and an index in brackets, if there is one.
#[derive(Drop)]
pub struct FrameStmt {
    pub verb: FrameVerb,
    pub reference: Name,
    pub index: Option<Expr>,
}

/// `import`, a reference, an index in brackets, if there is one, `=`, and an expression.
#[derive(Drop)]
pub struct ImportStmt {
    pub reference: Name,
    pub index: Option<Expr>,
    pub id: Expr,
}

/// `register`, a port, `as`, and a name of a service.
#[derive(Drop)]
pub struct RegisterStmt {
    pub port: Name,
    pub name: Name,
}

/// `withdraw`, and a port.
#[derive(Drop)]
pub struct WithdrawStmt {
    pub port: Name,
}
