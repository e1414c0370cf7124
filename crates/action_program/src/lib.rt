//! Programs of the action language, and what they mean.
//!
//! A program stands in the code of a state machine: an action, a guard or a condition. The
//! language is this project's own, after the detail level of ROOM (Selic, Gullekson and Ward 1994)
//! and the action code of eTrice.
#![tactic(auto)]

mod bound;
mod evaluation;
mod fault;
mod moment;
mod operator;
mod program;
pub mod program_copies;
mod running;

pub use bound::{
    Argument, Bound, BoundAssign, BoundBranch, BoundChain, BoundExpr, BoundFrame, BoundIf,
    BoundImport, BoundRepeat, BoundSend, BoundStep, BoundStmt, BoundUnary,
};
pub use evaluation::test;
pub use fault::ActionFault;
pub use moment::{Effects, Moment, Vars};
pub use operator::{BinaryOp, FrameVerb, UnaryOp};
pub use program::{
    AssignStmt, Branch, Chain, Expr, FrameStmt, IfStmt, ImportStmt, Path, Program, RegisterStmt,
    RepeatStmt, SendStmt, Step, Stmt, Unary, WithdrawStmt,
};
pub use program_copies::{copy_guard, copy_program};
pub use running::eval;
