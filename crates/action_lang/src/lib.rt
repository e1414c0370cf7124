//! The action language: its parser, its check against a class, and its evaluator.
//!
//! A text is read (`parse_action`, `parse_cond`), checked against what its class has
//! (`check_action`, `check_cond`), and then run as often as is wanted (`eval`, `test`). The language
//! is this project's own.
#![tactic(auto)]

pub mod action_check;

pub use crate::action_check::{ServiceNames, check_action, check_cond};
pub use action_parse::{parse_action, parse_cond};
pub use action_program::{
    ActionFault, Argument, AssignStmt, BinaryOp, Bound, BoundAssign, BoundBranch, BoundChain,
    BoundExpr, BoundFrame, BoundIf, BoundImport, BoundRepeat, BoundSend, BoundStep, BoundStmt,
    BoundUnary, Branch, Chain, Effects, Expr, FrameStmt, FrameVerb, IfStmt, ImportStmt, Moment,
    Path, Program, RegisterStmt, RepeatStmt, SendStmt, Step, Stmt, Unary, UnaryOp, Vars,
    WithdrawStmt, eval, test,
};
