//! Charts of actor classes by names, as code holds them.
//!
//! A chart is read from a state machine's tree once and compiled into tables once: names are owned,
//! programs are already bound to the class. Contracts see a chart by `chart_view`.

use action_program::{Bound, BoundExpr};
use chart_run::Trigger;
use room_ast::{Name, PointKind};
use room_kinds::Sequence;

/// Where a transition of a graph begins.
#[derive(Drop)]
pub enum Source {
    Initial,
    State(Name),
    /// A transition point of the graph.
    Point(Name),
    Choice(Name),
    /// An entry point of the graph.
    Entry(Name),
    /// An exit point of the graph of a state.
    Exit { point: Name, state: Name },
}

/// Where a transition of a graph leads.
#[derive(Drop)]
pub enum Target {
    State(Name),
    Choice(Name),
    /// A transition point of the graph of a state.
    Point { point: Name, state: Name },
    /// An entry point of the graph of a state.
    Entry { point: Name, state: Name },
    /// An exit point of the graph itself.
    Exit(Name),
}

/// A transition. Without a program it has the empty one; only branches of choice points have
/// conditions.
#[derive(Drop)]
pub struct Transition {
    pub source: Source,
    pub target: Target,
    pub triggers: Vec<Trigger>,
    pub condition: Option<BoundExpr>,
    pub action: Bound,
}

/// A state with its actions on entry and on exit.
#[derive(Drop)]
pub struct State {
    pub name: Name,
    pub entry: Bound,
    pub exit: Bound,
}

/// A point of a graph.
#[derive(Drop)]
pub struct Point {
    pub kind: PointKind,
    pub name: Name,
}

/// The graph of the state at `owner`: the names from that state's own to the outermost state's. The
/// top graph's owner is empty.
#[derive(Drop)]
pub struct Graph {
    pub owner: Sequence<Name>,
    pub states: Vec<State>,
    pub points: Vec<Point>,
    pub choices: Sequence<Name>,
    pub transitions: Vec<Transition>,
}

/// The graphs of a chart, each before those of its states, and the initial values of the class's
/// attributes.
#[derive(Drop)]
pub struct Chart {
    pub graphs: Vec<Graph>,
    pub values: Vec<i64>,
}
