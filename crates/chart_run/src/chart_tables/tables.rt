//! The tables of a chart.
ghost use Rattle.std.specs.Prelude.{◌≡◌, nat_eq};
ghost use Rattle.std.specs.List.{list_any};
ghost use Rattle.chart_model.specs.chart_plan.Handling.{is_inside};
ghost use Rattle.chart_model.specs.Named.{same_event};
ghost use Rattle.chart_run.specs.chart_tables.Tables.{plan, arrow_views, event_view, graph_arrows, own_at, shared_at, up_at};

use action_program::{Bound, BoundExpr};

/// A message of a port, both by number.
#[derive(Clone, Copy, Drop, PartialEq, Eq)]
pub struct Event {
    pub port: u16,
    pub signal: u16,
}

/// The events of a trigger, and its guard, if it has one.
#[derive(Drop)]
pub struct Trigger {
    pub events: Vec<Event>,
    pub guard: Option<BoundExpr>,
}

/// A transition: what triggers it, or the condition of a branch, its action, and the node that it
/// leads to.
#[derive(Drop)]
pub struct Arrow {
    pub triggers: Vec<Trigger>,
    pub condition: Option<BoundExpr>,
    pub action: Bound,
    pub target: usize,
}

/// A state: itself and the composite states that have it, from inner to outer; its actions on entry
/// and on exit; the transitions from it; and the graph that holds it.
#[derive(Drop)]
pub struct Row {
    pub up: Vec<u16>,
    pub entry: Bound,
    pub exit: Bound,
    pub own: Vec<Arrow>,
    pub graph: usize,
}

/// Where a transition leads.
#[derive(Drop)]
pub enum Node {
    /// A state without a graph: the chain ends there.
    Simple(u16),
    /// A composite state, with the initial transition of its graph.
    Border(u16, Arrow),
    /// A choice point: the branches with a condition, and the one without.
    Choice(Vec<Arrow>, Arrow),
    /// An entry point of a state, with its continuation.
    Entry(u16, Arrow),
    /// An exit point of a state, with its continuation outside.
    Exit(u16, Arrow),
}

/// The tables of a chart: its states, for each graph the transitions from its transition points, the
/// nodes, each of which leads to lower ones, the initial transition of the top graph, and the initial
/// values of the class's attributes.
#[derive(Drop)]
pub struct Tables {
    pub states: Vec<Row>,
    pub graphs: Vec<Vec<Arrow>>,
    pub nodes: Vec<Node>,
    pub initial: Arrow,
    pub values: Vec<i64>,
}

impl Event {
    /// Whether two events are the same.
    pub fn is(self, other: Event) -> bool
        ensures { result ≡ same_event (event_view self) (event_view other) }
    {
        self.port == other.port && self.signal == other.signal
    }
}

impl Tables {
    /// A state and the composite states that have it, from inner to outer.
    pub fn up(&self, state: u16) -> &[u16]
        ensures { result.now ≡ up_at self.now state }
    {
        match self.states.get(usize::from(state)) {
            Some(row) => &row.up,
            None => &[],
        }
    }

    /// The transitions from a state.
    pub fn own(&self, state: u16) -> &[Arrow]
        ensures { arrow_views result.now ≡ own_at self.now state }
    {
        match self.states.get(usize::from(state)) {
            Some(row) => &row.own,
            None => &[],
        }
    }

    /// The transitions from transition points of a graph.
    fn graph(&self, graph: usize) -> &[Arrow]
        ensures { arrow_views result.now ≡ graph_arrows self.now graph }
    {
        match self.graphs.get(graph) {
            Some(arrows) => arrows,
            None => &[],
        }
    }

    /// The transitions from transition points of the graph that holds a state.
    pub fn shared(&self, state: u16) -> &[Arrow]
        ensures { arrow_views result.now ≡ shared_at self.now state }
    {
        match self.states.get(usize::from(state)) {
            Some(row) => self.graph(row.graph),
            None => &[],
        }
    }

    /// Whether the path that ends at `leaf` runs through a state, or ends there.
    fn is_on(&self, leaf: u16, state: u16) -> bool
        ensures { result ≡ list_any (λ q. nat_eq q state) (up_at self.now leaf) }
    {
        self.up(leaf).iter().any(|q| *q == state)
    }

    /// Whether a state is composite and the path that ends at `leaf` runs through it.
    #[tactic(auto, unfolding(chart_model::specs::chart_plan::Handling::is_inside))]
    pub fn is_inside(&self, leaf: u16, state: u16) -> bool
        ensures { result ≡ is_inside (plan self.now) leaf state }
    {
        self.is_on(leaf, state) && state != leaf
    }
}
