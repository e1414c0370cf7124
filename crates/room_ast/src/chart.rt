//! State machines.

use crate::model::Dotted;
use crate::name::Name;
use crate::text::Text;
use room_kinds::Sequence;

/// The top graph of a class.
#[derive(Drop)]
pub struct StateMachine {
    pub items: Vec<GraphItem>,
}

/// A graph has many items of a few words. What may be large stands in a box, so that a state without a
/// body costs no more than its name.
#[cycle(chart)]
#[derive(Drop)]
pub enum GraphItem {
    State(State),
    Choice(ChoicePoint),
    Point(Point),
    Transition(Box<Transition>),
    Refinement(Box<Refinement>),
}

/// A chart takes room in proportion to its text, however short its items are.
const _: () = prove!(size_of::<GraphItem>() <= 48);

/// `State` name, and its body in braces
#[cycle(chart)]
#[derive(Drop)]
pub struct State {
    pub name: Name,
    pub body: Option<Box<StateBody>>,
}

/// `entry` code, `exit` code, and `subgraph` `{` graph `}`. A state with a subgraph is composite.
#[cycle(chart)]
#[derive(Drop)]
pub struct StateBody {
    pub entry: Option<Code>,
    pub exit: Option<Code>,
    pub subgraph: Option<Vec<GraphItem>>,
}

/// What a class that extends another one changes in a state or a transition of its base.
#[cycle(chart)]
#[derive(Drop)]
pub struct Refinement {
    /// The names of the states that lead to it from the top graph, and then its own name.
    pub path: Dotted,
    pub change: Change,
}

/// What is added to what the base has.
#[cycle(chart)]
#[derive(Drop)]
pub enum Change {
    /// `RefinedState` path `{` `entry` code, `exit` code, and `subgraph` `{` graph `}` `}`
    State(StateBody),
    /// `RefinedTransition` path `{` `action` code `}`
    Transition(Code),
}

/// `ChoicePoint` name
#[derive(Drop)]
pub struct ChoicePoint {
    pub name: Name,
}

/// A word for its kind, and a name
#[derive(Drop)]
pub struct Point {
    pub kind: PointKind,
    pub name: Name,
}

#[derive(Clone, Copy, Debug, PartialEq, Eq)]
pub enum PointKind {
    Transition,
    Entry,
    Exit,
}

/// `Transition`, a name, which may be missing, `:` source `->` target, and a body in braces
#[derive(Drop)]
pub struct Transition {
    pub name: Option<Name>,
    pub source: Source,
    pub target: Target,
    pub body: Option<TransitionBody>,
}

/// Where a transition begins.
#[derive(Drop)]
pub enum Source {
    Initial,
    At(Target),
}

/// Where a transition leads.
#[derive(Drop)]
pub enum Target {
    /// A state, or else a choice point.
    Bare(Name),
    /// `cp` name: a choice point.
    Choice(Name),
    /// `my` name: a point of this graph.
    My(Name),
    /// point `of` state
    Of { point: Name, state: Name },
}

/// `triggers` `{` triggers `}`, `cond` code and `action` code
#[derive(Drop)]
pub struct TransitionBody {
    pub triggers: Option<Triggers>,
    pub condition: Option<Code>,
    pub action: Option<Code>,
}

/// Triggers joined by `or`.
#[derive(Drop)]
pub struct Triggers {
    pub first: Trigger,
    pub others: Sequence<Trigger>,
}

/// `<` events joined by `|`, and `guard` code `>`
#[derive(Drop)]
pub struct Trigger {
    pub first: Event,
    pub others: Sequence<Event>,
    pub guard: Option<Code>,
}

/// A message, or `imported`, `:` port
#[derive(Drop)]
pub struct Event {
    pub message: EventMessage,
    pub port: Name,
}

#[derive(Drop)]
pub enum EventMessage {
    Named(Name),
    /// The message `imported` of the port `frame`: its name is a word of the language.
    Imported,
}

/// Code as it is written: its texts, joined by line feeds, are a program or a condition.
#[derive(Drop)]
pub enum Code {
    /// Texts in braces.
    Texts(Sequence<CodeText>),
    /// One text without braces.
    Single(CodeText),
}

#[derive(Drop)]
pub enum CodeText {
    Str(Text),
    Block(Text),
}
