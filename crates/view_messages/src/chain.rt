//! What ran in the chain of a transition: exits, actions and entries, and how choice points chose, by the tree of the
//! chart.
use crate::chart_replays::Passed;
use crate::transitions::{Incoming, put_code, put_transition};
use crate::tried::graph_of;
use journal::naming;
use room_ast::{Code, GraphItem, PointKind, Source, State, StateMachine, Target, Transition};
use room_kinds::SlotId;
use room_wiring::Wiring;
use std::alloc::AllocError;
use view_pages::Page;

/// A graph, and the name of the state that has it; nothing for the top graph.
#[derive(Clone, Copy, Drop)]
pub(crate) struct Graph<'a> {
    pub items: &'a [GraphItem],
    pub owner: &'a [u8],
}

/// The steps of a chain at an actor of a slot; none where they are not known.
#[derive(Clone, Copy)]
pub struct Chain<'a> {
    pub wiring: &'a Wiring,
    pub slot: SlotId,
    pub passed: &'a [Passed],
}

/// No message: no guard of a transition is shown.
const NOTHING: Incoming<'static> = Incoming {
    signal: b"",
    port: b"",
};

/// The state of a graph with a name.
fn state_in<'a>(items: &'a [GraphItem], name: &[u8]) -> Option<&'a State> {
    for item in items {
        if let GraphItem::State(state) = item {
            if state.name.is(name) {
                return Some(state);
            }
        }
    }
    None
}

/// Whether a point of a graph is a transition point.
fn is_transition_point(items: &[GraphItem], name: &[u8]) -> bool {
    for item in items {
        if let GraphItem::Point(point) = item {
            if point.kind == PointKind::Transition && point.name.is(name) {
                return true;
            }
        }
    }
    false
}

/// Where a transition that isn't triggered begins.
#[derive(Clone, Copy)]
enum Begins<'a> {
    Initially,
    /// At a point of the graph, by its name.
    Point(&'a [u8]),
    /// At a point of a state of the graph, both by name.
    PointOf(&'a [u8], &'a [u8]),
}

fn begins_at(source: &Source, begins: Begins<'_>) -> bool {
    match (source, begins) {
        (Source::Initial, Begins::Initially) => true,
        (Source::At(Target::My(name)), Begins::Point(point)) => name.is(point),
        (Source::At(Target::Of { point, state }), Begins::PointOf(name, owner)) => {
            point.is(name) && state.is(owner)
        }
        _ => false,
    }
}

/// The first transition of a graph that begins so.
fn transition_from<'a>(items: &'a [GraphItem], begins: Begins<'_>) -> Option<&'a Transition> {
    for item in items {
        if let GraphItem::Transition(transition) = item {
            let transition: &Transition = transition;
            if begins_at(&transition.source, begins) {
                return Some(transition);
            }
        }
    }
    None
}

fn condition_of(transition: &Transition) -> Option<&Code> {
    match &transition.body {
        Some(body) => body.condition.as_ref(),
        None => None,
    }
}

/// Whether a transition of a graph is a branch of a choice point. A bare name means a state where there is one.
fn is_branch(items: &[GraphItem], source: &Source, choice: &[u8]) -> bool {
    match source {
        Source::At(Target::Choice(name)) => name.is(choice),
        Source::At(Target::Bare(name)) => name.is(choice) && state_in(items, choice).is_none(),
        _ => false,
    }
}

/// The branch of a choice point that is taken where so many conditions don't hold.
fn branch_of<'a>(items: &'a [GraphItem], choice: &[u8], before: usize) -> Option<&'a Transition> {
    let mut left = before;
    let mut default = None;
    for item in items {
        if let GraphItem::Transition(transition) = item {
            let transition: &Transition = transition;
            if is_branch(items, &transition.source, choice) {
                match condition_of(transition) {
                    Some(_) if left == 0 => return Some(transition),
                    Some(_) => left = left.saturating_sub(1),
                    None => default = Some(transition),
                }
            }
        }
    }
    default
}

/// The choice point to which a transition of a graph leads.
fn choice_of<'a>(items: &[GraphItem], target: &'a Target) -> Option<&'a [u8]> {
    match target {
        Target::Choice(name) => Some(name.as_bytes()),
        Target::Bare(name) if state_in(items, name.as_bytes()).is_none() => Some(name.as_bytes()),
        _ => None,
    }
}

/// Goes into the graph of a state of the innermost graph.
fn go_into<'a>(graphs: &mut Vec<Graph<'a>>, name: &'a [u8]) -> Result<bool, AllocError> {
    let Some(graph) = graphs.last() else {
        return Ok(false);
    };
    let Some(state) = state_in(graph.items, name) else {
        return Ok(false);
    };
    graphs.push(Graph {
        items: graph_of(state),
        owner: name,
    })?;
    Ok(true)
}

/// The items of the innermost graph.
fn innermost<'a>(graphs: &[Graph<'a>]) -> &'a [GraphItem] {
    match graphs.last() {
        Some(graph) => graph.items,
        None => &[],
    }
}

/// The transition that goes on behind one that leads to no choice point; the graphs are then those around it.
fn goes_on<'a>(
    graphs: &mut Vec<Graph<'a>>,
    target: &'a Target,
) -> Result<Option<&'a Transition>, AllocError> {
    let begins = match target {
        Target::Bare(name) | Target::Choice(name) => {
            go_into(graphs, name.as_bytes())?;
            Begins::Initially
        }
        Target::My(point) => match graphs.pop() {
            Some(left) => Begins::PointOf(point.as_bytes(), left.owner),
            None => Begins::Initially,
        },
        Target::Of { point, state } => {
            go_into(graphs, state.as_bytes())?;
            if is_transition_point(innermost(graphs.as_slice()), point.as_bytes()) {
                Begins::Initially
            } else {
                Begins::Point(point.as_bytes())
            }
        }
    };
    Ok(transition_from(innermost(graphs.as_slice()), begins))
}

/// A code that ran, under what it is called.
fn tell_code(page: &mut Page, what: &[u8], code: Option<&Code>) {
    if let Some(code) = code {
        page.put(b"        ");
        page.put(what);
        page.put(b" ");
        put_code(page, code);
        page.end_line();
    }
}

fn tell_action(page: &mut Page, transition: &Transition) {
    if let Some(body) = &transition.body {
        tell_code(page, b"action", body.action.as_ref());
    }
}

/// A branch with its condition.
fn put_branch(page: &mut Page, branch: &Transition) {
    put_transition(page, branch, NOTHING);
    if let Some(code) = condition_of(branch) {
        page.put(b" cond ");
        put_code(page, code);
    }
}

/// The branch that a choice point took, and those before it, whose conditions didn't hold.
fn tell_branches(
    page: &mut Page,
    items: &[GraphItem],
    choice: &[u8],
    before: usize,
    taken: &Transition,
) {
    page.put(b"        at ");
    page.put(choice);
    page.put(b" by ");
    put_branch(page, taken);
    page.end_line();
    for place in 0..before {
        if let Some(branch) = branch_of(items, choice, place) {
            page.put(b"            after ");
            put_branch(page, branch);
            page.put_line(b", which did not hold");
        }
    }
}

/// The state of a chart with a label.
fn state_of<'a>(machine: &'a StateMachine, label: &[u8]) -> Option<&'a State> {
    let mut items = machine.items.as_slice();
    let mut found = None;
    for name in label.split(|byte| *byte == b'.') {
        let state = state_in(items, name)?;
        items = graph_of(state);
        found = Some(state);
    }
    found
}

/// The exit or the entry code of a state, if it has one.
fn code_of(state: &State, is_entry: bool) -> Option<&Code> {
    match &state.body {
        Some(body) if is_entry => body.entry.as_ref(),
        Some(body) => body.exit.as_ref(),
        None => None,
    }
}

/// What ran where a state was left or entered.
fn tell_state(
    page: &mut Page,
    machine: &StateMachine,
    chain: Chain<'_>,
    state: u16,
    is_entry: bool,
) {
    let label = naming::state_label(chain.wiring, chain.slot, state);
    let Some(state) = state_of(machine, label) else {
        return;
    };
    if let Some(code) = code_of(state, is_entry) {
        let lead: &[u8] = if is_entry {
            b"        entry of "
        } else {
            b"        exit of "
        };
        page.put(lead);
        page.put(label);
        page.put(b" ");
        put_code(page, code);
        page.end_line();
    }
}

/// The transition that goes on behind another one, by the branch that a choice point chose, if it leads to one.
fn tell_next<'a>(
    page: &mut Page,
    graphs: &mut Vec<Graph<'a>>,
    before: &'a Transition,
    chosen: usize,
) -> Result<Option<&'a Transition>, AllocError> {
    let items = innermost(graphs.as_slice());
    let Some(choice) = choice_of(items, &before.target) else {
        let next = goes_on(graphs, &before.target)?;
        if let Some(transition) = next {
            page.put(b"        on by ");
            put_transition(page, transition, NOTHING);
            page.end_line();
        }
        return Ok(next);
    };
    let next = branch_of(items, choice, chosen);
    if let Some(taken) = next {
        tell_branches(page, items, choice, chosen, taken);
    }
    Ok(next)
}

/// Tells what ran in the chain of a transition that stands in these graphs.
pub(crate) fn tell_chain<'a>(
    page: &mut Page,
    machine: &'a StateMachine,
    chain: Chain<'_>,
    around: Vec<Graph<'a>>,
    taken: &'a Transition,
) -> Result<(), AllocError> {
    let mut graphs = around;
    let mut last: Option<&'a Transition> = None;
    let mut chosen = 0usize;
    for passed in chain.passed {
        match passed {
            Passed::Left(state) => tell_state(page, machine, chain, *state, false),
            Passed::Entered(state) => tell_state(page, machine, chain, *state, true),
            Passed::Chose(before) => chosen = *before,
            Passed::Went => {
                let next = match last {
                    Some(before) => tell_next(page, &mut graphs, before, chosen)?,
                    None => Some(taken),
                };
                let Some(transition) = next else {
                    return Ok(());
                };
                tell_action(page, transition);
                last = Some(transition);
            }
        }
    }
    Ok(())
}
