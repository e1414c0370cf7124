//! Copies of charts.
ghost use Rattle.std.specs.Prelude.{◌≡◌, IfOk, map};
ghost use Rattle.room_ast.specs.ChartTree.{item_view, state_view, body_view, refinement_view};

use crate::copies::codes::{copy_code, copy_code_if, copy_source, copy_target, copy_triggers_if};
use crate::copies::parts::copy_name_if;
use room_ast::{
    Change, ChoicePoint, Dotted, GraphItem, Name, Point, Refinement, State, StateBody, Transition,
    TransitionBody,
};
use room_kinds::Sequence;
use std::alloc::{AllocError, Global};

fn copy_choice(alloc: Global, choice: &ChoicePoint) -> Result<ChoicePoint, AllocError>
    ensures { IfOk result (λ copy. copy ≡ choice.now) }
{
    let name = choice.name.copy(alloc)?;
    Ok(ChoicePoint { name })
}

fn copy_point(alloc: Global, point: &Point) -> Result<Point, AllocError>
    ensures { IfOk result (λ copy. copy ≡ point.now) }
{
    let name = point.name.copy(alloc)?;
    Ok(Point {
        kind: point.kind,
        name,
    })
}

fn copy_transition_body(alloc: Global, body: &TransitionBody) -> Result<TransitionBody, AllocError>
    ensures { IfOk result (λ copy. copy ≡ body.now) }
{
    let condition = copy_code_if(alloc, &body.condition)?;
    let action = copy_code_if(alloc, &body.action)?;
    let triggers = copy_triggers_if(alloc, &body.triggers)?;
    Ok(TransitionBody {
        triggers,
        condition,
        action,
    })
}

fn copy_transition_body_if(
    alloc: Global,
    body: &Option<TransitionBody>,
) -> Result<Option<TransitionBody>, AllocError>
    ensures { IfOk result (λ copy. copy ≡ body.now) }
{
    match body {
        Some(body) => Ok(Some(copy_transition_body(alloc, body)?)),
        None => Ok(None),
    }
}

fn copy_transition(alloc: Global, transition: &Transition) -> Result<Transition, AllocError>
    ensures { IfOk result (λ copy. copy ≡ transition.now) }
{
    let name = copy_name_if(alloc, &transition.name)?;
    let source = copy_source(alloc, &transition.source)?;
    let target = copy_target(alloc, &transition.target)?;
    let body = copy_transition_body_if(alloc, &transition.body)?;
    Ok(Transition {
        name,
        source,
        target,
        body,
    })
}

fn copy_names(alloc: Global, names: &Sequence<Name>) -> Result<Sequence<Name>, AllocError>
    ensures { IfOk result (λ copy. copy ≡ names.now) }
{
    let mut copies = Vec::new(alloc);
    for name in names.as_slice() {
        copies.push(name.copy(alloc)?)?;
    }
    Ok(Sequence::from(copies))
}

fn copy_path(alloc: Global, path: &Dotted) -> Result<Dotted, AllocError>
    ensures { IfOk result (λ copy. copy ≡ path.now) }
{
    let first = path.first.copy(alloc)?;
    let others = copy_names(alloc, &path.others)?;
    Ok(Dotted { first, others })
}

/// A copy of an item of a graph. The calls nest as deep as graphs do.
#[cycle(copying)]
pub(crate) fn copy_item(alloc: Global, item: &GraphItem) -> Result<GraphItem, AllocError>
    ensures { IfOk result (λ copy. item_view copy ≡ item_view item.now) }
{
    match item {
        GraphItem::State(state) => Ok(GraphItem::State(copy_state(alloc, state)?)),
        GraphItem::Choice(choice) => Ok(GraphItem::Choice(copy_choice(alloc, choice)?)),
        GraphItem::Point(point) => Ok(GraphItem::Point(copy_point(alloc, point)?)),
        GraphItem::Transition(transition) => {
            let copy = copy_transition(alloc, transition)?;
            Ok(GraphItem::Transition(Box::new(alloc, copy)?))
        }
        GraphItem::Refinement(refinement) => {
            let copy = copy_refinement(alloc, refinement)?;
            Ok(GraphItem::Refinement(Box::new(alloc, copy)?))
        }
    }
}

#[cycle(copying)]
pub(crate) fn copy_state(alloc: Global, state: &State) -> Result<State, AllocError>
    ensures { IfOk result (λ copy. state_view copy ≡ state_view state.now) }
{
    let name = state.name.copy(alloc)?;
    match &state.body {
        Some(body) => {
            let body = copy_body(alloc, body)?;
            let body = Box::new(alloc, body)?;
            Ok(State {
                name,
                body: Some(body),
            })
        }
        None => Ok(State { name, body: None }),
    }
}

#[cycle(copying)]
pub(crate) fn copy_body(alloc: Global, body: &StateBody) -> Result<StateBody, AllocError>
    ensures { IfOk result (λ copy. body_view copy ≡ body_view body.now) }
{
    let entry = copy_code_if(alloc, &body.entry)?;
    let exit = copy_code_if(alloc, &body.exit)?;
    match &body.subgraph {
        Some(items) => {
            let items = copy_items(alloc, items)?;
            Ok(StateBody {
                entry,
                exit,
                subgraph: Some(items),
            })
        }
        None => Ok(StateBody {
            entry,
            exit,
            subgraph: None,
        }),
    }
}

#[cycle(copying)]
fn copy_refinement(alloc: Global, refinement: &Refinement) -> Result<Refinement, AllocError>
    ensures { IfOk result (λ copy. refinement_view copy ≡ refinement_view refinement.now) }
{
    let path = copy_path(alloc, &refinement.path)?;
    match &refinement.change {
        Change::State(body) => {
            let body = copy_body(alloc, body)?;
            Ok(Refinement {
                path,
                change: Change::State(body),
            })
        }
        Change::Transition(code) => {
            let code = copy_code(alloc, code)?;
            Ok(Refinement {
                path,
                change: Change::Transition(code),
            })
        }
    }
}

#[cycle(copying)]
pub fn copy_items(alloc: Global, items: &Vec<GraphItem>) -> Result<Vec<GraphItem>, AllocError>
    ensures { IfOk result (λ copies. map item_view copies.items ≡ map item_view items.now.items) }
{
    let mut copies = Vec::with_capacity(alloc, items.len())?;
    for item in items {
        let copy = copy_item(alloc, item)?;
        copies.push(copy)?;
    }
    Ok(copies)
}
