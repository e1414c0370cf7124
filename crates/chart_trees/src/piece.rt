//! The parts of a graph, as far as they are read.
ghost use Rattle.std.specs.Prelude.{◌≡◌, ℕ, List, [], ◌∷◌, ◌++◌, OnOk};
ghost use Rattle.action_program.specs.Numbered.{no_stmt};
ghost use Rattle.action_lang.specs.action_check.Answers.{Grows};
ghost use Rattle.chart_trees.specs.chart_codes.Progress.{progress};
ghost use Rattle.chart_trees.specs.Reading.{begun, point_of, with_actions, with_transition, with_inner};
ghost use Rattle.chart_trees.specs.Views.{around_view, piece_view};

use crate::around::Around;
use crate::chart_codes::{Marks, action, no_action};
use crate::chart_graphs::{Graph, Point, State, Transition};
use crate::transitions::transition;
use action_lang::action_check::ServiceNames;
use room_ast::{Code, Name, Scope};
use room_kinds::Sequence;
use std::alloc::{AllocError, Global};

/// The parts of a graph that were read, the graphs of its states, and what reading has met.
#[derive(Drop)]
pub(crate) struct Piece {
    pub(crate) states: Vec<State>,
    pub(crate) points: Vec<Point>,
    pub(crate) choices: Sequence<Name>,
    pub(crate) transitions: Vec<Transition>,
    pub(crate) inner: Vec<Graph>,
    pub(crate) marks: Marks,
}

/// A graph of which nothing is read yet.
pub(crate) fn begun(alloc: Global, marks: Marks) -> Piece
    ensures { (names : List (List ℕ)) → piece_view result names ≡ begun (progress marks names) }
{
    Piece {
        states: Vec::new(alloc),
        points: Vec::new(alloc),
        choices: Sequence::new(alloc),
        transitions: Vec::new(alloc),
        inner: Vec::new(alloc),
        marks,
    }
}

pub(crate) fn add_choice(alloc: Global, name: &Name, piece: &mut Piece) -> Result<(), AllocError>
    ensures { OnOk result ((names : List (List ℕ))
        → piece_view piece.new names
        ≡ record (piece_view piece.old names) { choices = piece.old.choices ++ name.now ∷ [] }) }
{
    piece.choices.push(name.copy(alloc)?)?;
    Ok(())
}

pub(crate) fn add_point(
    alloc: Global,
    point: &room_ast::Point,
    piece: &mut Piece,
) -> Result<(), AllocError>
    ensures { OnOk result ((names : List (List ℕ))
        → piece_view piece.new names ≡ record (piece_view piece.old names)
        { points = (piece_view piece.old names).points ++ point_of point.now ∷ [] }) }
{
    let name = point.name.copy(alloc)?;
    piece.points.push(Point {
        kind: point.kind,
        name,
    })?;
    Ok(())
}

pub(crate) fn add_transition(
    alloc: Global,
    written: &room_ast::Transition,
    around: &Around,
    scope: &Scope,
    names: &mut ServiceNames,
    piece: &mut Piece,
) -> Result<(), AllocError>
    ensures transition { OnOk result (piece_view piece.new names.new ≡ with_transition scope.now
        (around_view around.now) written.now (piece_view piece.old names.old)) }
    ensures grown { Grows names.old names.new }
{
    let transition = transition(alloc, written, around, scope, names, &mut piece.marks)?;
    piece.transitions.push(transition)?;
    Ok(())
}

/// Adds a state without a body.
pub(crate) fn add_plain_state(
    alloc: Global,
    name: &Name,
    piece: &mut Piece,
) -> Result<(), AllocError>
    ensures { OnOk result ((names : List (List ℕ))
        → piece_view piece.new names
        ≡ record (piece_view piece.old names) {
          states = (piece_view piece.old names).states
              ++ record { name = name.now; entry = no_stmt; exit = no_stmt } ∷ [];
        }) }
{
    let name = name.copy(alloc)?;
    piece.states.push(State {
        name,
        entry: no_action(alloc),
        exit: no_action(alloc),
    })?;
    Ok(())
}

/// Adds a state with its actions, which are read before its own graph.
pub(crate) fn add_state_actions(
    alloc: Global,
    name: &Name,
    entry: &Option<Code>,
    exit: &Option<Code>,
    scope: &Scope,
    names: &mut ServiceNames,
    piece: &mut Piece,
) -> Result<(), AllocError>
    ensures actions { OnOk result (piece_view piece.new names.new
        ≡ with_actions scope.now name.now entry.now exit.now (piece_view piece.old names.old)) }
    ensures grown { Grows names.old names.new }
{
    let name = name.copy(alloc)?;
    let entry = action(alloc, entry, scope, names, &mut piece.marks)?;
    let exit = action(alloc, exit, scope, names, &mut piece.marks)?;
    piece.states.push(State { name, entry, exit })?;
    Ok(())
}

/// Adds the graph of a state, and the graphs of the states of that one. Many graphs have few parts, so
/// that room for more would be most of what they take.
pub(crate) fn add_inner(
    owner: Sequence<Name>,
    inner: Piece,
    piece: &mut Piece,
) -> Result<(), AllocError>
    ensures { OnOk result ((names before : List (List ℕ))
        → piece_view piece.new names
        ≡ with_inner owner (piece_view inner names) (piece_view piece.old before)) }
{
    let mut inner = inner;
    inner.states.shrink_to_fit();
    inner.transitions.shrink_to_fit();
    piece.inner.push(Graph {
        owner,
        states: inner.states,
        points: inner.points,
        choices: inner.choices,
        transitions: inner.transitions,
    })?;
    piece.inner.append(&mut inner.inner)?;
    piece.marks = inner.marks;
    Ok(())
}
