//! Graphs in the order of their text.
ghost use Rattle.std.specs.Prelude.{◌≡◌, ◌∷◌, IfOk, OnOk};
ghost use Rattle.action_lang.specs.action_check.Answers.{Grows};
ghost use Rattle.room_ast.specs.ChartTree.{item_view, state_view, graph_view};
ghost use Rattle.chart_trees.specs.chart_codes.Progress.{progress};
ghost use Rattle.chart_trees.specs.Reading.{with_item, with_state, piece_of};
ghost use Rattle.chart_trees.specs.Views.{around_view, piece_view};

use crate::around::Around;
use crate::chart_codes::Marks;
use crate::piece::{
    Piece, add_choice, add_inner, add_plain_state, add_point, add_state_actions, add_transition,
    begun,
};
use action_lang::action_check::ServiceNames;
use room_ast::{GraphItem, Name, Scope, State};
use room_kinds::Sequence;
use std::alloc::{AllocError, Global};

/// The path of a state of the graph at `owner`.
fn path_of(alloc: Global, name: &Name, owner: &[Name]) -> Result<Sequence<Name>, AllocError>
    ensures { IfOk result (λ path. path ≡ name.now ∷ owner.now) }
{
    let mut path = Sequence::new(alloc);
    path.push(name.copy(alloc)?)?;
    for outer in owner {
        path.push(outer.copy(alloc)?)?;
    }
    Ok(path)
}

#[cycle(graph)]
fn add_item(
    alloc: Global,
    item: &GraphItem,
    around: &Around,
    owner: &[Name],
    scope: &Scope,
    names: &mut ServiceNames,
    piece: &mut Piece,
) -> Result<(), AllocError>
    ensures item { OnOk result (piece_view piece.new names.new ≡ with_item scope.now
        (item_view item.now) (around_view around.now) owner.now (piece_view piece.old names.old)) }
    ensures grown { Grows names.old names.new }
{
    match item {
        GraphItem::State(state) => add_state(alloc, state, owner, scope, names, piece),
        GraphItem::Choice(choice) => add_choice(alloc, &choice.name, piece),
        GraphItem::Point(point) => add_point(alloc, point, piece),
        GraphItem::Transition(written) => {
            add_transition(alloc, written, around, scope, names, piece)
        }
        GraphItem::Refinement(_) => Ok(()),
    }
}

#[cycle(graph)]
fn add_state(
    alloc: Global,
    state: &State,
    owner: &[Name],
    scope: &Scope,
    names: &mut ServiceNames,
    piece: &mut Piece,
) -> Result<(), AllocError>
    ensures state { OnOk result (piece_view piece.new names.new
        ≡ with_state scope.now (state_view state.now) owner.now (piece_view piece.old names.old)) }
    ensures grown { Grows names.old names.new }
{
    let Some(body) = &state.body else {
        return add_plain_state(alloc, &state.name, piece);
    };
    add_state_actions(
        alloc,
        &state.name,
        &body.entry,
        &body.exit,
        scope,
        names,
        piece,
    )?;
    match &body.subgraph {
        Some(items) => {
            let path = path_of(alloc, &state.name, owner)?;
            let inner = read_graph(alloc, items, path.as_slice(), scope, names, piece.marks)?;
            add_inner(path, inner, piece)
        }
        None => Ok(()),
    }
}

/// The parts of the graph of the state at `owner`. The recursion is as deep as graphs nest.
#[cycle(graph)]
pub(crate) fn read_graph(
    alloc: Global,
    items: &Vec<GraphItem>,
    owner: &[Name],
    scope: &Scope,
    names: &mut ServiceNames,
    marks: Marks,
) -> Result<Piece, AllocError>
    ensures piece { IfOk result (λ p.
        piece_view p names.new
        ≡ piece_of scope.now (graph_view items.now.items) owner.now (progress marks names.old)) }
    ensures grown { Grows names.old names.new }
{
    let around = Around::of(alloc, items.as_slice())?;
    let mut piece = begun(alloc, marks);
    for item in items {
        add_item(alloc, item, &around, owner, scope, names, &mut piece)?;
    }
    Ok(piece)
}
