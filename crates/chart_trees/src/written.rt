//! The chart of a class.
ghost use Rattle.std.specs.Prelude.{◌≡◌, ℕ, List, [], map, IfOk};
ghost use Rattle.action_lang.specs.action_check.Answers.{Grows};
ghost use Rattle.room_ast.specs.ChartTree.{graph_view};
ghost use Rattle.chart_trees.specs.chart_graphs.Views.{graph_view as code_graph_view, chart_view};
ghost use Rattle.chart_trees.specs.chart_codes.Progress.{progress};
ghost use Rattle.chart_trees.specs.Reading.{chart_of, reading, piece_of, graphs_of};
ghost use Rattle.chart_trees.specs.Views.{piece_view};

use crate::chart_codes::Marks;
use crate::chart_graphs::{Chart, Graph};
use crate::piece::Piece;
use crate::read::read_graph;
use action_lang::action_check::ServiceNames;
use room_ast::{Name, Scope, ScopeAttribute, StateMachine};
use room_kinds::Sequence;
use std::alloc::{AllocError, Global};

/// The chart that a text writes, and whether its events and its codes are the class's.
#[derive(Drop)]
pub struct Written {
    pub chart: Chart,
    pub marks: Marks,
}

fn values_of(alloc: Global, attributes: &[ScopeAttribute]) -> Result<Vec<i64>, AllocError>
    ensures { IfOk result (λ v. v.items ≡ map (λ a. a.initial) attributes.now) }
{
    attributes
        .iter()
        .map(|attribute| attribute.initial)
        .collect(alloc)
}

/// The graphs of a piece: its own, and those of its states.
fn graphs_of(alloc: Global, piece: Piece) -> Result<Vec<Graph>, AllocError>
    ensures { IfOk result (λ v.
        (names : List (List ℕ))
        → map code_graph_view v.items ≡ graphs_of [] (piece_view piece names)) }
{
    let mut piece = piece;
    let mut graphs = Vec::new(alloc);
    graphs.push(Graph {
        owner: Sequence::new(alloc),
        states: piece.states,
        points: piece.points,
        choices: piece.choices,
        transitions: piece.transitions,
    })?;
    graphs.append(&mut piece.inner)?;
    Ok(graphs)
}

/// The chart that a state machine's text writes, in a class, behind the service names of the classes
/// before it; the service names of this one are added to them, at the end alone even where memory runs
/// out. It takes time in proportion to the text, to how deep it nests, and to the ports of the class for
/// each event.
#[tactic(auto, unfolding(crate::specs::Reading::chart_of, crate::specs::Reading::reading))]
pub fn write_chart(
    alloc: Global,
    machine: &StateMachine,
    scope: &Scope,
    names: &mut ServiceNames,
) -> Result<Written, AllocError>
    ensures chart { IfOk result (λ w.
        chart_view w.chart ≡ chart_of scope.now names.old (graph_view machine.now.items.items)) }
    ensures met { IfOk result (λ w.
        progress w.marks names.new
        ≡ reading scope.now names.old (graph_view machine.now.items.items)) }
    ensures grown { Grows names.old names.new }
{
    let marks = Marks {
        events_fit: true,
        codes_fit: true,
    };
    let owner: [Name; 0] = [];
    let piece = read_graph(alloc, &machine.items, &owner, scope, names, marks)?;
    let marks = piece.marks;
    let values = values_of(alloc, scope.attributes.as_slice())?;
    let graphs = graphs_of(alloc, piece)?;
    let chart = Chart { graphs, values };
    Ok(Written { chart, marks })
}
