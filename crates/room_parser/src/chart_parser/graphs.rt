//! States, graphs and refinements.
ghost use Rattle.std.specs.Prelude.{◌≡◌};
ghost use Rattle.room_ast.specs.ChartTree.{item_view, item_views, state_view, body_view, body_if_view, refinement_view, graph_view};
ghost use Rattle.room_tokens.specs.Reader.{Gives, all_while};
ghost use Rattle.room_tokens.specs.Single.{left, before_close as before_close_at};
ghost use Rattle.room_parser.specs.chart_parser.Graphs.{subgraph_view, subgraph_at, body_at, body_if_at, state_at, refined_state_at, refined_transition_at, graph_below, item_to, graph_at, machine_at};

use crate::chart_parser::codes::{code_if, word_code};
use crate::chart_parser::transitions::{choice_point, point, transition};
use room_ast::{Change, GraphItem, Refinement, State, StateBody, StateMachine};
use room_lexer::{Mark, Word};
use room_tokens::{
    ReadFault, Rest, before_close, comes, comes_word, place, take_mark, take_word, word_here,
};
use std::alloc::Global;
use structure_parser::dotted;

/// Items of a graph up to a closing brace. Each takes a token at least, so there are no more
/// turns than tokens.
#[cycle(graph)]
fn items<'a>(
    alloc: Global,
    depth: usize,
    rest: Rest<'a>,
) -> Result<(Vec<GraphItem>, Rest<'a>), ReadFault>
    ensures { Gives (λ x. (item_views x.0.items, left x.1)) result
        (all_while before_close_at (item_to depth) (left rest.entry)) }
{
    let mut found = Vec::new(alloc);
    let mut turns = rest.tokens.len();
    let mut rest = rest;
    while before_close(rest) {
        if turns == 0 {
            return Err(ReadFault::Syntax(place(rest)));
        }
        let (one, after) = item(alloc, depth, rest)?;
        found.push(one)?;
        rest = after;
        turns -= 1;
    }
    Ok((found, rest))
}

/// `subgraph` and a graph in braces, if they come
#[cycle(graph)]
#[tactic(auto, unfolding(crate::specs::chart_parser::Graphs::subgraph_at, crate::specs::chart_parser::Graphs::closed_at, crate::specs::chart_parser::Graphs::graph_below, room_tokens::specs::Reader::optional))]
fn subgraph_if<'a>(
    alloc: Global,
    depth: usize,
    rest: Rest<'a>,
) -> Result<(Option<Vec<GraphItem>>, Rest<'a>), ReadFault>
    ensures { Gives (λ x. (subgraph_view x.0, left x.1)) result
        (subgraph_at (graph_below depth) (left rest.entry)) }
{
    if !comes_word(rest, Word::Subgraph) {
        return Ok((None, rest));
    }
    let rest = take_word(rest, Word::Subgraph)?;
    let rest = take_mark(rest, Mark::OpenBrace)?;
    if depth == 0 {
        return Err(ReadFault::Syntax(place(rest)));
    }
    let (found, rest) = items(alloc, depth - 1, rest)?;
    let rest = take_mark(rest, Mark::CloseBrace)?;
    Ok((Some(found), rest))
}

/// Entry code, exit code and subgraph in braces
#[cycle(graph)]
#[tactic(auto, unfolding(crate::specs::chart_parser::Graphs::body_at))]
fn body<'a>(alloc: Global, depth: usize, rest: Rest<'a>) -> Result<(StateBody, Rest<'a>), ReadFault>
    ensures { Gives (λ x. (body_view x.0, left x.1)) result
        (body_at (graph_below depth) (left rest.entry)) }
{
    let rest = take_mark(rest, Mark::OpenBrace)?;
    let (entry, rest) = code_if(alloc, rest, Word::Entry)?;
    let (exit, rest) = code_if(alloc, rest, Word::Exit)?;
    let (subgraph, rest) = subgraph_if(alloc, depth, rest)?;
    let rest = take_mark(rest, Mark::CloseBrace)?;
    Ok((
        StateBody {
            entry,
            exit,
            subgraph,
        },
        rest,
    ))
}

/// The body of a state, if it comes.
#[cycle(graph)]
#[tactic(auto, unfolding(crate::specs::chart_parser::Graphs::body_if_at, room_tokens::specs::Reader::optional))]
fn body_if<'a>(
    alloc: Global,
    depth: usize,
    rest: Rest<'a>,
) -> Result<(Option<Box<StateBody>>, Rest<'a>), ReadFault>
    ensures { Gives (λ x. (body_if_view x.0, left x.1)) result
        (body_if_at (graph_below depth) (left rest.entry)) }
{
    if !comes(rest, Mark::OpenBrace) {
        return Ok((None, rest));
    }
    let (found, rest) = body(alloc, depth, rest)?;
    let found = Box::new(alloc, found)?;
    Ok((Some(found), rest))
}

/// `State` name, and its body in braces
#[cycle(graph)]
#[tactic(auto, unfolding(crate::specs::chart_parser::Graphs::state_at))]
fn state<'a>(alloc: Global, depth: usize, rest: Rest<'a>) -> Result<(State, Rest<'a>), ReadFault>
    ensures { Gives (λ x. (state_view x.0, left x.1)) result
        (state_at (graph_below depth) (left rest.entry)) }
{
    let rest = take_word(rest, Word::State)?;
    let (name, rest) = room_tokens::name(alloc, rest)?;
    let (body, rest) = body_if(alloc, depth, rest)?;
    Ok((State { name, body }, rest))
}

/// `RefinedState` path, and what is added to the state in braces
#[cycle(graph)]
#[tactic(auto, unfolding(crate::specs::chart_parser::Graphs::refined_state_at))]
fn refined_state<'a>(
    alloc: Global,
    depth: usize,
    rest: Rest<'a>,
) -> Result<(Refinement, Rest<'a>), ReadFault>
    ensures { Gives (λ x. (refinement_view x.0, left x.1)) result
        (refined_state_at (graph_below depth) (left rest.entry)) }
{
    let rest = take_word(rest, Word::RefinedState)?;
    let (path, rest) = dotted(alloc, rest)?;
    let (added, rest) = body(alloc, depth, rest)?;
    let change = Change::State(added);
    Ok((Refinement { path, change }, rest))
}

/// `RefinedTransition` path, and `action` code in braces
#[tactic(auto, unfolding(crate::specs::chart_parser::Graphs::refined_transition_at))]
fn refined_transition<'a>(
    alloc: Global,
    rest: Rest<'a>,
) -> Result<(Refinement, Rest<'a>), ReadFault>
    ensures { Gives (λ x. (refinement_view x.0, left x.1)) result
        (refined_transition_at (left rest.entry)) }
{
    let rest = take_word(rest, Word::RefinedTransition)?;
    let (path, rest) = dotted(alloc, rest)?;
    let rest = take_mark(rest, Mark::OpenBrace)?;
    let (action, rest) = word_code(alloc, rest, Word::Action)?;
    let rest = take_mark(rest, Mark::CloseBrace)?;
    let change = Change::Transition(action);
    Ok((Refinement { path, change }, rest))
}

/// An item of a graph, with graphs nested no deeper than the number.
#[cycle(graph)]
#[tactic(auto, unfolding(crate::specs::chart_parser::Graphs::item_with))]
fn item<'a>(alloc: Global, depth: usize, rest: Rest<'a>) -> Result<(GraphItem, Rest<'a>), ReadFault>
    ensures { Gives (λ x. (item_view x.0, left x.1)) result (item_to depth (left rest.entry)) }
{
    match word_here(rest) {
        Some(Word::State) => {
            let (found, rest) = state(alloc, depth, rest)?;
            Ok((GraphItem::State(found), rest))
        }
        Some(Word::ChoicePoint) => {
            let (found, rest) = choice_point(alloc, rest)?;
            Ok((GraphItem::Choice(found), rest))
        }
        Some(Word::TransitionPoint | Word::EntryPoint | Word::ExitPoint) => {
            let (found, rest) = point(alloc, rest)?;
            Ok((GraphItem::Point(found), rest))
        }
        Some(Word::Transition) => {
            let (found, rest) = transition(alloc, rest)?;
            Ok((GraphItem::Transition(Box::new(alloc, found)?), rest))
        }
        Some(Word::RefinedState) => {
            let (found, rest) = refined_state(alloc, depth, rest)?;
            Ok((GraphItem::Refinement(Box::new(alloc, found)?), rest))
        }
        Some(Word::RefinedTransition) => {
            let (found, rest) = refined_transition(alloc, rest)?;
            Ok((GraphItem::Refinement(Box::new(alloc, found)?), rest))
        }
        _ => Err(ReadFault::Syntax(place(rest))),
    }
}

/// A graph and the closing brace behind it. No more graphs are nested than tokens are left.
#[tactic(auto, unfolding(crate::specs::chart_parser::Graphs::graph_at, crate::specs::chart_parser::Graphs::closed_at))]
fn graph<'a>(alloc: Global, rest: Rest<'a>) -> Result<(Vec<GraphItem>, Rest<'a>), ReadFault>
    ensures { Gives (λ x. (graph_view x.0.items, left x.1)) result (graph_at (left rest.entry)) }
{
    let (found, rest) = items(alloc, rest.tokens.len(), rest)?;
    let rest = take_mark(rest, Mark::CloseBrace)?;
    Ok((found, rest))
}

/// `StateMachine` and a graph in braces
#[tactic(auto, unfolding(crate::specs::chart_parser::Graphs::machine_at))]
pub fn state_machine<'a>(
    alloc: Global,
    rest: Rest<'a>,
) -> Result<(StateMachine, Rest<'a>), ReadFault>
    ensures { Gives (λ x. (graph_view x.0.items.items, left x.1)) result
        (machine_at (left rest.entry)) }
{
    let rest = take_word(rest, Word::StateMachine)?;
    let rest = take_mark(rest, Mark::OpenBrace)?;
    let (items, rest) = graph(alloc, rest)?;
    Ok((StateMachine { items }, rest))
}
