//! The names in a graph, found without a search.
ghost use Rattle.std.specs.Prelude.{◌≡◌, ◌++◌, map, option_map, IfOk, OnOk};
ghost use Rattle.std.specs.Option.{option_to_list, option_map_or};
ghost use Rattle.name_tables.specs.name_numbers.Names.{names_of};
ghost use Rattle.room_ast.specs.ChartTree.{graph_view, item_view, state_view};
ghost use Rattle.derived_classes.specs.Refining.{with_name};
ghost use Rattle.derived_classes.specs.Searching.{any_state, name_of, states_in, note, note_item, note_items, no_names, stands_once};
ghost use Rattle.derived_classes.specs.Views.{transition_names};

use name_tables::{NameIndex, Numbers};
use room_ast::{GraphItem, Name, State};
use std::alloc::{AllocError, Global};

/// The names of the transitions of a graph.
#[derive(Drop)]
pub(super) struct TransitionNames<'a> {
    /// All of them.
    once: Numbers<'a>,
    /// Those that a second transition has.
    again: Numbers<'a>,
}

/// Adds a name, unless it is one of these.
fn add<'a>(names: &mut Numbers<'a>, name: &'a Name) -> Result<(), AllocError>
    ensures { OnOk result (names.new ≡ with_name name.now names.old) }
{
    names.add(name.as_bytes())?;
    Ok(())
}

/// Notes the name of one more transition.
fn note<'a>(names: &mut TransitionNames<'a>, name: &'a Name) -> Result<(), AllocError>
    ensures { OnOk result (transition_names names.new
        ≡ note name.now (transition_names names.old)) }
{
    if names.once.has(name.as_bytes()) {
        add(&mut names.again, name)
    } else {
        add(&mut names.once, name)
    }
}

fn note_if<'a>(names: &mut TransitionNames<'a>, name: &'a Option<Name>) -> Result<(), AllocError>
    ensures { OnOk result (transition_names names.new ≡ option_map_or
        (λ n. note n (transition_names names.old)) name.now (transition_names names.old)) }
{
    match name {
        Some(name) => note(names, name),
        None => Ok(()),
    }
}

/// Notes the name of an item of a graph, if it is a transition that has one.
fn note_item<'a>(names: &mut TransitionNames<'a>, item: &'a GraphItem) -> Result<(), AllocError>
    ensures { OnOk result (transition_names names.new
        ≡ note_item (item_view item.now) (transition_names names.old)) }
{
    match item {
        GraphItem::Transition(transition) => note_if(names, &transition.name),
        GraphItem::State(_) => Ok(()),
        GraphItem::Choice(_) => Ok(()),
        GraphItem::Point(_) => Ok(()),
        GraphItem::Refinement(_) => Ok(()),
    }
}

/// Notes the names of the items of a graph that are transitions.
fn note_items<'a>(names: &mut TransitionNames<'a>, graph: &'a [GraphItem]) -> Result<(), AllocError>
    ensures { OnOk result (transition_names names.new
        ≡ note_items (graph_view graph.now) (transition_names names.old)) }
{
    for item in graph {
        note_item(names, item)?;
    }
    Ok(())
}

impl<'a> TransitionNames<'a> {
    /// The names of the transitions of a graph. It takes time in proportion to the graph.
    pub(super) fn of(
        alloc: Global,
        graph: &'a [GraphItem],
    ) -> Result<TransitionNames<'a>, AllocError>
        ensures { IfOk result (λ names.
            transition_names names ≡ note_items (graph_view graph.now) no_names) }
    {
        let mut names = TransitionNames {
            once: Numbers::new(alloc),
            again: Numbers::new(alloc),
        };
        note_items(&mut names, graph)?;
        Ok(names)
    }

    /// Whether exactly one transition has a name.
    pub(super) fn has_one(&self, name: &Name) -> bool
        ensures { result ≡ stands_once (transition_names self.now) name.now }
    {
        if !self.once.has(name.as_bytes()) {
            return false;
        }
        !self.again.has(name.as_bytes())
    }
}

/// An item of a graph, if it is a state.
fn any_state<'a>(item: &'a GraphItem) -> Option<&'a State>
    ensures { option_map (λ s. state_view s.now) result ≡ any_state (item_view item.entry.now) }
{
    match item {
        GraphItem::State(state) => Some(state),
        GraphItem::Choice(_) => None,
        GraphItem::Point(_) => None,
        GraphItem::Transition(_) => None,
        GraphItem::Refinement(_) => None,
    }
}

fn push_if<'a>(states: &mut Vec<&'a State>, state: Option<&'a State>) -> Result<(), AllocError>
    ensures { OnOk result (states.new.items ≡ states.old.items ++ option_to_list state.entry) }
{
    if let Some(state) = state {
        states.push(state)?;
    }
    Ok(())
}

/// The states of a graph.
pub(super) fn states_in<'a>(
    alloc: Global,
    graph: &'a [GraphItem],
) -> Result<Vec<&'a State>, AllocError>
    ensures { IfOk result (λ states.
        map (λ s. state_view s.now) states.items ≡ states_in (graph_view graph.now)) }
{
    let mut states = Vec::new(alloc);
    for item in graph {
        push_if(&mut states, any_state(item))?;
    }
    Ok(states)
}

/// The name of a state.
fn name_of<'a>(state: &'a State) -> &'a [u8]
    ensures { result.now ≡ name_of (state_view state.now) }
{
    state.name.as_bytes()
}

/// The names of states, by number.
pub(super) fn names_of_states<'a>(
    alloc: Global,
    states: &[&'a State],
) -> Result<NameIndex<'a>, AllocError>
    ensures { IfOk result (λ names. names ≡ map name_of (map (λ s. state_view s.now) states.now)) }
{
    let mut names = Vec::new(alloc);
    for state in states {
        names.push(name_of(*state))?;
    }
    NameIndex::of(alloc, names)
}
