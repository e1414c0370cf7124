//! The names of a graph, found without a search.
ghost use Rattle.std.specs.Prelude.{◌≡◌, map, option_map, IfOk};
ghost use Rattle.std.specs.List.{filter_map};
ghost use Rattle.room_ast.specs.ChartTree.{item_view, state_view, graph_view, subgraph};
ghost use Rattle.chart_trees.specs.Around.{state_name, entry_name, entries_of, entries_in, entries_in_state, inner_entries, around, has_entry_inside};
ghost use Rattle.chart_trees.specs.Views.{around_view};

use check_tables::{add_name, push_if};
use name_tables::NameIndex;
use room_ast::{GraphItem, Name, PointKind, State};
use std::alloc::{AllocError, Global};

/// The names by which the terminals of a graph are told apart: its states, its entry points, and
/// the entry points of the graph of each state, in the states' order.
#[derive(Drop)]
pub(crate) struct Around<'a> {
    pub(crate) states: NameIndex<'a>,
    pub(crate) entries: NameIndex<'a>,
    pub(crate) inner: Vec<NameIndex<'a>>,
}

fn state_name<'a>(item: &'a GraphItem) -> Option<&'a Name>
    ensures { option_map (λ n. n.now) result ≡ state_name (item_view item.entry.now) }
{
    match item {
        GraphItem::State(state) => Some(&state.name),
        GraphItem::Choice(_)
        | GraphItem::Point(_)
        | GraphItem::Transition(_)
        | GraphItem::Refinement(_) => None,
    }
}

fn entry_name<'a>(item: &'a GraphItem) -> Option<&'a Name>
    ensures { option_map (λ n. n.now) result ≡ entry_name (item_view item.entry.now) }
{
    match item {
        GraphItem::Point(point) => match point.kind {
            PointKind::Entry => Some(&point.name),
            PointKind::Transition | PointKind::Exit => None,
        },
        GraphItem::State(_)
        | GraphItem::Choice(_)
        | GraphItem::Transition(_)
        | GraphItem::Refinement(_) => None,
    }
}

fn states_of<'a>(alloc: Global, items: &'a [GraphItem]) -> Result<NameIndex<'a>, AllocError>
    ensures { IfOk result (λ n. n ≡ filter_map state_name (map item_view items.now)) }
{
    let mut names = Vec::new(alloc);
    for item in items {
        add_name(&mut names, state_name(item))?;
    }
    NameIndex::of(alloc, names)
}

fn entries_of<'a>(alloc: Global, items: &'a [GraphItem]) -> Result<NameIndex<'a>, AllocError>
    ensures { IfOk result (λ n. n ≡ entries_of (map item_view items.now)) }
{
    let mut names = Vec::new(alloc);
    for item in items {
        add_name(&mut names, entry_name(item))?;
    }
    NameIndex::of(alloc, names)
}

/// The entry points of the graph of a state that has these items.
fn entries_inside<'a>(alloc: Global, items: &'a Vec<GraphItem>) -> Result<NameIndex<'a>, AllocError>
    ensures { IfOk result (λ n. n ≡ entries_in (subgraph (graph_view items.now.items))) }
{
    entries_of(alloc, items.as_slice())
}

/// The entry points of the graph of a state.
fn entries_in_state<'a>(alloc: Global, state: &'a State) -> Result<NameIndex<'a>, AllocError>
    ensures { IfOk result (λ n. n ≡ entries_in_state (state_view state.now)) }
{
    let Some(body) = &state.body else {
        return NameIndex::of(alloc, Vec::new(alloc));
    };
    match &body.subgraph {
        Some(items) => entries_inside(alloc, items),
        None => NameIndex::of(alloc, Vec::new(alloc)),
    }
}

fn inner_entries<'a>(
    alloc: Global,
    item: &'a GraphItem,
) -> Result<Option<NameIndex<'a>>, AllocError>
    ensures { IfOk result (λ n. n ≡ inner_entries (item_view item.now)) }
{
    match item {
        GraphItem::State(state) => {
            let entries = entries_in_state(alloc, state)?;
            Ok(Some(entries))
        }
        GraphItem::Choice(_)
        | GraphItem::Point(_)
        | GraphItem::Transition(_)
        | GraphItem::Refinement(_) => Ok(None),
    }
}

/// The entry points of the graph of each state, where there are so many states.
fn all_inner<'a>(
    alloc: Global,
    items: &'a [GraphItem],
    states: usize,
) -> Result<Vec<NameIndex<'a>>, AllocError>
    ensures { IfOk result (λ v. v.items ≡ filter_map inner_entries (map item_view items.now)) }
{
    let mut inner = Vec::with_capacity(alloc, states)?;
    for item in items {
        push_if(&mut inner, inner_entries(alloc, item)?)?;
    }
    Ok(inner)
}

impl<'a> Around<'a> {
    /// The names of a graph. It takes time in proportion to its items and those of the graphs of
    /// its states.
    pub(crate) fn of(alloc: Global, items: &'a [GraphItem]) -> Result<Around<'a>, AllocError>
        ensures { IfOk result (λ a. around_view a ≡ around (map item_view items.now)) }
    {
        let states = states_of(alloc, items)?;
        let entries = entries_of(alloc, items)?;
        let inner = all_inner(alloc, items, states.len())?;
        Ok(Around {
            states,
            entries,
            inner,
        })
    }

    /// Whether the graph of a state has an entry point of this name.
    pub(crate) fn has_entry_inside(&self, point: &[u8], state: &[u8]) -> bool
        ensures { result ≡ has_entry_inside (around_view self.now) point.now state.now }
    {
        let Some(place) = self.states.place_of(state) else {
            return false;
        };
        match self.inner.get(place) {
            Some(entries) => entries.has(point),
            None => false,
        }
    }
}
