//! What a graph has, found without a search.
ghost use Rattle.std.specs.Prelude.{◌≡◌, map, option_map, IfOk};
ghost use Rattle.std.specs.List.{filter_map};
ghost use Rattle.chart_trees.specs.chart_graphs.Views.{graph_view, kind_view, point_view};
ghost use Rattle.chart_model.specs.Chart.{a_transition_point, an_entry_point, an_exit_point};
ghost use Rattle.chart_model.specs.Valid.{has_state, has_choice, has_point, is_kind, names_in};
ghost use Rattle.chart_reader.specs.chart_rules.Index.{name_of_kind, name_of_state, point_names};
ghost use Rattle.name_tables.specs.distinct_names.Distinct.{is_distinct};

use chart_trees::{Graph, Point};
use check_tables::add_name;
use name_tables::{NameIndex, are_distinct};
use room_ast::{Name, PointKind};
use std::alloc::{AllocError, Global};

/// A graph with tables of its names.
#[derive(Drop)]
pub(crate) struct NamedGraph<'a> {
    pub(crate) graph: &'a Graph,
    states: NameIndex<'a>,
    choices: NameIndex<'a>,
    transition_points: NameIndex<'a>,
    entries: NameIndex<'a>,
    exits: NameIndex<'a>,
    ghost states_are: { states ≡ map name_of_state (graph_view graph.now).states },
    ghost choices_are: { choices ≡ (graph_view graph.now).choices },
    ghost transition_points_are: { transition_points
        ≡ point_names a_transition_point (graph_view graph.now) },
    ghost entries_are: { entries ≡ point_names an_entry_point (graph_view graph.now) },
    ghost exits_are: { exits ≡ point_names an_exit_point (graph_view graph.now) },
}

fn is_kind(kind: PointKind, other: PointKind) -> bool
    ensures { result ≡ is_kind (kind_view kind) (kind_view other) }
{
    match (kind, other) {
        (PointKind::Transition, PointKind::Transition) => true,
        (PointKind::Entry, PointKind::Entry) => true,
        (PointKind::Exit, PointKind::Exit) => true,
        _ => false,
    }
}

fn states_of<'a>(alloc: Global, graph: &'a Graph) -> Result<NameIndex<'a>, AllocError>
    ensures { IfOk result (λ n. n ≡ map name_of_state (graph_view graph.now).states) }
{
    let mut names = Vec::new(alloc);
    for state in &graph.states {
        names.push(state.name.as_bytes())?;
    }
    NameIndex::of(alloc, names)
}

fn choices_of<'a>(alloc: Global, choices: &'a [Name]) -> Result<NameIndex<'a>, AllocError>
    ensures { IfOk result (λ n. n ≡ choices.now) }
{
    let mut names = Vec::new(alloc);
    for choice in choices {
        names.push(choice.as_bytes())?;
    }
    NameIndex::of(alloc, names)
}

/// The name of a point, if it is of a kind.
fn name_of_kind<'a>(kind: PointKind, point: &'a Point) -> Option<&'a Name>
    ensures { option_map (λ n. n.now) result
        ≡ name_of_kind (kind_view kind) (point_view point.entry.now) }
{
    if is_kind(kind, point.kind) {
        Some(&point.name)
    } else {
        None
    }
}

/// The points of a kind.
fn points_of<'a>(
    alloc: Global,
    kind: PointKind,
    points: &'a [Point],
) -> Result<NameIndex<'a>, AllocError>
    ensures { IfOk result (λ n.
        n ≡ filter_map (name_of_kind (kind_view kind)) (map point_view points.now)) }
{
    let mut names = Vec::new(alloc);
    for point in points {
        add_name(&mut names, name_of_kind(kind, point))?;
    }
    NameIndex::of(alloc, names)
}

impl<'a> NamedGraph<'a> {
    /// The tables of a graph. It takes time in proportion to its names.
    pub(crate) fn of(alloc: Global, graph: &'a Graph) -> Result<NamedGraph<'a>, AllocError>
        ensures { IfOk result (λ n. graph_view n.graph.now ≡ graph_view graph.now) }
    {
        let states = states_of(alloc, graph)?;
        let choices = choices_of(alloc, graph.choices.as_slice())?;
        let points = graph.points.as_slice();
        let transition_points = points_of(alloc, PointKind::Transition, points)?;
        let entries = points_of(alloc, PointKind::Entry, points)?;
        let exits = points_of(alloc, PointKind::Exit, points)?;
        Ok(NamedGraph {
            graph,
            states,
            choices,
            transition_points,
            entries,
            exits,
        })
    }

    /// The path of the state that has the graph.
    pub(crate) fn owner(&self) -> &'a [Name]
        ensures { result.now ≡ self.now.graph.now.owner }
    {
        self.graph.owner.as_slice()
    }

    pub(crate) fn has_state(&self, name: &Name) -> bool
        ensures { result ≡ has_state (graph_view self.now.graph.now) name.now }
    {
        self.states.has(name.as_bytes())
    }

    pub(crate) fn has_choice(&self, name: &Name) -> bool
        ensures { result ≡ has_choice (graph_view self.now.graph.now) name.now }
    {
        self.choices.has(name.as_bytes())
    }

    /// The points of a kind.
    fn points_with(&self, kind: PointKind) -> &NameIndex<'a>
        ensures { result.now ≡ point_names (kind_view kind) (graph_view self.now.graph.now) }
    {
        match kind {
            PointKind::Transition => &self.transition_points,
            PointKind::Entry => &self.entries,
            PointKind::Exit => &self.exits,
        }
    }

    pub(crate) fn has_point(&self, kind: PointKind, name: &Name) -> bool
        ensures { result ≡ has_point (kind_view kind) (graph_view self.now.graph.now) name.now }
    {
        let points = self.points_with(kind);
        points.has(name.as_bytes())
    }
}

/// Whether the names of a graph's states and points are distinct.
pub(crate) fn has_distinct_names(alloc: Global, graph: &Graph) -> Result<bool, AllocError>
    ensures { IfOk result (λ b. b ≡ is_distinct (names_in (graph_view graph.now))) }
{
    let mut names = Vec::new(alloc);
    for state in &graph.states {
        names.push(state.name.as_bytes())?;
    }
    for point in &graph.points {
        names.push(point.name.as_bytes())?;
    }
    are_distinct(alloc, names.as_slice())
}
