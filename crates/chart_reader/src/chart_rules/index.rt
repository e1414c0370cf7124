//! What the rules look up in a chart.
ghost use Rattle.std.specs.Prelude.{◌≡◌, ◌∷◌, ℕ, List, length, map, option_and_then, option_map, position, slice_get, IfOk};
ghost use Rattle.name_tables.specs.name_numbers.Names.{same};
ghost use Rattle.std.specs.List.{filter};
ghost use Rattle.chart_model.specs.Chart.{Path};
ghost use Rattle.chart_model.specs.Named.{from, graph_at, has_none, is_from_choice, is_from_entry, is_from_exit};
ghost use Rattle.chart_model.specs.Valid.{initials_at};
ghost use Rattle.chart_trees.specs.chart_graphs.Views.{chart_view};
ghost use Rattle.chart_reader.specs.chart_nodes.Keys.{codes};
ghost use Rattle.chart_reader.specs.chart_nodes.Steps.{step_view, steps_of};
ghost use Rattle.chart_reader.specs.chart_rules.Index.{count_in, beginning, beginning_plainly, border_keys};
ghost use Rattle.chart_reader.specs.chart_rules.Views.{named_view, chart_of};

use crate::chart_nodes::{Step, named_key, plain_key, point_key};
use crate::chart_rules::counts::{count_of, count_origins, count_plain_origins};
use crate::chart_rules::names::NamedGraph;
use chart_trees::Chart;
use indexmap::IndexMap;
use name_tables::NameIndex;
use room_ast::Name;
use room_kinds::Sequence;
use std::alloc::{AllocError, Global};

/// A chart with tables of what the rules look up: its graphs by their paths, and how many
/// transitions begin at each place.
#[derive(Drop)]
pub(crate) struct ChartIndex<'a> {
    pub(crate) graphs: Vec<NamedGraph<'a>>,
    values: &'a [i64],
    keys: NameIndex<'a>,
    origins: IndexMap<&'a [u8], usize>,
    plain_origins: IndexMap<&'a [u8], usize>,
    ghost keys_are: { keys ≡ border_keys (map named_view graphs.items) },
    ghost origins_are: { (key : List ℕ) → count_in origins key
        ≡ beginning (steps_of (chart_of graphs.items values.now)) key },
    ghost plain_origins_are: { (key : List ℕ) → count_in plain_origins key
        ≡ beginning_plainly (steps_of (chart_of graphs.items values.now)) key },
}

/// The keys of the graphs of a chart.
pub(crate) fn border_keys(alloc: Global, chart: &Chart) -> Result<Vec<Sequence<u8>>, AllocError>
    ensures { IfOk result (λ keys. keys.items ≡ border_keys (chart_view chart.now).graphs) }
{
    let mut keys = Vec::new(alloc);
    for graph in &chart.graphs {
        let key = plain_key(alloc, 0, graph.owner.as_slice())?;
        keys.push(Sequence::from(key))?;
    }
    Ok(keys)
}

fn named_graphs<'a>(alloc: Global, chart: &'a Chart) -> Result<Vec<NamedGraph<'a>>, AllocError>
    ensures { IfOk result (λ named. map named_view named.items ≡ (chart_view chart.now).graphs) }
{
    let mut named = Vec::with_capacity(alloc, chart.graphs.len())?;
    for graph in &chart.graphs {
        let one = NamedGraph::of(alloc, graph)?;
        named.push(one)?;
    }
    Ok(named)
}

fn key_index<'a>(alloc: Global, keys: &'a [Sequence<u8>]) -> Result<NameIndex<'a>, AllocError>
    ensures { IfOk result (λ index. index ≡ keys.now) }
{
    let mut names = Vec::new(alloc);
    for key in keys {
        names.push(key.as_slice())?;
    }
    NameIndex::of(alloc, names)
}

/// The first graph with a key.
fn find_graph<'a, 'b>(
    graphs: &'b [NamedGraph<'a>],
    keys: &NameIndex<'a>,
    key: &[u8],
) -> Option<&'b NamedGraph<'a>>
    ensures { option_map (λ g. named_view g.now) result ≡ option_and_then
        (λ i. slice_get (map named_view graphs.entry.now) i) (position (same key.now) keys.now) }
{
    match keys.place_of(key) {
        Some(place) => graphs.get(place),
        None => None,
    }
}

impl<'a> ChartIndex<'a> {
    ghost use Rattle.chart_reader.specs.chart_rules.IndexView.{index_view};

    /// The tables of a chart, from the keys of its graphs and its steps. It takes time in
    /// proportion to the chart and the names of its paths.
    pub(crate) fn of<'b>(
        alloc: Global,
        chart: &'a Chart,
        graph_keys: &'a [Sequence<u8>],
        steps: &'a [Step<'b>],
    ) -> Result<ChartIndex<'a>, AllocError>
        requires keyed { graph_keys.now ≡ border_keys (chart_view chart.now).graphs }
        requires stepped { map step_view steps.now ≡ steps_of (chart_view chart.now) }
        ensures { IfOk result (λ index. index_view index ≡ chart_view chart.now) }
    {
        let values = chart.values.as_slice();
        let graphs = named_graphs(alloc, chart)?;
        let keys = key_index(alloc, graph_keys)?;
        let origins = count_origins(alloc, steps)?;
        let plain_origins = count_plain_origins(alloc, steps)?;
        Ok(ChartIndex {
            graphs,
            values,
            keys,
            origins,
            plain_origins,
        })
    }

    fn graph_with(&self, key: &[u8]) -> Option<&NamedGraph<'a>>
        ensures { (path : Path) → key.now ≡ 0 ∷ codes path
            → option_map (λ g. named_view g.now) result ≡ graph_at (index_view self.now) path }
    {
        find_graph(self.graphs.as_slice(), &self.keys, key)
    }

    /// The graph of a state of the graph at `owner`, if it has one.
    pub(crate) fn graph_of(
        &self,
        alloc: Global,
        state: &Name,
        owner: &[Name],
    ) -> Result<Option<&NamedGraph<'a>>, AllocError>
        ensures { IfOk result (λ found.
            option_map (λ g. named_view g.now) found
            ≡ graph_at (index_view self.now) (state.now ∷ owner.now)) }
    {
        let key = named_key(alloc, 0, state, owner)?;
        Ok(self.graph_with(key.as_slice()))
    }

    /// How many transitions begin at the place with a key.
    fn beginning(&self, key: &[u8]) -> usize
        ensures { result ≡ beginning (steps_of (index_view self.now)) key.now }
    {
        count_of(&self.origins, key)
    }

    /// How many transitions without a condition begin there.
    fn beginning_plainly(&self, key: &[u8]) -> usize
        ensures { result ≡ beginning_plainly (steps_of (index_view self.now)) key.now }
    {
        count_of(&self.plain_origins, key)
    }

    /// How many initial transitions the graph at a path has.
    pub(crate) fn initials_at(&self, alloc: Global, owner: &[Name]) -> Result<usize, AllocError>
        ensures { IfOk result (λ n. n ≡ initials_at (index_view self.now) owner.now) }
    {
        let key = plain_key(alloc, 0, owner)?;
        Ok(self.beginning(key.as_slice()))
    }

    /// How many initial transitions the graph of a state of the graph at `owner` has.
    pub(crate) fn initials_of(
        &self,
        alloc: Global,
        state: &Name,
        owner: &[Name],
    ) -> Result<usize, AllocError>
        ensures { IfOk result (λ n. n ≡ initials_at (index_view self.now) (state.now ∷ owner.now)) }
    {
        let key = named_key(alloc, 0, state, owner)?;
        Ok(self.beginning(key.as_slice()))
    }

    /// How many continuations an entry point of the graph at a path has.
    pub(crate) fn entries_at(
        &self,
        alloc: Global,
        point: &Name,
        owner: &[Name],
    ) -> Result<usize, AllocError>
        ensures { IfOk result (λ n.
            n ≡ length (from (is_from_entry point.now) (index_view self.now) owner.now)) }
    {
        let key = named_key(alloc, 4, point, owner)?;
        Ok(self.beginning(key.as_slice()))
    }

    /// How many continuations an exit point of a state of the graph at a path has.
    pub(crate) fn exits_at(
        &self,
        alloc: Global,
        point: &Name,
        state: &Name,
        owner: &[Name],
    ) -> Result<usize, AllocError>
        ensures { IfOk result (λ n.
            n ≡ length (from (is_from_exit point.now state.now) (index_view self.now) owner.now)) }
    {
        let key = point_key(alloc, 5, point, state, owner)?;
        Ok(self.beginning(key.as_slice()))
    }

    /// How many branches without a condition a choice point of the graph at a path has.
    pub(crate) fn defaults_at(
        &self,
        alloc: Global,
        choice: &Name,
        owner: &[Name],
    ) -> Result<usize, AllocError>
        ensures { IfOk result (λ n.
            n ≡ length (filter has_none (from (is_from_choice choice.now) (index_view self.now)
            owner.now))) }
    {
        let key = named_key(alloc, 3, choice, owner)?;
        Ok(self.beginning_plainly(key.as_slice()))
    }
}
