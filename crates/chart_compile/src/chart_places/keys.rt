//! Graphs by their keys.
ghost use Rattle.std.specs.Prelude.{◌≡◌, map, option_and_then, option_map, position, slice_get, IfOk};
ghost use Rattle.name_tables.specs.name_numbers.Names.{same};
ghost use Rattle.chart_trees.specs.chart_graphs.Views.{graph_view};
ghost use Rattle.chart_compile.specs.chart_places.Places.{keys_of};

use chart_reader::plain_key;
use chart_trees::{Chart, Graph};
use name_tables::NameIndex;
use room_kinds::Sequence;
use std::alloc::{AllocError, Global};

/// The keys of graphs.
pub fn graph_keys(alloc: Global, graphs: &[Graph]) -> Result<Vec<Sequence<u8>>, AllocError>
    ensures { IfOk result (λ keys. keys.items ≡ keys_of (map graph_view graphs.now)) }
{
    let mut keys = Vec::new(alloc);
    for graph in graphs {
        let key = plain_key(alloc, 2, graph.owner.as_slice())?;
        keys.push(Sequence::from(key))?;
    }
    Ok(keys)
}

/// An index of keys: the number of a key is its first place among them.
pub fn index_of<'a>(alloc: Global, keys: &'a [Sequence<u8>]) -> Result<NameIndex<'a>, AllocError>
    ensures { IfOk result (λ index. index ≡ keys.entry.now) }
{
    let mut names = Vec::new(alloc);
    for key in keys {
        names.push(key.as_slice())?;
    }
    let index = NameIndex::of(alloc, names)?;
    Ok(index)
}

/// The graph with a key.
pub fn find_graph<'a, 'b>(chart: &'a Chart, graphs: &NameIndex<'b>, key: &[u8]) -> Option<&'a Graph>
    ensures { option_map (λ g. g.now) result ≡ option_and_then
        (λ i. slice_get chart.entry.now.graphs.items i) (position (same key.now) graphs.now) }
{
    match graphs.place_of(key) {
        Some(number) => chart.graphs.get(number),
        None => None,
    }
}
