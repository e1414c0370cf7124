//! Keys of places and nodes.
ghost use Rattle.std.specs.Prelude.{◌≡◌, ◌++◌, ◌∷◌, [], IfOk, OnOk};
ghost use Rattle.chart_trees.specs.chart_graphs.Views.{source_view, target_view};
ghost use Rattle.chart_reader.specs.chart_nodes.Keys.{code, codes, origin_key, target_key};

use chart_trees::{Source, Target};
use room_ast::Name;
use std::alloc::{AllocError, Global};

/// Adds a name: each byte behind a 1, and a 0 at the end.
#[tactic(auto, using(crate::proofs::chart_nodes::KeyLaws::code_start, crate::proofs::chart_nodes::KeyLaws::code_next, crate::proofs::chart_nodes::KeyLaws::code_end))]
fn put_name(key: &mut Vec<u8>, name: &[u8]) -> Result<(), AllocError>
    ensures { OnOk result (key.new.items ≡ key.old.items ++ code name.now) }
{
    for byte in name {
        key.push(1)?;
        key.push(*byte)?;
    }
    key.push(0)?;
    Ok(())
}

/// Adds the names of a path.
#[tactic(auto, using(crate::proofs::chart_nodes::KeyLaws::codes_start, crate::proofs::chart_nodes::KeyLaws::codes_next, crate::proofs::chart_nodes::KeyLaws::codes_end))]
fn put_path(key: &mut Vec<u8>, path: &[Name]) -> Result<(), AllocError>
    ensures { OnOk result (key.new.items ≡ key.old.items ++ codes path.now) }
{
    for name in path {
        put_name(key, name.as_bytes())?;
    }
    Ok(())
}

/// The key of a graph.
pub fn graph_key(alloc: Global, owner: &[Name]) -> Result<Vec<u8>, AllocError>
    ensures { IfOk result (λ key. key.items ≡ codes owner.now) }
{
    let mut key = Vec::new(alloc);
    put_path(&mut key, owner)?;
    Ok(key)
}

/// The key of a kind of place in a graph: the kind, then the names of the path.
pub fn plain_key(alloc: Global, kind: u8, graph: &[Name]) -> Result<Vec<u8>, AllocError>
    ensures { IfOk result (λ key. key.items ≡ kind ∷ codes graph.now) }
{
    let mut key = Vec::new(alloc);
    key.push(kind)?;
    put_path(&mut key, graph)?;
    Ok(key)
}

/// The key of a kind of place with a name in a graph: the kind, then the name and those of the path.
#[tactic(auto, using(crate::proofs::chart_nodes::KeyLaws::codes_one))]
pub fn named_key(
    alloc: Global,
    kind: u8,
    name: &Name,
    graph: &[Name],
) -> Result<Vec<u8>, AllocError>
    ensures { IfOk result (λ key. key.items ≡ kind ∷ codes (name.now ∷ graph.now)) }
{
    let mut key = Vec::new(alloc);
    key.push(kind)?;
    put_name(&mut key, name.as_bytes())?;
    put_path(&mut key, graph)?;
    Ok(key)
}

/// The key of a point of a state.
#[tactic(auto, using(crate::proofs::chart_nodes::KeyLaws::codes_two))]
pub fn point_key(
    alloc: Global,
    kind: u8,
    point: &Name,
    state: &Name,
    graph: &[Name],
) -> Result<Vec<u8>, AllocError>
    ensures { IfOk result (λ key. key.items ≡ kind ∷ codes (point.now ∷ state.now ∷ graph.now)) }
{
    let mut key = Vec::new(alloc);
    key.push(kind)?;
    put_name(&mut key, point.as_bytes())?;
    put_name(&mut key, state.as_bytes())?;
    put_path(&mut key, graph)?;
    Ok(key)
}

/// The key of the place where a transition of a graph begins.
pub fn origin_key(alloc: Global, graph: &[Name], source: &Source) -> Result<Vec<u8>, AllocError>
    ensures { IfOk result (λ key. key.items ≡ origin_key graph.now (source_view source.now)) }
{
    match source {
        Source::Initial => plain_key(alloc, 0, graph),
        Source::State(name) => named_key(alloc, 1, name, graph),
        Source::Point(_) => plain_key(alloc, 2, graph),
        Source::Choice(name) => named_key(alloc, 3, name, graph),
        Source::Entry(name) => named_key(alloc, 4, name, graph),
        Source::Exit { point, state } => point_key(alloc, 5, point, state, graph),
    }
}

/// The key of the node that a transition of a graph leads to.
pub fn target_key(alloc: Global, graph: &[Name], target: &Target) -> Result<Vec<u8>, AllocError>
    ensures { IfOk result (λ key. key.items ≡ target_key graph.now (target_view target.now)) }
{
    match target {
        Target::State(name) => named_key(alloc, 0, name, graph),
        Target::Choice(name) => named_key(alloc, 3, name, graph),
        Target::Point { point: _, state } => named_key(alloc, 0, state, graph),
        Target::Entry { point, state } => point_key(alloc, 4, point, state, graph),
        Target::Exit(name) => named_key(alloc, 5, name, graph),
    }
}
