//! Whether something is refined twice.
ghost use Rattle.std.specs.Prelude.{◌≡◌, ◌++◌, IfOk, OnOk, map, option_map};
ghost use Rattle.std.specs.List.{filter_map};
ghost use Rattle.std.specs.Option.{option_to_list};
ghost use Rattle.name_tables.specs.name_numbers.Names.{names_of};
ghost use Rattle.room_ast.specs.Trees.{actor_view};
ghost use Rattle.derived_classes.specs.Keys.{codes};
ghost use Rattle.derived_classes.specs.Derived.{once_of, paths_differ, refines_once, state_path, transition_path};
ghost use Rattle.derived_classes.specs.Views.{path_view, path_views, refining_view, refining_views};

use crate::refining::Pending;
use crate::rules::keys::{put_name, put_names};
use crate::rules::named::refinements_of;
use name_tables::are_distinct;
use room_ast::{ActorClass, Change, Name};
use room_kinds::Sequence;
use std::alloc::{AllocError, Global};

/// The names of a path, as they are written.
#[derive(Clone, Copy, Drop)]
struct Path<'a> {
    next: Option<&'a Name>,
    others: &'a [Name],
}

/// The key of a path: two paths have the same key where they have the same names.
#[tactic(auto, using(crate::proofs::KeyLaws::codes_none, crate::proofs::KeyLaws::codes_one))]
fn key_of(alloc: Global, path: &Path) -> Result<Sequence<u8>, AllocError>
    ensures { IfOk result (λ key. key ≡ codes (path_view path.now)) }
{
    let mut key = Vec::new(alloc);
    if let Some(first) = path.next {
        put_name(&mut key, first.as_bytes())?;
        put_names(&mut key, path.others)?;
    }
    Ok(Sequence::from(key))
}

fn path_keys(alloc: Global, paths: &[Path]) -> Result<Vec<Sequence<u8>>, AllocError>
    ensures { IfOk result (λ keys. keys.items ≡ map codes (path_views paths.now)) }
{
    let mut keys = Vec::new(alloc);
    for path in paths {
        keys.push(key_of(alloc, path)?)?;
    }
    Ok(keys)
}

fn key_names<'a>(alloc: Global, keys: &'a [Sequence<u8>]) -> Result<Vec<&'a [u8]>, AllocError>
    ensures { IfOk result (λ names. names_of names.items ≡ keys.entry.now) }
{
    let mut names = Vec::new(alloc);
    for key in keys {
        names.push(key.as_slice())?;
    }
    Ok(names)
}

/// Whether no two of the paths are the same. It takes time in proportion to their names.
#[tactic(auto, using(crate::proofs::KeyLaws::keys_differ))]
fn paths_differ(alloc: Global, paths: &[Path]) -> Result<bool, AllocError>
    ensures { IfOk result (λ b. b ≡ paths_differ (path_views paths.now)) }
{
    let keys = path_keys(alloc, paths)?;
    let names = key_names(alloc, keys.as_slice())?;
    are_distinct(alloc, names.as_slice())
}

fn push_if<'a>(paths: &mut Vec<Path<'a>>, path: Option<Path<'a>>) -> Result<(), AllocError>
    ensures { OnOk result (paths.new.items ≡ paths.old.items ++ option_to_list path.entry) }
{
    if let Some(path) = path {
        paths.push(path)?;
    }
    Ok(())
}

fn state_path<'a>(one: &Pending<'a>) -> Option<Path<'a>>
    ensures { option_map path_view result
        ≡ state_path (refining_view one.now).path (refining_view one.now).change }
{
    match one.change {
        Change::State(_) => Some(Path {
            next: one.next,
            others: one.others,
        }),
        Change::Transition(_) => None,
    }
}

fn transition_path<'a>(one: &Pending<'a>) -> Option<Path<'a>>
    ensures { option_map path_view result
        ≡ transition_path (refining_view one.now).path (refining_view one.now).change }
{
    match one.change {
        Change::Transition(_) => Some(Path {
            next: one.next,
            others: one.others,
        }),
        Change::State(_) => None,
    }
}

fn state_paths<'a>(alloc: Global, pending: &[Pending<'a>]) -> Result<Vec<Path<'a>>, AllocError>
    ensures { IfOk result (λ v.
        path_views v.items
        ≡ filter_map (λ r. state_path r.path r.change) (refining_views pending.now)) }
{
    let mut paths = Vec::new(alloc);
    for one in pending {
        push_if(&mut paths, state_path(one))?;
    }
    Ok(paths)
}

fn transition_paths<'a>(alloc: Global, pending: &[Pending<'a>]) -> Result<Vec<Path<'a>>, AllocError>
    ensures { IfOk result (λ v.
        path_views v.items
        ≡ filter_map (λ r. transition_path r.path r.change) (refining_views pending.now)) }
{
    let mut paths = Vec::new(alloc);
    for one in pending {
        push_if(&mut paths, transition_path(one))?;
    }
    Ok(paths)
}

/// Whether no two of the refinements are of one state or of one transition.
#[tactic(auto, unfolding(crate::specs::Derived::once_of))]
fn once_of<'a>(alloc: Global, pending: &[Pending<'a>]) -> Result<bool, AllocError>
    ensures { IfOk result (λ b. b ≡ once_of (refining_views pending.now)) }
{
    let states = state_paths(alloc, pending)?;
    let transitions = transition_paths(alloc, pending)?;
    if !paths_differ(alloc, states.as_slice())? {
        return Ok(false);
    }
    paths_differ(alloc, transitions.as_slice())
}

/// Whether no two of the refinements of a class are of one state or of one transition. It takes time in
/// proportion to their names.
pub fn refines_once(alloc: Global, class: &ActorClass) -> Result<bool, AllocError>
    ensures { IfOk result (λ b. b ≡ refines_once (actor_view class.now)) }
{
    let pending = refinements_of(alloc, class)?;
    once_of(alloc, pending.as_slice())
}
