//! Where transitions begin and lead.
ghost use Rattle.std.specs.Prelude.{◌≡◌, IfOk};
ghost use Rattle.chart_trees.specs.chart_graphs.Views.{source_view, target_view};
ghost use Rattle.chart_trees.specs.Around.{source_at, source_of, target_of};
ghost use Rattle.chart_trees.specs.Views.{around_view};

use crate::around::Around;
use crate::chart_graphs::{Source, Target};
use std::alloc::{AllocError, Global};

fn source_at(
    alloc: Global,
    written: &room_ast::Target,
    around: &Around,
) -> Result<Source, AllocError>
    ensures { IfOk result (λ s. source_view s ≡ source_at (around_view around.now) written.now) }
{
    match written {
        room_ast::Target::Bare(name) => {
            let is_state = around.states.has(name.as_bytes());
            let name = name.copy(alloc)?;
            if is_state {
                Ok(Source::State(name))
            } else {
                Ok(Source::Choice(name))
            }
        }
        room_ast::Target::Choice(name) => Ok(Source::Choice(name.copy(alloc)?)),
        room_ast::Target::My(name) => {
            let is_entry = around.entries.has(name.as_bytes());
            let name = name.copy(alloc)?;
            if is_entry {
                Ok(Source::Entry(name))
            } else {
                Ok(Source::Point(name))
            }
        }
        room_ast::Target::Of { point, state } => Ok(Source::Exit {
            point: point.copy(alloc)?,
            state: state.copy(alloc)?,
        }),
    }
}

/// Where a transition begins, among these names.
pub(crate) fn source(
    alloc: Global,
    written: &room_ast::Source,
    around: &Around,
) -> Result<Source, AllocError>
    ensures { IfOk result (λ s. source_view s ≡ source_of (around_view around.now) written.now) }
{
    match written {
        room_ast::Source::Initial => Ok(Source::Initial),
        room_ast::Source::At(terminal) => source_at(alloc, terminal, around),
    }
}

/// Where a transition leads, among these names.
pub(crate) fn target(
    alloc: Global,
    written: &room_ast::Target,
    around: &Around,
) -> Result<Target, AllocError>
    ensures { IfOk result (λ t. target_view t ≡ target_of (around_view around.now) written.now) }
{
    match written {
        room_ast::Target::Bare(name) => {
            let is_state = around.states.has(name.as_bytes());
            let name = name.copy(alloc)?;
            if is_state {
                Ok(Target::State(name))
            } else {
                Ok(Target::Choice(name))
            }
        }
        room_ast::Target::Choice(name) => Ok(Target::Choice(name.copy(alloc)?)),
        room_ast::Target::My(name) => Ok(Target::Exit(name.copy(alloc)?)),
        room_ast::Target::Of { point, state } => {
            let is_entry = around.has_entry_inside(point.as_bytes(), state.as_bytes());
            let point = point.copy(alloc)?;
            let state = state.copy(alloc)?;
            if is_entry {
                Ok(Target::Entry { point, state })
            } else {
                Ok(Target::Point { point, state })
            }
        }
    }
}
