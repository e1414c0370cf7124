//! The threads of subsystem classes.

ghost use Rattle.std.specs.Prelude.{◌≡◌, IfOk, map};
ghost use Rattle.std.specs.List.{list_all};
ghost use Rattle.name_tables.specs.name_numbers.Names.{names_of};
ghost use Rattle.room_ast.specs.Trees.{class_view, model_view};
ghost use Rattle.check_bindings.specs.structure_rules.Threads.{are_few, has_few_threads, threads_are_few};

use check_mappings::thread_names;
use name_tables::are_distinct;
use room_ast::{Class, Model};
use std::alloc::{AllocError, Global};

/// The most threads of a SubSystemClass.
const MOST_THREADS: usize = 32;

pub(crate) fn are_few(alloc: Global, names: &[&[u8]]) -> Result<bool, AllocError>
    ensures { IfOk result (λ b. b ≡ are_few (names_of names.now)) }
{
    let distinct = are_distinct(alloc, names)?;
    Ok(names.len() <= MOST_THREADS && distinct)
}

fn has_few_threads(alloc: Global, class: &Class) -> Result<bool, AllocError>
    ensures { IfOk result (λ b. b ≡ has_few_threads (class_view class.now)) }
{
    match class {
        Class::Subsystem(subsystem) => {
            let names = thread_names(alloc, subsystem.items.as_slice())?;
            are_few(alloc, names.names())
        }
        _ => Ok(true),
    }
}

fn all_have_few_threads(alloc: Global, classes: &[Class]) -> Result<bool, AllocError>
    ensures { IfOk result (λ b. b ≡ list_all has_few_threads (map class_view classes.now)) }
{
    for class in classes {
        if !has_few_threads(alloc, class)? {
            return Ok(false);
        }
    }
    Ok(true)
}

/// Whether the threads of each SubSystemClass have distinct names, and are at most 32.
#[tactic(auto, unfolding(crate::specs::structure_rules::Threads::threads_are_few))]
pub fn threads_are_few(alloc: Global, model: &Model) -> Result<bool, AllocError>
    ensures { IfOk result (λ b. b ≡ threads_are_few (model_view model.now)) }
{
    all_have_few_threads(alloc, model.classes.as_slice())
}
