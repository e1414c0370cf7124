//! Whether something is refined twice.
ghost use Rattle.std.specs.Prelude.{◌≡◌, IfOk, map};
ghost use Rattle.std.specs.List.{list_all};
ghost use Rattle.room_ast.specs.Trees.{class_view, model_view};
ghost use Rattle.derived_classes.specs.Derived.{refines_once};
ghost use Rattle.room_inherit.specs.Rules.{of_actor, refinements_differ};

use derived_classes::refines_once;
use room_ast::{Class, Model};
use std::alloc::{AllocError, Global};

fn class_refines_once(alloc: Global, class: &Class) -> Result<bool, AllocError>
    ensures { IfOk result (λ b. b ≡ of_actor refines_once (class_view class.now)) }
{
    match class {
        Class::Actor(class) => refines_once(alloc, class),
        _ => Ok(true),
    }
}

fn all_refine_once(alloc: Global, classes: &[Class]) -> Result<bool, AllocError>
    ensures { IfOk result (λ b. b ≡ list_all (of_actor refines_once) (map class_view classes.now)) }
{
    for class in classes {
        if !class_refines_once(alloc, class)? {
            return Ok(false);
        }
    }
    Ok(true)
}

/// Whether no class refines one state or one transition twice.
#[tactic(auto, unfolding(crate::specs::Rules::refinements_differ))]
pub(crate) fn refinements_differ(alloc: Global, model: &Model) -> Result<bool, AllocError>
    ensures { IfOk result (λ b. b ≡ refinements_differ (model_view model.now)) }
{
    all_refine_once(alloc, model.classes.as_slice())
}
