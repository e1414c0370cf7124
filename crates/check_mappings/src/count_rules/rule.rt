//! The rule as a whole.

ghost use Rattle.std.specs.Prelude.{◌≡◌, true, IfOk};
ghost use Rattle.std.specs.List.{list_all};
ghost use Rattle.room_ast.specs.model_parts.Classes.{actors};
ghost use Rattle.room_ast.specs.Trees.{model_view};
ghost use Rattle.check_tables.specs.class_tables.Containers.{tables_of};
ghost use Rattle.check_tables.specs.containment_rules.Circles.{data_is_finite};
ghost use Rattle.check_mappings.specs.count_rules.Counts.{numbers_are_few, has_few_parts};

use crate::count_rules::numbers::all_numbers_fit;
use crate::count_rules::parts::{all_have_few, classes_are_few};
use check_classes::sizes_of;
use check_tables::Tables;
use room_ast::Model;
use std::alloc::{AllocError, Global};

/// Whether the attributes of each actor class stand for few numbers, where no data class contains
/// itself.
fn has_few_numbers(alloc: Global, model: &Model, tables: &Tables) -> Result<bool, AllocError>
    requires { tables.now ≡ tables_of (model_view model.now) }
    ensures { IfOk result (λ b.
        data_is_finite (model_view model.now) ≡ true
        → b ≡ list_all (numbers_are_few (model_view model.now)) (actors (model_view model.now))) }
{
    let classes = model.classes.as_slice();
    match sizes_of(alloc, tables.data_types.as_slice())? {
        Some(sizes) => Ok(all_numbers_fit(classes, &tables.names.data_classes, sizes.as_slice())),
        None => Ok(false),
    }
}

/// Whether a model has at most 60,000 classes, each protocol class at most 60,000 messages, each
/// actor class at most 60,000 ports and service points, each actor class and subsystem class at most
/// 60,000 references, each chart at most 60,000 states, and the attributes of each actor class stand
/// together for at most 4,096 numbers. It is asked where no data class contains itself, and takes
/// time in proportion to the model.
#[tactic(auto, unfolding(crate::specs::count_rules::Counts::has_few_parts))]
pub fn has_few_parts(alloc: Global, model: &Model, tables: &Tables) -> Result<bool, AllocError>
    requires { tables.now ≡ tables_of (model_view model.now) }
    ensures { IfOk result (λ b.
        data_is_finite (model_view model.now) ≡ true → b ≡ has_few_parts (model_view model.now)) }
{
    let classes = model.classes.as_slice();
    let few = has_few_numbers(alloc, model, tables)?;
    Ok(classes_are_few(classes) && all_have_few(classes) && few)
}
