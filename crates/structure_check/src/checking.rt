//! Checking a model.

ghost use Rattle.std.specs.Prelude.{◌≡◌, ◌<◌, true, IfOk, None, List, option_map};
ghost use Rattle.check_tables.specs.containment_rules.Circles.{data_is_finite};
ghost use Rattle.room_ast.specs.Trees.{ModelTree, model_view};
ghost use Rattle.check_tables.specs.class_tables.Containers.{tables_of};
ghost use Rattle.structure_check.specs.Rules.{Rule, first_broken, IsLowest, RiseAbove};
ghost use Rattle.structure_check.specs.List.{mappings_hold, rule_of, flat_rules, all_rules};
ghost use Rattle.structure_check.specs.Checks.{IsChecked, TellsLowest};
ghost use Rattle.structure_check.specs.Classes.{HasClasses};
ghost use Rattle.structure_check.specs.Ranks.{ReferencesFall};

use crate::checked_model::Checked;
use crate::fault::CheckFault;
use crate::flat_rule::FlatRule;
use check_bindings::{
    any_places_at_end_ports, any_places_bind_once, binding_sides_agree, binding_sides_exist,
    imported_classes_have_end_ports, layers_are_known, replicates_in_range,
    subsystem_references_are_plain, threads_are_few,
};
use check_classes::{
    has_class_names, has_field_names, has_fitting_values, has_known_actors, has_known_protocols,
    has_known_types, has_message_names, has_one_system, has_own_ports, has_part_names,
    has_small_classes,
};
use check_mappings::{
    has_few_parts, mappings_are_allowed, mappings_are_distinct, mappings_are_known,
};
use check_scopes::{actor_classes, scopes_of};
use check_tables::{Tables, actors_are_finite, data_is_finite, tables_of};
use room_ast::Model;
use std::alloc::{AllocError, Global};

/// All rules, in the order in which they are told.
const RULES: [FlatRule; 25] = [
    FlatRule::OneSystem,
    FlatRule::ClassNames,
    FlatRule::PartNames,
    FlatRule::MessageNames,
    FlatRule::FieldNames,
    FlatRule::KnownTypes,
    FlatRule::FiniteData,
    FlatRule::SmallClasses,
    FlatRule::FittingValues,
    FlatRule::KnownProtocols,
    FlatRule::OwnPorts,
    FlatRule::KnownActors,
    FlatRule::FiniteActors,
    FlatRule::Replication,
    FlatRule::AnyPlacesAtEnds,
    FlatRule::PlainSubsystems,
    FlatRule::ImportedEnds,
    FlatRule::BindingSides,
    FlatRule::SidesAgree,
    FlatRule::AnyPlacesOnce,
    FlatRule::KnownLayers,
    FlatRule::FewThreads,
    FlatRule::KnownMappings,
    FlatRule::AllowedMappings,
    FlatRule::FewParts,
];

/// Whether every mapping names a path that exists and a thread, and no path is mapped twice.
fn mappings_hold(alloc: Global, model: &Model, tables: &Tables) -> Result<bool, AllocError>
    requires { tables.now ≡ tables_of (model_view model.now) }
    ensures { IfOk result (λ b. b ≡ mappings_hold (model_view model.now)) }
{
    if !mappings_are_known(alloc, model, tables)? {
        return Ok(false);
    }
    let distinct = mappings_are_distinct(alloc, model, tables)?;
    Ok(distinct)
}

/// Whether a model keeps a rule. Those behind the seventh take it for granted that no data class contains
/// itself.
fn keeps(alloc: Global, model: &Model, tables: &Tables, rule: FlatRule) -> Result<bool, AllocError>
    requires tables { tables.now ≡ tables_of (model_view model.now) }
    requires finite { 7 < (rule_of rule).number → data_is_finite (model_view model.now) ≡ true }
    ensures { IfOk result (λ b. b ≡ (rule_of rule).keeps (model_view model.now)) }
{
    match rule {
        FlatRule::OneSystem => has_one_system(alloc, model, tables),
        FlatRule::ClassNames => has_class_names(alloc, model),
        FlatRule::PartNames => has_part_names(alloc, model),
        FlatRule::MessageNames => has_message_names(alloc, model),
        FlatRule::FieldNames => has_field_names(alloc, model),
        FlatRule::KnownTypes => Ok(has_known_types(model, tables)),
        FlatRule::FiniteData => data_is_finite(alloc, model, tables),
        FlatRule::SmallClasses => has_small_classes(alloc, tables),
        FlatRule::FittingValues => Ok(has_fitting_values(model)),
        FlatRule::KnownProtocols => Ok(has_known_protocols(model, tables)),
        FlatRule::OwnPorts => has_own_ports(alloc, model),
        FlatRule::KnownActors => Ok(has_known_actors(model, tables)),
        FlatRule::FiniteActors => actors_are_finite(alloc, model, tables),
        FlatRule::Replication => Ok(replicates_in_range(tables)),
        FlatRule::AnyPlacesAtEnds => Ok(any_places_at_end_ports(tables)),
        FlatRule::PlainSubsystems => subsystem_references_are_plain(alloc, tables),
        FlatRule::ImportedEnds => imported_classes_have_end_ports(alloc, tables),
        FlatRule::BindingSides => Ok(binding_sides_exist(model, tables)),
        FlatRule::SidesAgree => Ok(binding_sides_agree(model, tables)),
        FlatRule::AnyPlacesOnce => Ok(any_places_bind_once(model, tables)),
        FlatRule::KnownLayers => Ok(layers_are_known(model, tables)),
        FlatRule::FewThreads => threads_are_few(alloc, model),
        FlatRule::KnownMappings => mappings_hold(alloc, model, tables),
        FlatRule::AllowedMappings => mappings_are_allowed(alloc, model, tables),
        FlatRule::FewParts => has_few_parts(alloc, model, tables),
    }
}

/// The first of all rules that a model breaks.
fn first_broken(
    alloc: Global,
    model: &Model,
    tables: &Tables,
    rules: &[FlatRule],
) -> Result<Option<FlatRule>, AllocError>
    requires tables { tables.now ≡ tables_of (model_view model.now) }
    requires rules { rules.now ≡ flat_rules }
    ensures { IfOk result (λ r. option_map (λ x. (rule_of x).number) r
        ≡ first_broken all_rules (model_view model.now)) }
{
    for rule in rules {
        if !keeps(alloc, model, tables, *rule)? {
            return Ok(Some(*rule));
        }
    }
    Ok(None)
}

/// A model that breaks no rule, with what its actor classes can name.
#[tactic(auto, using(crate::proofs::KeptRules::all_finite, crate::proofs::KeptRules::all_fitting, crate::proofs::KeptRules::all_few))]
fn scoped<'a>(alloc: Global, model: &'a Model, tables: &Tables) -> Result<Checked<'a>, AllocError>
    requires tables { tables.now ≡ tables_of (model_view model.now) }
    requires kept { first_broken all_rules (model_view model.now) ≡ None }
    ensures model { IfOk result (λ c. model_view c.model.now ≡ model_view model.entry.now) }
    ensures classes { IfOk result (λ c. HasClasses c) }
{
    let classes = actor_classes(alloc, model.classes.as_slice())?;
    let scopes = scopes_of(alloc, model, tables)?;
    Ok(Checked {
        model,
        classes,
        scopes,
    })
}

/// The answer for a model that breaks no rule.
fn kept<'a>(alloc: Global, model: &'a Model, tables: &Tables) -> Result<Checked<'a>, CheckFault>
    requires tables { tables.now ≡ tables_of (model_view model.now) }
    requires kept { first_broken all_rules (model_view model.now) ≡ None }
    ensures answer { IsChecked (model_view model.entry.now) result }
    ensures lowest { TellsLowest (model_view model.entry.now) result }
    ensures references { IfOk result (λ c. ReferencesFall (model_view model.entry.now)) }
{
    let checked = scoped(alloc, model, tables)?;
    Ok(checked)
}

/// The answer for a model, by its tables.
#[tactic(auto, using(crate::proofs::Asking::told_none))]
fn judged<'a>(alloc: Global, model: &'a Model, tables: &Tables) -> Result<Checked<'a>, CheckFault>
    requires { tables.now ≡ tables_of (model_view model.now) }
    ensures answer { IsChecked (model_view model.entry.now) result }
    ensures lowest { TellsLowest (model_view model.entry.now) result }
    ensures references { IfOk result (λ c. ReferencesFall (model_view model.entry.now)) }
{
    match first_broken(alloc, model, tables, &RULES)? {
        Some(rule) => Err(CheckFault::Rule(rule)),
        None => kept(alloc, model, tables),
    }
}

/// Checks a model. It takes time in proportion to the model and to the scopes of its classes.
pub fn check<'a>(alloc: Global, model: &'a Model) -> Result<Checked<'a>, CheckFault>
    ensures answer { IsChecked (model_view model.entry.now) result }
    ensures lowest { TellsLowest (model_view model.entry.now) result }
    ensures references { IfOk result (λ c. ReferencesFall (model_view model.entry.now)) }
{
    let tables = tables_of(alloc, model)?;
    judged(alloc, model, &tables)
}

/// The first rule that is broken, of rules whose numbers rise, is the lowest one broken.
#[tactic(auto, using(crate::proofs::Laws::lowest))]
pub fn lowest_is_found()
    ensures { (rules : List Rule) (m : ModelTree) → RiseAbove 0 rules
        → IsLowest rules m (first_broken rules m) }
{}
