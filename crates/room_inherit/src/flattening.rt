//! The model without bases and refinements.
ghost use Rattle.std.specs.Prelude.{◌≡◌, true, IfOk, map};
ghost use Rattle.number_graphs.specs.class_containment.Containment.{IsContainmentOrder};
ghost use Rattle.room_ast.specs.Trees.{class_view, model_view};
ghost use Rattle.room_ast.specs.model_parts.Classes.{class_name};
ghost use Rattle.room_inherit.specs.Filling.{replaced};
ghost use Rattle.room_inherit.specs.BaseRules.{number_of};
ghost use Rattle.room_inherit.specs.Flattening.{IsFlattened, IsFlat, AreFlat, OrdersBases, FillsModel, rule_of_large};
ghost use Rattle.room_inherit.specs.Rules.{extended, extends_nothing, bases_are_known, refinements_are_known};
ghost use Rattle.room_inherit.specs.Views.{flat_views};

use crate::base_rule::BaseRule;
use crate::class_order::depth_order;
use crate::counting::is_small;
use crate::fault::InheritFault;
use crate::filling::{Filling, filled, put_flats};
use crate::judging::{judged, last_uses};
use crate::rules::{
    bases_are_known, extended_classes, extends_nothing, names_of_classes, refinements_differ,
    refinements_stand_right,
};
use name_tables::NameIndex;
use room_ast::{ActorClass, Model};
use room_kinds::Sequence;
use std::alloc::{AllocError, Global};

/// Whether every base names an actor class.
#[tactic(auto, unfolding(crate::specs::Rules::bases_are_known))]
fn has_known_bases(model: &Model, names: &NameIndex) -> bool
    requires { names.now ≡ map class_name (model_view model.now).classes }
    ensures { result ≡ bases_are_known (model_view model.now) }
{
    bases_are_known(model.classes.as_slice(), names)
}

/// An order of the classes in which bases come first; none where a class extends itself.
#[tactic(auto, using(crate::proofs::Orders::orders_bases))]
fn order_of_bases(
    alloc: Global,
    model: &Model,
    names: &NameIndex,
) -> Result<Option<Vec<usize>>, AllocError>
    requires { names.now ≡ map class_name (model_view model.now).classes }
    ensures { IfOk result (λ order. OrdersBases (model_view model.now) order) }
{
    let extended = extended_classes(alloc, model.classes.as_slice(), names)?;
    let order = depth_order(alloc, extended.as_slice())?;
    Ok(order)
}

/// The flat classes, unless a refinement names what the base hasn't, or they are too large.
#[tactic(auto, using(crate::proofs::Orders::fills_model))]
fn fill(
    alloc: Global,
    model: &Model,
    names: &NameIndex,
    order: &[usize],
) -> Result<Filling, AllocError>
    requires names { names.now ≡ map class_name (model_view model.now).classes }
    requires order { IsContainmentOrder
        (map (extended (model_view model.now).classes) (model_view model.now).classes) order.now }
    ensures { IfOk result (λ found. FillsModel (model_view model.now) found) }
{
    let found = filled(alloc, names, model.classes.as_slice(), order)?;
    Ok(found)
}

/// Whether each refinement names what the flat chart of its class's base has. It needs no flat class.
fn refinements_are_known(
    alloc: Global,
    model: &Model,
    names: &NameIndex,
    order: &[usize],
) -> Result<bool, AllocError>
    requires names { names.now ≡ map class_name (model_view model.now).classes }
    requires order { IsContainmentOrder
        (map (extended (model_view model.now).classes) (model_view model.now).classes) order.now }
    ensures { IfOk result (λ known. known ≡ refinements_are_known (model_view model.now)) }
{
    let classes = model.classes.as_slice();
    let last = last_uses(alloc, names, classes, order)?;
    let known = judged(alloc, names, classes, order, last.as_slice())?;
    Ok(known)
}

/// The lowest broken rule of a model that keeps those below 29, and whose flat classes are too large.
fn rule_of_large(
    alloc: Global,
    model: &Model,
    names: &NameIndex,
    order: &[usize],
) -> Result<BaseRule, AllocError>
    requires names { names.now ≡ map class_name (model_view model.now).classes }
    requires order { IsContainmentOrder
        (map (extended (model_view model.now).classes) (model_view model.now).classes) order.now }
    ensures { IfOk result (λ rule. number_of rule ≡ rule_of_large (model_view model.now)) }
{
    if !refinements_are_known(alloc, model, names, order)? {
        return Ok(BaseRule::KnownRefinements);
    }
    if !refinements_differ(alloc, model)? {
        return Ok(BaseRule::RefinedOnce);
    }
    Ok(BaseRule::SmallModel)
}

/// The flat classes of a model, by number, or the lowest rule that it breaks. Where all rules below 31
/// are kept, classes with too many tokens are refused before all of them are taken.
fn flat_classes(alloc: Global, model: &Model) -> Result<Vec<Option<ActorClass>>, InheritFault>
    ensures { AreFlat (model_view model.now) result }
{
    let names = names_of_classes(alloc, model.classes.as_slice())?;
    if !has_known_bases(model, &names) {
        return Err(InheritFault::Rule(BaseRule::KnownBases));
    }
    let Some(order) = order_of_bases(alloc, model, &names)? else {
        return Err(InheritFault::Rule(BaseRule::NoCircle));
    };
    if !refinements_stand_right(model) {
        return Err(InheritFault::Rule(BaseRule::RightPlaces));
    }
    match fill(alloc, model, &names, order.as_slice())? {
        Filling::Flats(flats) => {
            if refinements_differ(alloc, model)? {
                Ok(flats)
            } else {
                Err(InheritFault::Rule(BaseRule::RefinedOnce))
            }
        }
        Filling::Unknown => Err(InheritFault::Rule(BaseRule::KnownRefinements)),
        Filling::TooMany => {
            let rule = rule_of_large(alloc, model, &names, order.as_slice())?;
            Err(InheritFault::Rule(rule))
        }
    }
}

/// The model with its flat classes, or the lowest rule that it breaks; that of the size is asked once more
/// of the whole model.
#[tactic(auto, using(crate::proofs::Plain::plain_keeps, crate::proofs::Plain::plain_is_flat))]
fn flat_model(alloc: Global, model: Model) -> Result<Model, InheritFault>
    ensures { IsFlat (model_view model) result }
{
    if extends_nothing(&model) {
        return Ok(model);
    }
    let flats = flat_classes(alloc, &model)?;
    let mut classes = model.classes.into_vec();
    put_flats(&mut classes, flats);
    Ok(Model {
        name: model.name,
        imports: model.imports,
        classes: Sequence::from(classes),
    })
}

/// The model with each actor class replaced by its flat one, which has what its bases have and then its
/// own, and no base. A model in which no class has a base and no refinement stands is given back as it
/// is, without a copy. It refuses a model that breaks one of the rules 26 to 31.
#[tactic(auto, using(crate::proofs::Plain::plain_is_flat), unfolding(crate::specs::Rules::flat_is_small))]
pub fn flatten(alloc: Global, model: Model) -> Result<Model, InheritFault>
    ensures flat { IsFlattened (model_view model) result }
    ensures itself { extends_nothing (model_view model) ≡ true
        → IfOk result (λ r. model_view r ≡ model_view model) }
{
    let flat = flat_model(alloc, model)?;
    if is_small(&flat) {
        Ok(flat)
    } else {
        Err(InheritFault::Rule(BaseRule::SmallModel))
    }
}
