//! The structure of a whole model by number.

ghost use Rattle.std.specs.Prelude.{◌≡◌, IfOk, map, option_map};
ghost use Rattle.std.specs.List.{filter_map};
ghost use Rattle.room_ast.specs.Trees.{class_view, model_view};
ghost use Rattle.room_ast.specs.model_parts.Classes.{as_system, first_reference, wired_name};
ghost use Rattle.check_tables.specs.class_tables.Containers.{tables_of};
ghost use Rattle.wiring_plan.specs.structure_plan.Plans.{plan_of};
ghost use Rattle.wiring_plan.specs.structure_plan.Walked.{actor_plans, named_plan, wired_plan, plan_in};

use crate::structure_plan::classes::{actor_plan, no_plan, subsystem_plan};
use crate::structure_plan::plan::{ClassPlan, StructurePlan};
use check_tables::{Container, Tables, structure_items};
use room_ast::{Class, Model, Name, SubsystemRef};
use room_kinds::Sequence;
use std::alloc::{AllocError, Global};

/// The plans of the actor classes, where `left` is what each knows of its parts.
fn actor_plans<'m, 't>(
    alloc: Global,
    classes: &[Class],
    actors: &'t [Container<'m>],
) -> Result<Vec<ClassPlan>, AllocError>
    ensures { IfOk result (λ v.
        v.items ≡ actor_plans actors.entry.now (map class_view classes.now)) }
{
    let mut plans = Vec::with_capacity(alloc, actors.len())?;
    let mut left = actors;
    for class in classes {
        if let Class::Actor(actor) = class {
            let [own, others @ ..] = left else {
                return Ok(plans);
            };
            plans.push(actor_plan(alloc, actors, own, structure_items(actor))?)?;
            left = others;
        }
    }
    Ok(plans)
}

/// The plan of the first subsystem class with this name, if there is one.
fn named_plan<'m, 't>(
    alloc: Global,
    name: &Name,
    classes: &[Class],
    actors: &'t [Container<'m>],
    subsystems: &'t [Container<'m>],
) -> Result<Option<ClassPlan>, AllocError>
    ensures { IfOk result (λ p.
        p
        ≡ named_plan actors.entry.now subsystems.entry.now (map class_view classes.now) name.now) }
{
    let mut left = subsystems;
    for class in classes {
        if let Class::Subsystem(subsystem) = class {
            let [own, others @ ..] = left else {
                return Ok(None);
            };
            if name.is(subsystem.name.as_bytes()) {
                let plan = subsystem_plan(alloc, actors, own, subsystem.items.as_slice())?;
                return Ok(Some(plan));
            }
            left = others;
        }
    }
    Ok(None)
}

fn first_reference<'m>(references: &'m [SubsystemRef]) -> Option<&'m Name>
    ensures { option_map (λ n. n.now) result ≡ first_reference references.entry.now }
{
    match references {
        [first, ..] => Some(&first.class),
        [] => None,
    }
}

/// The name of the subsystem class that is wired.
pub fn wired_name<'m>(classes: &'m [Class]) -> Option<&'m Name>
    ensures { option_map (λ n. n.now) result
        ≡ wired_name (filter_map as_system (map class_view classes.entry.now)) }
{
    for class in classes {
        if let Class::System(system) = class {
            return first_reference(system.references.as_slice());
        }
    }
    None
}

fn wired_plan<'m, 't>(
    alloc: Global,
    classes: &[Class],
    actors: &'t [Container<'m>],
    subsystems: &'t [Container<'m>],
) -> Result<ClassPlan, AllocError>
    ensures { IfOk result (λ p.
        p ≡ wired_plan actors.entry.now subsystems.entry.now (map class_view classes.now)) }
{
    let Some(name) = wired_name(classes) else {
        return Ok(no_plan(alloc));
    };
    match named_plan(alloc, name, classes, actors, subsystems)? {
        Some(plan) => Ok(plan),
        None => Ok(no_plan(alloc)),
    }
}

fn plan_in<'m, 't>(
    alloc: Global,
    classes: &[Class],
    actors: &'t [Container<'m>],
    subsystems: &'t [Container<'m>],
) -> Result<StructurePlan, AllocError>
    ensures { IfOk result (λ p.
        p ≡ plan_in actors.entry.now subsystems.entry.now (map class_view classes.now)) }
{
    let plans = actor_plans(alloc, classes, actors)?;
    let subsystem = wired_plan(alloc, classes, actors, subsystems)?;
    Ok(StructurePlan {
        classes: Sequence::from(plans),
        subsystem,
    })
}

/// The structure of a model by number, where these are its tables. It takes time in proportion to the
/// model.
#[tactic(auto, using(crate::proofs::structure_plan::Walks::plan_is))]
pub fn plan_of(alloc: Global, model: &Model, tables: &Tables) -> Result<StructurePlan, AllocError>
    requires { tables.now ≡ tables_of (model_view model.now) }
    ensures { IfOk result (λ p. p ≡ plan_of (model_view model.now)) }
{
    plan_in(
        alloc,
        model.classes.as_slice(),
        tables.actors.as_slice(),
        tables.subsystems.as_slice(),
    )
}
