//! The tables of a model.

ghost use Rattle.std.specs.Prelude.{◌≡◌, IfOk, option_map, map};
ghost use Rattle.std.specs.List.{filter_map};
ghost use Rattle.room_ast.specs.Trees.{class_view, model_view};
ghost use Rattle.room_ast.specs.model_parts.Classes.{as_actor, as_subsystem, data_names_in, protocol_names_in, actor_names_in, subsystem_names_in};
ghost use Rattle.room_ast.specs.model_parts.Types.{data_types_in};
ghost use Rattle.check_tables.specs.class_tables.Containers.{actor_container, subsystem_container, actor_containers, subsystem_containers, class_names, tables_with, tables_in, tables_of};

use crate::class_tables::container::{Container, actor_container, subsystem_container};
use crate::class_tables::names::{actor_names, data_names, protocol_names, subsystem_names};
use crate::class_tables::ports::push_if;
use crate::class_tables::types::data_types;
use name_tables::NameIndex;
use room_ast::{Class, Model, TypeEntry};
use room_kinds::Sequence;
use std::alloc::{AllocError, Global};

/// The names of the classes of each kind, by number. Where two classes of a kind have one name, it
/// names the first.
#[derive(Drop)]
pub struct ClassNames<'a> {
    pub data_classes: NameIndex<'a>,
    pub protocols: NameIndex<'a>,
    pub actors: NameIndex<'a>,
    pub subsystems: NameIndex<'a>,
}

/// The classes of a model by kind and number, each kind numbered from 0 in order of declaration, with
/// what they know of their parts.
#[derive(Drop)]
pub struct Tables<'a> {
    pub names: ClassNames<'a>,
    /// The types of the fields of each data class.
    pub data_types: Sequence<Sequence<TypeEntry>>,
    pub actors: Sequence<Container<'a>>,
    pub subsystems: Sequence<Container<'a>>,
}

fn container_if_actor<'a>(
    alloc: Global,
    class: &'a Class,
    protocols: &NameIndex,
    actors: &NameIndex,
) -> Result<Option<Container<'a>>, AllocError>
    ensures { IfOk result (λ c. c ≡ option_map (actor_container protocols.now actors.now) (as_actor (class_view class.now))) }
{
    match class {
        Class::Actor(a) => {
            let container = actor_container(alloc, a, protocols, actors)?;
            Ok(Some(container))
        }
        _ => Ok(None),
    }
}

fn container_if_subsystem<'a>(
    alloc: Global,
    class: &'a Class,
    actors: &NameIndex,
) -> Result<Option<Container<'a>>, AllocError>
    ensures { IfOk result (λ c. c ≡ option_map (subsystem_container actors.now) (as_subsystem (class_view class.now))) }
{
    match class {
        Class::Subsystem(s) => {
            let container = subsystem_container(alloc, s.items.as_slice(), actors)?;
            Ok(Some(container))
        }
        _ => Ok(None),
    }
}

fn containers_of_actors<'a>(
    alloc: Global,
    classes: &'a [Class],
    protocols: &NameIndex,
    actors: &NameIndex,
) -> Result<Vec<Container<'a>>, AllocError>
    ensures { IfOk result (λ v. v.items ≡ map (actor_container protocols.now actors.now) (filter_map as_actor (map class_view classes.now))) }
{
    let mut containers = Vec::new(alloc);
    for class in classes {
        push_if(
            &mut containers,
            container_if_actor(alloc, class, protocols, actors)?,
        )?;
    }
    Ok(containers)
}

fn containers_of_subsystems<'a>(
    alloc: Global,
    classes: &'a [Class],
    actors: &NameIndex,
) -> Result<Vec<Container<'a>>, AllocError>
    ensures { IfOk result (λ v. v.items ≡ map (subsystem_container actors.now) (filter_map as_subsystem (map class_view classes.now))) }
{
    let mut containers = Vec::new(alloc);
    for class in classes {
        push_if(
            &mut containers,
            container_if_subsystem(alloc, class, actors)?,
        )?;
    }
    Ok(containers)
}

#[tactic(auto, unfolding(room_ast::specs::model_parts::Classes::data_names_in))]
fn data_index<'a>(alloc: Global, classes: &'a [Class]) -> Result<NameIndex<'a>, AllocError>
    ensures { IfOk result (λ n. n ≡ data_names_in (map class_view classes.now)) }
{
    let names = data_names(alloc, classes)?;
    NameIndex::of(alloc, names)
}

#[tactic(auto, unfolding(room_ast::specs::model_parts::Classes::protocol_names_in))]
fn protocol_index<'a>(alloc: Global, classes: &'a [Class]) -> Result<NameIndex<'a>, AllocError>
    ensures { IfOk result (λ n. n ≡ protocol_names_in (map class_view classes.now)) }
{
    let names = protocol_names(alloc, classes)?;
    NameIndex::of(alloc, names)
}

#[tactic(auto, unfolding(room_ast::specs::model_parts::Classes::actor_names_in))]
fn actor_index<'a>(alloc: Global, classes: &'a [Class]) -> Result<NameIndex<'a>, AllocError>
    ensures { IfOk result (λ n. n ≡ actor_names_in (map class_view classes.now)) }
{
    let names = actor_names(alloc, classes)?;
    NameIndex::of(alloc, names)
}

#[tactic(auto, unfolding(room_ast::specs::model_parts::Classes::subsystem_names_in))]
fn subsystem_index<'a>(alloc: Global, classes: &'a [Class]) -> Result<NameIndex<'a>, AllocError>
    ensures { IfOk result (λ n. n ≡ subsystem_names_in (map class_view classes.now)) }
{
    let names = subsystem_names(alloc, classes)?;
    NameIndex::of(alloc, names)
}

#[tactic(auto, unfolding(room_ast::specs::model_parts::Types::data_types_in))]
fn data_table(
    alloc: Global,
    classes: &[Class],
    names: &NameIndex,
) -> Result<Sequence<Sequence<TypeEntry>>, AllocError>
    ensures { IfOk result (λ t. t ≡ data_types_in names.now (map class_view classes.now)) }
{
    let types = data_types(alloc, classes, names)?;
    Ok(Sequence::from(types))
}

#[tactic(auto, unfolding(crate::specs::class_tables::Containers::actor_containers))]
fn actor_table<'a>(
    alloc: Global,
    classes: &'a [Class],
    protocols: &NameIndex,
    actors: &NameIndex,
) -> Result<Sequence<Container<'a>>, AllocError>
    ensures { IfOk result (λ t. t ≡ actor_containers protocols.now actors.now (map class_view classes.now)) }
{
    let mut containers = containers_of_actors(alloc, classes, protocols, actors)?;
    containers.shrink_to_fit();
    Ok(Sequence::from(containers))
}

#[tactic(auto, unfolding(crate::specs::class_tables::Containers::subsystem_containers))]
fn subsystem_table<'a>(
    alloc: Global,
    classes: &'a [Class],
    actors: &NameIndex,
) -> Result<Sequence<Container<'a>>, AllocError>
    ensures { IfOk result (λ t. t ≡ subsystem_containers actors.now (map class_view classes.now)) }
{
    let containers = containers_of_subsystems(alloc, classes, actors)?;
    Ok(Sequence::from(containers))
}

/// What tables have beside the names: the types of fields, and what the actor classes and the subsystem
/// classes know of their parts.
fn contents_with<'a>(
    alloc: Global,
    classes: &'a [Class],
    names: &ClassNames,
) -> Result<
    (
        Sequence<Sequence<TypeEntry>>,
        (Sequence<Container<'a>>, Sequence<Container<'a>>),
    ),
    AllocError,
>
    ensures data_types { IfOk result (λ c. c.0 ≡ data_types_in names.now.data_classes (map class_view classes.now)) }
    ensures actors { IfOk result (λ c. c.1.0 ≡ actor_containers names.now.protocols names.now.actors (map class_view classes.now)) }
    ensures subsystems { IfOk result (λ c. c.1.1 ≡ subsystem_containers names.now.actors (map class_view classes.now)) }
{
    let data_types = data_table(alloc, classes, &names.data_classes)?;
    let actors = actor_table(alloc, classes, &names.protocols, &names.actors)?;
    let subsystems = subsystem_table(alloc, classes, &names.actors)?;
    Ok((data_types, (actors, subsystems)))
}

/// The tables of classes of which these are the names.
#[tactic(auto, unfolding(crate::specs::class_tables::Containers::tables_with))]
fn tables_with<'a>(
    alloc: Global,
    classes: &'a [Class],
    names: ClassNames<'a>,
) -> Result<Tables<'a>, AllocError>
    ensures { IfOk result (λ t. t ≡ tables_with names.entry (map class_view classes.now)) }
{
    let (data_types, (actors, subsystems)) = contents_with(alloc, classes, &names)?;
    Ok(Tables {
        names,
        data_types,
        actors,
        subsystems,
    })
}

#[tactic(auto, unfolding(crate::specs::class_tables::Containers::class_names))]
fn names_in<'a>(alloc: Global, classes: &'a [Class]) -> Result<ClassNames<'a>, AllocError>
    ensures { IfOk result (λ n. n ≡ class_names (map class_view classes.now)) }
{
    let data_classes = data_index(alloc, classes)?;
    let protocols = protocol_index(alloc, classes)?;
    let actors = actor_index(alloc, classes)?;
    let subsystems = subsystem_index(alloc, classes)?;
    Ok(ClassNames {
        data_classes,
        protocols,
        actors,
        subsystems,
    })
}

fn tables_in<'a>(alloc: Global, classes: &'a [Class]) -> Result<Tables<'a>, AllocError>
    ensures { IfOk result (λ t. t ≡ tables_in (map class_view classes.now)) }
{
    let names = names_in(alloc, classes)?;
    tables_with(alloc, classes, names)
}

/// The tables of a model. They take time in proportion to the model.
pub fn tables_of<'a>(alloc: Global, model: &'a Model) -> Result<Tables<'a>, AllocError>
    ensures { IfOk result (λ t. t ≡ tables_of (model_view model.now)) }
{
    tables_in(alloc, model.classes.as_slice())
}
