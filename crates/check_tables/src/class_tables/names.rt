//! Lists of the names of classes.

ghost use Rattle.std.specs.Prelude.{◌≡◌, ◌++◌, IfOk, OnOk, option_map, map};
ghost use Rattle.std.specs.List.{filter_map};
ghost use Rattle.std.specs.Option.{option_to_list};
ghost use Rattle.name_tables.specs.name_numbers.Names.{names_of};
ghost use Rattle.room_ast.specs.Trees.{class_view};
ghost use Rattle.room_ast.specs.model_parts.Classes.{as_subsystem, as_actor, as_protocol, as_data};

use room_ast::{Class, Name};
use std::alloc::{AllocError, Global};

/// Adds a name, if there is one.
pub fn add_name<'a>(names: &mut Vec<&'a [u8]>, name: Option<&'a Name>) -> Result<(), AllocError>
    ensures { OnOk result (names_of names.new.items ≡ names_of names.old.items ++ option_to_list (option_map (λ n. n.now) name.entry)) }
{
    if let Some(name) = name {
        names.push(name.as_bytes())?;
    }
    Ok(())
}

fn subsystem_name<'a>(class: &'a Class) -> Option<&'a Name>
    ensures { option_map (λ n. n.now) result ≡ option_map (λ k. k.name) (as_subsystem (class_view class.now)) }
{
    match class {
        Class::Subsystem(s) => Some(&s.name),
        _ => None,
    }
}

/// The names of the subsystem classes among classes.
pub fn subsystem_names<'a>(alloc: Global, classes: &'a [Class]) -> Result<Vec<&'a [u8]>, AllocError>
    ensures { IfOk result (λ v. names_of v.items ≡ map (λ k. k.name) (filter_map as_subsystem (map class_view classes.now))) }
{
    let mut names = Vec::new(alloc);
    for class in classes {
        add_name(&mut names, subsystem_name(class))?;
    }
    Ok(names)
}

fn actor_name<'a>(class: &'a Class) -> Option<&'a Name>
    ensures { option_map (λ n. n.now) result ≡ option_map (λ k. k.name) (as_actor (class_view class.now)) }
{
    match class {
        Class::Actor(a) => Some(&a.name),
        _ => None,
    }
}

/// The names of the actor classes among classes.
pub fn actor_names<'a>(alloc: Global, classes: &'a [Class]) -> Result<Vec<&'a [u8]>, AllocError>
    ensures { IfOk result (λ v. names_of v.items ≡ map (λ k. k.name) (filter_map as_actor (map class_view classes.now))) }
{
    let mut names = Vec::new(alloc);
    for class in classes {
        add_name(&mut names, actor_name(class))?;
    }
    Ok(names)
}

fn protocol_name<'a>(class: &'a Class) -> Option<&'a Name>
    ensures { option_map (λ n. n.now) result ≡ option_map (λ k. k.name) (as_protocol (class_view class.now)) }
{
    match class {
        Class::Protocol(p) => Some(&p.name),
        _ => None,
    }
}

/// The names of the protocol classes among classes.
pub fn protocol_names<'a>(alloc: Global, classes: &'a [Class]) -> Result<Vec<&'a [u8]>, AllocError>
    ensures { IfOk result (λ v. names_of v.items ≡ map (λ k. k.name) (filter_map as_protocol (map class_view classes.now))) }
{
    let mut names = Vec::new(alloc);
    for class in classes {
        add_name(&mut names, protocol_name(class))?;
    }
    Ok(names)
}

fn data_name<'a>(class: &'a Class) -> Option<&'a Name>
    ensures { option_map (λ n. n.now) result ≡ option_map (λ k. k.name) (as_data (class_view class.now)) }
{
    match class {
        Class::Data(d) => Some(&d.name),
        _ => None,
    }
}

/// The names of the data classes among classes.
pub fn data_names<'a>(alloc: Global, classes: &'a [Class]) -> Result<Vec<&'a [u8]>, AllocError>
    ensures { IfOk result (λ v. names_of v.items ≡ map (λ k. k.name) (filter_map as_data (map class_view classes.now))) }
{
    let mut names = Vec::new(alloc);
    for class in classes {
        add_name(&mut names, data_name(class))?;
    }
    Ok(names)
}
