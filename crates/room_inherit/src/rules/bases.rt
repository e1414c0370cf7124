//! The classes that classes extend.
ghost use Rattle.std.specs.Prelude.{◌≡◌, IfOk, is_some, map, option_map};
ghost use Rattle.std.specs.List.{list_all};
ghost use Rattle.std.specs.Option.{option_and_then, option_to_list};
ghost use Rattle.name_tables.specs.name_numbers.Names.{names_of};
ghost use Rattle.room_ast.specs.Trees.{actor_view, class_view};
ghost use Rattle.room_ast.specs.model_parts.Classes.{as_actor, class_name, number_in};
ghost use Rattle.room_inherit.specs.Flat.{actor_at};
ghost use Rattle.room_inherit.specs.Rules.{of_actor, extended, has_known_base};

use name_tables::NameIndex;
use room_ast::{ActorClass, Class, Name};
use room_kinds::Sequence;
use std::alloc::{AllocError, Global};

fn class_name<'a>(class: &'a Class) -> &'a Name
    ensures { result.now ≡ class_name (class_view class.entry.now) }
{
    match class {
        Class::System(s) => &s.name,
        Class::Subsystem(s) => &s.name,
        Class::Actor(a) => &a.name,
        Class::Protocol(p) => &p.name,
        Class::Data(d) => &d.name,
    }
}

/// The names of all classes, in order of declaration.
fn class_names<'a>(alloc: Global, classes: &'a [Class]) -> Result<Vec<&'a [u8]>, AllocError>
    ensures { IfOk result (λ v.
        names_of v.items ≡ map class_name (map class_view classes.entry.now)) }
{
    let mut names = Vec::new(alloc);
    for class in classes {
        names.push(class_name(class).as_bytes())?;
    }
    Ok(names)
}

/// The name with which a class names its base.
fn base_name<'a>(class: &'a Class) -> Option<&'a Name>
    ensures { option_map (λ n. n.now) result
        ≡ option_and_then (λ a. a.base) (as_actor (class_view class.entry.now)) }
{
    match class {
        Class::Actor(actor) => match &actor.base {
            Some(name) => Some(name),
            None => None,
        },
        _ => None,
    }
}

/// The number of the class that a class extends, where these are the names of all classes: the first
/// of the name. There is none where it extends none, or where no class has the name.
fn number_above(class: &Class, names: &NameIndex) -> Option<usize>
    ensures { result ≡ option_and_then (number_in names.now) (option_and_then (λ a. a.base)
        (as_actor (class_view class.now))) }
{
    match base_name(class) {
        Some(name) => names.place_of(name.as_bytes()),
        None => None,
    }
}

/// The names of all classes, by number.
pub(crate) fn names_of_classes<'a>(
    alloc: Global,
    classes: &'a [Class],
) -> Result<NameIndex<'a>, AllocError>
    ensures { IfOk result (λ n. n ≡ map class_name (map class_view classes.entry.now)) }
{
    let names = class_names(alloc, classes)?;
    NameIndex::of(alloc, names)
}

fn is_actor(class: &Class) -> bool
    ensures { result ≡ is_some (as_actor (class_view class.now)) }
{
    match class {
        Class::Actor(_) => true,
        _ => false,
    }
}

#[tactic(auto, using(crate::proofs::Bases::class_got))]
fn is_actor_at(classes: &[Class], number: Option<usize>) -> bool
    ensures { result ≡ is_some (option_and_then (actor_at (map class_view classes.now)) number) }
{
    let Some(number) = number else {
        return false;
    };
    match classes.get(number) {
        Some(class) => is_actor(class),
        None => false,
    }
}

/// Whether a class has no base, or one that names an actor class.
#[tactic(auto, using(crate::proofs::Bases::known_base))]
fn has_known_base(classes: &[Class], names: &NameIndex, class: &Class) -> bool
    requires { names.now ≡ map class_name (map class_view classes.now) }
    ensures { result
        ≡ of_actor (has_known_base (map class_view classes.now)) (class_view class.now) }
{
    if base_name(class).is_some() {
        is_actor_at(classes, number_above(class, names))
    } else {
        true
    }
}

/// Whether every base names an actor class.
pub(crate) fn bases_are_known(classes: &[Class], names: &NameIndex) -> bool
    requires { names.now ≡ map class_name (map class_view classes.now) }
    ensures { result ≡ list_all (of_actor (has_known_base (map class_view classes.now))) (map
        class_view classes.now) }
{
    for class in classes {
        if !has_known_base(classes, names, class) {
            return false;
        }
    }
    true
}

/// The actor class of a number, if the class of this number is one.
#[tactic(auto, using(crate::proofs::Bases::class_got))]
pub(crate) fn actor_at<'a>(classes: &'a [Class], number: usize) -> Option<&'a ActorClass>
    ensures { option_map (λ a. actor_view a.now) result
        ≡ actor_at (map class_view classes.entry.now) number }
{
    match classes.get(number) {
        Some(Class::Actor(actor)) => Some(actor),
        _ => None,
    }
}

/// The number of the class that an actor class extends, where these are the names of all classes.
pub(crate) fn base_of(class: &ActorClass, names: &NameIndex) -> Option<usize>
    ensures { result ≡ option_and_then (number_in names.now) (actor_view class.now).base }
{
    match &class.base {
        Some(name) => names.place_of(name.as_bytes()),
        None => None,
    }
}

fn as_sequence(alloc: Global, base: Option<usize>) -> Result<Sequence<usize>, AllocError>
    ensures { IfOk result (λ s. s ≡ option_to_list base) }
{
    let mut extended = Sequence::new(alloc);
    if let Some(base) = base {
        extended.push(base)?;
    }
    Ok(extended)
}

/// For each class the classes that it extends, by number: one or none.
#[tactic(auto, using(crate::proofs::Bases::all_extended))]
pub(crate) fn extended_classes(
    alloc: Global,
    classes: &[Class],
    names: &NameIndex,
) -> Result<Vec<Sequence<usize>>, AllocError>
    requires { names.now ≡ map class_name (map class_view classes.now) }
    ensures { IfOk result (λ v.
        v.items ≡ map (extended (map class_view classes.now)) (map class_view classes.now)) }
{
    all_above(alloc, classes, names)
}

fn all_above(
    alloc: Global,
    classes: &[Class],
    names: &NameIndex,
) -> Result<Vec<Sequence<usize>>, AllocError>
    ensures { IfOk result (λ v.
        v.items ≡ map
        (λ c.
        option_to_list (option_and_then (number_in names.now) (option_and_then (λ a. a.base)
        (as_actor (class_view c)))))
        classes.now) }
{
    let mut extended = Vec::new(alloc);
    for class in classes {
        extended.push(as_sequence(alloc, number_above(class, names))?)?;
    }
    Ok(extended)
}
