//! The rule on the LogicalSystem.

ghost use Rattle.std.specs.Prelude.{◌≡◌, ◌++◌, IfOk, OnOk, map, option_map};
ghost use Rattle.std.specs.List.{filter_map};
ghost use Rattle.std.specs.Option.{option_to_list};
ghost use Rattle.room_ast.specs.Trees.{class_view, model_view};
ghost use Rattle.room_ast.specs.model_parts.Classes.{as_system};
ghost use Rattle.check_tables.specs.class_tables.Containers.{tables_of};
ghost use Rattle.check_classes.specs.class_rules.Names.{refers_to_one, is_one_system, has_one_system};
ghost use Rattle.check_classes.specs.class_rules.Systems.{systems_in};

use check_tables::Tables;
use name_tables::NameIndex;
use room_ast::{Class, Model, SubsystemRef, System};
use std::alloc::{AllocError, Global};

fn refers_to_one(references: &[SubsystemRef], subsystems: &NameIndex) -> bool
    ensures { result ≡ refers_to_one subsystems.now references.now }
{
    match references {
        [reference] => subsystems.has(reference.class.as_bytes()),
        _ => false,
    }
}

fn as_system<'a>(class: &'a Class) -> Option<&'a System>
    ensures { option_map (λ s. s.now) result ≡ as_system (class_view class.now) }
{
    match class {
        Class::System(s) => Some(s),
        _ => None,
    }
}

fn add_system<'a>(
    systems: &mut Vec<&'a System>,
    system: Option<&'a System>,
) -> Result<(), AllocError>
    ensures { OnOk result (systems_in systems.new.items
        ≡ systems_in systems.old.items ++ option_to_list (option_map (λ s. s.now) system.entry)) }
{
    if let Some(system) = system {
        systems.push(system)?;
    }
    Ok(())
}

fn systems<'a>(alloc: Global, classes: &'a [Class]) -> Result<Vec<&'a System>, AllocError>
    ensures { IfOk result (λ v.
        systems_in v.items ≡ filter_map as_system (map class_view classes.now)) }
{
    let mut systems = Vec::new(alloc);
    for class in classes {
        add_system(&mut systems, as_system(class))?;
    }
    Ok(systems)
}

fn is_one_system(systems: &[&System], subsystems: &NameIndex) -> bool
    ensures { result ≡ is_one_system subsystems.now (systems_in systems.now) }
{
    match systems {
        [system] => refers_to_one(system.references.as_slice(), subsystems),
        _ => false,
    }
}

fn has_system(alloc: Global, classes: &[Class], subsystems: &NameIndex) -> Result<bool, AllocError>
    ensures { IfOk result (λ b.
        b ≡ is_one_system subsystems.now (filter_map as_system (map class_view classes.now))) }
{
    let systems = systems(alloc, classes)?;
    Ok(is_one_system(systems.as_slice(), subsystems))
}

/// Whether there is exactly one LogicalSystem, it has exactly one SubSystemRef, and that names a
/// SubSystemClass.
pub fn has_one_system(alloc: Global, model: &Model, tables: &Tables) -> Result<bool, AllocError>
    requires { tables.now ≡ tables_of (model_view model.now) }
    ensures { IfOk result (λ b. b ≡ has_one_system (model_view model.now)) }
{
    has_system(alloc, model.classes.as_slice(), &tables.names.subsystems)
}
