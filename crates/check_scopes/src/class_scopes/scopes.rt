//! The scopes of actor classes.

ghost use Rattle.std.specs.Prelude.{◌≡◌, true, map, option_map, IfOk};
ghost use Rattle.std.specs.List.{list_all, filter_map};
ghost use Rattle.room_ast.specs.Trees.{model_view, class_view, actor_view};
ghost use Rattle.room_ast.specs.model_parts.Classes.{as_actor, as_data, as_protocol, actors};
ghost use Rattle.check_classes.specs.class_rules.Types.{has_fitting_values};
ghost use Rattle.check_tables.specs.class_tables.Containers.{tables_of};
ghost use Rattle.check_tables.specs.containment_rules.Circles.{data_is_finite};
ghost use Rattle.check_mappings.specs.count_rules.Counts.{references_are_few, has_few_parts};
ghost use Rattle.check_scopes.specs.number_kinds.Kinds.{AreKinds};
ghost use Rattle.check_scopes.specs.class_scopes.Fields.{field_view, fields_kept};
ghost use Rattle.check_scopes.specs.class_scopes.Making.{tables_view, scope_by, scopes_by, actor_views, numbers_few, entries_few, table_is_few};
ghost use Rattle.check_scopes.specs.class_scopes.Scopes.{scope_of};
ghost use Rattle.check_scopes.specs.class_scopes.Signals.{map_table};
ghost use Rattle.check_scopes.specs.class_scopes.ByKinds.{table_by};
ghost use Rattle.check_scopes.specs.class_scopes.Tables.{AreTables};
ghost use Rattle.check_scopes.specs.class_scopes.Views.{scope_view, signal_view};

use crate::class_scopes::fields::fields_of_classes;
use crate::class_scopes::numbers::attributes_of;
use crate::class_scopes::ports::ports_in;
use crate::class_scopes::protocols::signal_table;
use crate::class_scopes::references::references_of;
use crate::class_scopes::tables::ScopeTables;
use crate::number_kinds::kinds_of;
use check_tables::{Container, Tables, push_if, structure_items};
use name_tables::NameIndex;
use room_ast::{ActorClass, Class, Model, Scope};
use room_kinds::{NumberType, Sequence};
use std::alloc::{AllocError, Global};

// ---- the actor classes by number

fn as_actor<'a>(class: &'a Class) -> Option<&'a ActorClass>
    ensures { option_map (λ a. actor_view a.now) result ≡ as_actor (class_view class.entry.now) }
{
    match class {
        Class::Actor(a) => Some(a),
        _ => None,
    }
}

/// The actor classes among classes, by number. The list has no room for more.
pub fn actor_classes<'a>(
    alloc: Global,
    classes: &'a [Class],
) -> Result<Vec<&'a ActorClass>, AllocError>
    ensures { IfOk result (λ v.
        actor_views v.items ≡ filter_map as_actor (map class_view classes.entry.now)) }
{
    let mut actors = Vec::new(alloc);
    for class in classes {
        push_if(&mut actors, as_actor(class))?;
    }
    actors.shrink_to_fit();
    Ok(actors)
}

// ---- the tables

/// The tables of classes, where these are the types of the numbers of the data classes.
fn tables_with<'a>(
    alloc: Global,
    classes: &'a [Class],
    names: &NameIndex,
    kinds: Vec<Sequence<NumberType>>,
) -> Result<ScopeTables<'a>, AllocError>
    ensures kinds { IfOk result (λ t. t.kinds.items ≡ kinds.items) }
    ensures fields { IfOk result (λ t.
        map (map field_view) t.fields.items ≡ map (fields_kept names.now kinds.items) (filter_map
        as_data (map class_view classes.entry.now))) }
    ensures signals { IfOk result (λ t.
        map_table signal_view t.signals ≡ table_by names.now kinds.items
        (filter_map as_protocol (map class_view classes.entry.now))) }
{
    let fields = fields_of_classes(alloc, classes, names, kinds.as_slice())?;
    let signals = signal_table(alloc, classes, names, kinds.as_slice())?;
    Ok(ScopeTables {
        kinds,
        fields,
        signals,
    })
}

/// The tables of a model.
fn scope_tables<'a>(
    alloc: Global,
    model: &'a Model,
    tables: &Tables,
) -> Result<ScopeTables<'a>, AllocError>
    requires tables { tables.now ≡ tables_of (model_view model.now) }
    requires finite { data_is_finite (model_view model.now) ≡ true }
    ensures { IfOk result (λ t. AreTables (model_view model.entry.now) (tables_view t)) }
{
    let Some(kinds) = kinds_of(alloc, tables.data_types.as_slice())? else {
        unreachable!()
    };
    tables_with(
        alloc,
        model.classes.as_slice(),
        &tables.names.data_classes,
        kinds,
    )
}

// ---- scopes

/// What a class can name whose ports and references these are.
#[tactic(auto, using(crate::proofs::class_scopes::ScopeLaws::few_attributes, crate::proofs::class_scopes::ScopeLaws::few_ports, crate::proofs::class_scopes::ScopeLaws::few_references))]
fn scope_by<'a>(
    alloc: Global,
    class: &'a ActorClass,
    container: &Container,
    names: &NameIndex,
    tables: &ScopeTables<'a>,
) -> Result<Scope, AllocError>
    requires signals { table_is_few (tables_view tables.now).signals ≡ true }
    requires numbers { numbers_few names.now (tables_view tables.now) (actor_view class.now)
        ≡ true }
    requires entries { entries_few container.now ≡ true }
    requires references { references_are_few (actor_view class.now) ≡ true }
    ensures { IfOk result (λ s.
        scope_view s
        ≡ scope_by names.now (tables_view tables.now) (actor_view class.entry.now) container.now) }
{
    let items = structure_items(class);
    let attributes = attributes_of(
        alloc,
        items,
        names,
        tables.kinds.as_slice(),
        tables.fields.as_slice(),
    )?;
    let ports = ports_in(
        alloc,
        container.port_names.names(),
        container.ports.as_slice(),
        &tables.signals,
    )?;
    let references = references_of(alloc, items)?;
    Ok(Scope {
        attributes,
        ports,
        references,
    })
}

/// The scopes of classes whose ports and references these are.
#[tactic(auto, using(crate::proofs::class_scopes::ScopeLaws::no_containers))]
fn scopes_by<'a>(
    alloc: Global,
    classes: &[&'a ActorClass],
    containers: &[Container],
    names: &NameIndex,
    tables: &ScopeTables<'a>,
) -> Result<Vec<Scope>, AllocError>
    requires signals { table_is_few (tables_view tables.now).signals ≡ true }
    requires numbers { list_all (numbers_few names.now (tables_view tables.now)) (actor_views
        classes.now) ≡ true }
    requires entries { list_all entries_few containers.now ≡ true }
    requires references { list_all references_are_few (actor_views classes.now) ≡ true }
    ensures { IfOk result (λ v.
        map scope_view v.items
        ≡ scopes_by names.now (tables_view tables.now) (actor_views classes.now) containers.now) }
{
    let mut scopes = Vec::with_capacity(alloc, classes.len())?;
    let (mut classes, mut containers) = (classes, containers);
    while let [class, classes_rest @ ..] = classes {
        let [container, containers_rest @ ..] = containers else {
            return Ok(scopes);
        };
        scopes.push(scope_by(alloc, class, container, names, tables)?)?;
        classes = classes_rest;
        containers = containers_rest;
    }
    Ok(scopes)
}

/// What the actions of each actor class can name, by its number. The model keeps the rules that no
/// data class contains itself, that initial values lie in range and that its parts are few. It takes
/// time and memory in proportion to the model and to what it makes: each number of an attribute has its
/// dotted name. The ports of a protocol share its messages.
pub fn scopes_of(alloc: Global, model: &Model, tables: &Tables) -> Result<Vec<Scope>, AllocError>
    requires tables { tables.now ≡ tables_of (model_view model.now) }
    requires finite { data_is_finite (model_view model.now) ≡ true }
    requires fitting { has_fitting_values (model_view model.now) ≡ true }
    requires few { has_few_parts (model_view model.now) ≡ true }
    ensures { IfOk result (λ v.
        map scope_view v.items
        ≡ map (scope_of (model_view model.now)) (actors (model_view model.now))) }
{
    let made = scope_tables(alloc, model, tables)?;
    let classes = actor_classes(alloc, model.classes.as_slice())?;
    scopes_by(
        alloc,
        classes.as_slice(),
        tables.actors.as_slice(),
        &tables.names.data_classes,
        &made,
    )
}
