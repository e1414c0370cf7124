//! The names of all actor classes.
ghost use Rattle.std.specs.Prelude.{◌≡◌, IfOk, map, true};
ghost use Rattle.room_ast.specs.Trees.{actor_view, class_view, model_view};
ghost use Rattle.check_tables.specs.containment_rules.Circles.{data_is_finite};
ghost use Rattle.check_tables.specs.class_tables.Containers.{tables_of};
ghost use Rattle.check_scopes.specs.number_kinds.Kinds.{AreKinds};
ghost use Rattle.wiring_plan.specs.wiring_classes.Walked.{class_by, classes_by, named_in};
ghost use Rattle.wiring_plan.specs.wiring_classes.Classes.{classes_of};

use crate::wiring_classes::attributes::attributes_of;
use crate::wiring_classes::labels::label_of;
use crate::wiring_classes::ports::{ports_of, references_of};
use crate::wiring_classes::signals::labelled_table;
use crate::wiring_classes::states::state_labels;
use check_scopes::{SignalTable, kinds_of, signal_table};
use check_tables::{ClassNames as TableNames, Container, Tables, structure_items};
use room_ast::{ActorClass, Class, Model};
use room_kinds::{NumberType, Sequence};
use room_wiring::{ClassNames, SignalNames};
use std::alloc::{AllocError, Global};

/// The names of an actor class, where `container` is what it knows of its parts.
fn class_names(
    alloc: Global,
    names: &TableNames,
    signals: &SignalTable<SignalNames>,
    kinds: &[Sequence<NumberType>],
    container: &Container,
    class: &ActorClass,
) -> Result<ClassNames, AllocError>
    ensures { IfOk result (λ c.
        c ≡ class_by names.now signals.now kinds.now container.now (actor_view class.now)) }
{
    let name = label_of(alloc, class.name.as_bytes())?;
    let ports = ports_of(
        alloc,
        names.protocols.names(),
        signals,
        container.port_names.names(),
        container.ports.as_slice(),
    )?;
    let references = references_of(
        alloc,
        container.reference_names.names(),
        container.references.as_slice(),
    )?;
    let states = state_labels(alloc, class)?;
    let attributes = attributes_of(alloc, structure_items(class), &names.data_classes, kinds)?;
    Ok(ClassNames {
        name,
        ports: Sequence::from(ports),
        references: Sequence::from(references),
        states,
        attributes: Sequence::from(attributes),
    })
}

/// The names of the actor classes among classes, where `actors` is what each knows of its parts, which goes
/// as soon as the class has its names.
fn all_names(
    alloc: Global,
    names: &TableNames,
    signals: &SignalTable<SignalNames>,
    kinds: &[Sequence<NumberType>],
    classes: &[Class],
    actors: Sequence<Container>,
) -> Result<Vec<ClassNames>, AllocError>
    ensures { IfOk result (λ v.
        v.items
        ≡ classes_by names.now signals.now kinds.now (map class_view classes.now) actors.entry) }
{
    let mut all = Vec::with_capacity(alloc, actors.len())?;
    let mut left = actors.into_vec().into_iter();
    for class in classes {
        if let Class::Actor(actor) = class {
            let Some(container) = left.next() else {
                return Ok(all);
            };
            all.push(class_names(alloc, names, signals, kinds, &container, actor)?)?;
        }
    }
    Ok(all)
}

/// The same, where these are the types of the numbers of the data classes.
fn named_in(
    alloc: Global,
    classes: &[Class],
    tables: Tables,
    kinds: &[Sequence<NumberType>],
) -> Result<Vec<ClassNames>, AllocError>
    ensures { IfOk result (λ v.
        v.items ≡ named_in tables.entry kinds.now (map class_view classes.now)) }
{
    let Tables { names, actors, .. } = tables;
    let signals = signal_table(alloc, classes, &names.data_classes, kinds)?;
    let labelled = labelled_table(alloc, &signals)?;
    all_names(alloc, &names, &labelled, kinds, classes, actors)
}

/// The names of the actor classes of a model, by number, where these are its tables. No data class
/// contains itself. The time and the room are in proportion to the model and the numbers of its
/// messages and attributes: the ports of a protocol class share its messages, and no list has room for
/// more than its entries. What the tables know of a class goes as soon as it has its names.
#[tactic(auto, using(crate::proofs::wiring_classes::KindLaws::some_names, crate::proofs::wiring_classes::KindLaws::no_names))]
pub fn classes_of(
    alloc: Global,
    model: &Model,
    tables: Tables,
) -> Result<Sequence<ClassNames>, AllocError>
    requires tables { tables ≡ tables_of (model_view model.now) }
    requires finite { data_is_finite (model_view model.now) ≡ true }
    ensures { IfOk result (λ s. s ≡ classes_of (model_view model.now)) }
{
    let Some(kinds) = kinds_of(alloc, tables.data_types.as_slice())? else {
        return Ok(Sequence::new(alloc));
    };
    let all = named_in(alloc, model.classes.as_slice(), tables, kinds.as_slice())?;
    Ok(Sequence::from(all))
}
