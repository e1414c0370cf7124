//! Walks over the classes of a kind, by their numbers.

ghost use Rattle.std.specs.Prelude.{◌≡◌, ◌&&◌, drop, map, option_map};
ghost use Rattle.std.specs.List.{list_all};
ghost use Rattle.room_ast.specs.Trees.{class_view, model_view, subsystem_item_view};
ghost use Rattle.check_tables.specs.class_tables.Containers.{tables_of};
ghost use Rattle.room_ast.specs.model_parts.Classes.{as_actor, as_subsystem};
ghost use Rattle.check_bindings.specs.binding_rules.Rules.{each_connection, item_passes, subsystem_item_passes};
ghost use Rattle.check_bindings.specs.binding_rules.Walks.{binding_holds, layer_holds, actor_holds, subsystem_holds, behind, walk};

use crate::binding_rules::bindings::{any_places_once, sides_agree, sides_exist};
use crate::binding_rules::layers::layer_is_known;
use crate::binding_rules::parts::class_at;
use crate::binding_rules::rule::ConnectionRule;
use check_tables::{Container, Tables, structure_items};
use room_ast::{Binding, Class, LayerConnection, Model, StructureItem, SubsystemItem};

fn binding_holds(
    rule: ConnectionRule,
    actors: &[Container],
    class: &Container,
    binding: &Binding,
) -> bool
    ensures { result ≡ binding_holds rule actors.now class.now binding.now }
{
    match rule {
        ConnectionRule::SidesExist => sides_exist(actors, class, binding),
        ConnectionRule::SidesAgree => sides_agree(actors, class, binding),
        ConnectionRule::AnyPlacesOnce => any_places_once(actors, class, binding),
        ConnectionRule::LayersKnown => true,
    }
}

fn layer_holds(
    rule: ConnectionRule,
    actors: &[Container],
    class: &Container,
    layer: &LayerConnection,
) -> bool
    ensures { result ≡ layer_holds rule actors.now class.now layer.now }
{
    match rule {
        ConnectionRule::LayersKnown => layer_is_known(actors, class, layer),
        ConnectionRule::SidesExist | ConnectionRule::SidesAgree | ConnectionRule::AnyPlacesOnce =>
            true,
    }
}

// ---- actor classes

fn item_holds(
    rule: ConnectionRule,
    actors: &[Container],
    class: &Container,
    item: &StructureItem,
) -> bool
    ensures { result ≡ item_passes (binding_holds rule actors.now class.now)
        (layer_holds rule actors.now class.now) item.now }
{
    match item {
        StructureItem::Binding(binding) => binding_holds(rule, actors, class, binding),
        StructureItem::Layer(layer) => layer_holds(rule, actors, class, layer),
        _ => true,
    }
}

fn items_hold(
    rule: ConnectionRule,
    actors: &[Container],
    class: &Container,
    items: &[StructureItem],
) -> bool
    ensures { result ≡ list_all
        (item_passes (binding_holds rule actors.now class.now) (layer_holds rule actors.now
        class.now))
        items.now }
{
    items
        .iter()
        .all(|item| item_holds(rule, actors, class, item))
}

/// The number of the next actor class behind a class, where this number is that of the next one from
/// here on; none where the rule doesn't hold.
fn next_actor(
    rule: ConnectionRule,
    actors: &[Container],
    class: &Class,
    number: usize,
) -> Option<usize>
    ensures { option_map (λ n. drop n actors.now) result ≡ behind (actor_holds rule actors.now)
        (as_actor (class_view class.now)) (drop number actors.now) }
{
    let Class::Actor(actor) = class else {
        return Some(number);
    };
    let Some(own) = class_at(actors, number) else {
        return None;
    };
    if items_hold(rule, actors, own, structure_items(actor)) {
        Some(number + 1)
    } else {
        None
    }
}

fn actors_hold(rule: ConnectionRule, classes: &[Class], actors: &[Container]) -> bool
    ensures { result
        ≡ walk as_actor (actor_holds rule actors.now) (map class_view classes.now) actors.now }
{
    let mut number = 0;
    for class in classes {
        let Some(next) = next_actor(rule, actors, class, number) else {
            return false;
        };
        number = next;
    }
    true
}

// ---- subsystem classes

fn subsystem_item_holds(
    rule: ConnectionRule,
    actors: &[Container],
    class: &Container,
    item: &SubsystemItem,
) -> bool
    ensures { result ≡ subsystem_item_passes (binding_holds rule actors.now class.now)
        (layer_holds rule actors.now class.now) (subsystem_item_view item.now) }
{
    match item {
        SubsystemItem::Binding(binding) => binding_holds(rule, actors, class, binding),
        SubsystemItem::Layer(layer) => layer_holds(rule, actors, class, layer),
        _ => true,
    }
}

fn subsystem_items_hold(
    rule: ConnectionRule,
    actors: &[Container],
    class: &Container,
    items: &[SubsystemItem],
) -> bool
    ensures { result ≡ list_all
        (subsystem_item_passes (binding_holds rule actors.now class.now) (layer_holds rule
        actors.now class.now))
        (map subsystem_item_view items.now) }
{
    for item in items {
        if !subsystem_item_holds(rule, actors, class, item) {
            return false;
        }
    }
    true
}

/// The number of the next SubSystemClass behind a class, where this number is that of the next one from
/// here on; none where the rule doesn't hold.
fn next_subsystem(
    rule: ConnectionRule,
    actors: &[Container],
    subsystems: &[Container],
    class: &Class,
    number: usize,
) -> Option<usize>
    ensures { option_map (λ n. drop n subsystems.now) result
        ≡ behind (subsystem_holds rule actors.now) (as_subsystem (class_view class.now))
        (drop number subsystems.now) }
{
    let Class::Subsystem(subsystem) = class else {
        return Some(number);
    };
    let Some(own) = class_at(subsystems, number) else {
        return None;
    };
    if subsystem_items_hold(rule, actors, own, subsystem.items.as_slice()) {
        Some(number + 1)
    } else {
        None
    }
}

fn subsystems_hold(
    rule: ConnectionRule,
    classes: &[Class],
    actors: &[Container],
    subsystems: &[Container],
) -> bool
    ensures { result ≡ walk as_subsystem (subsystem_holds rule actors.now)
        (map class_view classes.now) subsystems.now }
{
    let mut number = 0;
    for class in classes {
        let Some(next) = next_subsystem(rule, actors, subsystems, class, number) else {
            return false;
        };
        number = next;
    }
    true
}

/// Whether a rule holds of all classes, where these are their tables.
fn classes_hold(rule: ConnectionRule, classes: &[Class], tables: &Tables) -> bool
    ensures { result ≡ (walk as_actor (actor_holds rule tables.now.actors)
        (map class_view classes.now) tables.now.actors
        && walk as_subsystem (subsystem_holds rule tables.now.actors) (map class_view classes.now)
        tables.now.subsystems) }
{
    let actors = tables.actors.as_slice();
    actors_hold(rule, classes, actors)
        && subsystems_hold(rule, classes, actors, tables.subsystems.as_slice())
}

/// Whether a rule holds of each binding and each layer connection of a model.
pub(crate) fn connections_hold(rule: ConnectionRule, model: &Model, tables: &Tables) -> bool
    requires { tables.now ≡ tables_of (model_view model.now) }
    ensures { result
        ≡ each_connection (binding_holds rule (tables_of (model_view model.now)).actors)
        (layer_holds rule (tables_of (model_view model.now)).actors) (model_view model.now) }
{
    classes_hold(rule, model.classes.as_slice(), tables)
}
