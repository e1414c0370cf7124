//! Where refinements stand.
ghost use Rattle.std.specs.Prelude.{◌≡◌, map, if◌then◌else◌};
ghost use Rattle.std.specs.List.{list_all};
ghost use Rattle.room_ast.specs.ChartTree.{item_view, state_view, graph_view};
ghost use Rattle.room_ast.specs.Trees.{actor_view, class_view, model_view};
ghost use Rattle.room_ast.specs.model_parts.Charts.{chart_of};
ghost use Rattle.room_inherit.specs.Rules.{of_actor, item_is_plain, state_is_plain, is_plain, inside_is_plain, is_plain_inside, refines_rightly, refinements_stand_right, class_is_plain, extends_nothing};

use derived_classes::machine_of;
use room_ast::{ActorClass, Change, Class, GraphItem, Model, State};

/// Whether an item of a graph is no refinement, and none stands inside it. The calls nest as deep as
/// graphs do.
#[cycle(plain)]
fn item_is_plain(item: &GraphItem) -> bool
    ensures { result ≡ item_is_plain (item_view item.now) }
{
    match item {
        GraphItem::State(state) => state_is_plain(state),
        GraphItem::Choice(_) => true,
        GraphItem::Point(_) => true,
        GraphItem::Transition(_) => true,
        GraphItem::Refinement(_) => false,
    }
}

#[cycle(plain)]
fn state_is_plain(state: &State) -> bool
    ensures { result ≡ state_is_plain (state_view state.now) }
{
    let Some(body) = &state.body else {
        return true;
    };
    match &body.subgraph {
        Some(items) => is_plain(items),
        None => true,
    }
}

/// Whether no refinement stands in a graph, nor in the graphs of its states.
#[cycle(plain)]
fn is_plain(items: &Vec<GraphItem>) -> bool
    ensures { result ≡ is_plain (graph_view items.now.items) }
{
    for item in items {
        if !item_is_plain(item) {
            return false;
        }
    }
    true
}

/// Whether no refinement stands inside an item of a top graph.
fn inside_is_plain(item: &GraphItem) -> bool
    ensures { result ≡ inside_is_plain (item_view item.now) }
{
    match item {
        GraphItem::State(state) => state_is_plain(state),
        GraphItem::Choice(_) => true,
        GraphItem::Point(_) => true,
        GraphItem::Transition(_) => true,
        GraphItem::Refinement(refinement) => match &refinement.change {
            Change::State(body) => match &body.subgraph {
                Some(items) => is_plain(items),
                None => true,
            },
            Change::Transition(_) => true,
        },
    }
}

fn is_plain_inside(items: &Vec<GraphItem>) -> bool
    ensures { result ≡ is_plain_inside (graph_view items.now.items) }
{
    for item in items {
        if !inside_is_plain(item) {
            return false;
        }
    }
    true
}

/// Whether refinements stand where they may in the top graph of a class that has a base or none.
fn stands_right(has_base: bool, items: &Vec<GraphItem>) -> bool
    ensures { result
        ≡ (if has_base then is_plain_inside else is_plain) (graph_view items.now.items) }
{
    if has_base {
        is_plain_inside(items)
    } else {
        is_plain(items)
    }
}

fn refines_rightly(class: &ActorClass) -> bool
    ensures { result ≡ refines_rightly (actor_view class.now) }
{
    match machine_of(class) {
        Some(machine) => stands_right(class.base.is_some(), &machine.items),
        None => true,
    }
}

fn class_refines_rightly(class: &Class) -> bool
    ensures { result ≡ of_actor refines_rightly (class_view class.now) }
{
    match class {
        Class::Actor(class) => refines_rightly(class),
        _ => true,
    }
}

/// Whether refinements stand in the top graphs of classes with a base alone.
#[tactic(auto, unfolding(crate::specs::Rules::refinements_stand_right))]
pub(crate) fn refinements_stand_right(model: &Model) -> bool
    ensures { result ≡ refinements_stand_right (model_view model.now) }
{
    all_refine_rightly(model.classes.as_slice())
}

fn all_refine_rightly(classes: &[Class]) -> bool
    ensures { result ≡ list_all (of_actor refines_rightly) (map class_view classes.now) }
{
    for class in classes {
        if !class_refines_rightly(class) {
            return false;
        }
    }
    true
}

fn class_is_plain(class: &ActorClass) -> bool
    ensures { result ≡ class_is_plain (actor_view class.now) }
{
    if class.base.is_some() {
        return false;
    }
    match machine_of(class) {
        Some(machine) => is_plain(&machine.items),
        None => true,
    }
}

fn is_plain_class(class: &Class) -> bool
    ensures { result ≡ of_actor class_is_plain (class_view class.now) }
{
    match class {
        Class::Actor(class) => class_is_plain(class),
        _ => true,
    }
}

fn all_are_plain(classes: &[Class]) -> bool
    ensures { result ≡ list_all (of_actor class_is_plain) (map class_view classes.now) }
{
    for class in classes {
        if !is_plain_class(class) {
            return false;
        }
    }
    true
}

/// Whether no class has a base and no refinement stands anywhere.
#[tactic(auto, unfolding(crate::specs::Rules::extends_nothing))]
pub(crate) fn extends_nothing(model: &Model) -> bool
    ensures { result ≡ extends_nothing (model_view model.now) }
{
    all_are_plain(model.classes.as_slice())
}
