//! The rules on the bindings and layer connections of a model.

ghost use Rattle.std.specs.Prelude.{◌≡◌};
ghost use Rattle.room_ast.specs.Trees.{model_view};
ghost use Rattle.check_tables.specs.class_tables.Containers.{tables_of};
ghost use Rattle.check_bindings.specs.binding_rules.Rules.{binding_sides_exist, binding_sides_agree, any_places_bind_once, layers_are_known};

use crate::binding_rules::rule::ConnectionRule;
use crate::binding_rules::walks::connections_hold;
use check_tables::Tables;
use room_ast::Model;

/// Whether each side of a binding names a relay port or an internal end port of the class itself, or an
/// interface port of one of its references. In a SubSystemClass only the second form stands.
#[tactic(auto, unfolding(crate::specs::binding_rules::Rules::binding_sides_exist))]
pub fn binding_sides_exist(model: &Model, tables: &Tables) -> bool
    requires { tables.now ≡ tables_of (model_view model.now) }
    ensures { result ≡ binding_sides_exist (model_view model.now) }
{
    connections_hold(ConnectionRule::SidesExist, model, tables)
}

/// Whether the two sides of each binding have one protocol and opposite directions. The direction of a
/// relay port of the class itself is seen from inside, so it is the reverse of its declaration.
#[tactic(auto, unfolding(crate::specs::binding_rules::Rules::binding_sides_agree))]
pub fn binding_sides_agree(model: &Model, tables: &Tables) -> bool
    requires { tables.now ≡ tables_of (model_view model.now) }
    ensures { result ≡ binding_sides_agree (model_view model.now) }
{
    connections_hold(ConnectionRule::SidesAgree, model, tables)
}

/// Whether a side of a binding with `[*]` never names a replicated reference, and never both sides have
/// `[*]`.
#[tactic(auto, unfolding(crate::specs::binding_rules::Rules::any_places_bind_once))]
pub fn any_places_bind_once(model: &Model, tables: &Tables) -> bool
    requires { tables.now ≡ tables_of (model_view model.now) }
    ensures { result ≡ any_places_bind_once (model_view model.now) }
{
    connections_hold(ConnectionRule::AnyPlacesOnce, model, tables)
}

/// Whether each layer connection names a reference of its class that isn't imported, and a SPP of a
/// reference of its class that is neither imported nor replicated.
#[tactic(auto, unfolding(crate::specs::binding_rules::Rules::layers_are_known))]
pub fn layers_are_known(model: &Model, tables: &Tables) -> bool
    requires { tables.now ≡ tables_of (model_view model.now) }
    ensures { result ≡ layers_are_known (model_view model.now) }
{
    connections_hold(ConnectionRule::LayersKnown, model, tables)
}
