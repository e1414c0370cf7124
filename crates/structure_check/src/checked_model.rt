//! A model that keeps all rules.

ghost use Rattle.std.specs.Prelude.{◌≡◌, ◌<◌, Some, length, map, option_map, option_and_then, slice_get};
ghost use Rattle.room_ast.specs.ChartTree.{graph_view};
ghost use Rattle.room_ast.specs.Trees.{actor_view, model_view};
ghost use Rattle.room_ast.specs.model_parts.Charts.{chart_of};
ghost use Rattle.room_ast.specs.model_parts.Classes.{actors};
ghost use Rattle.check_scopes.specs.class_scopes.Scopes.{scope_of};
ghost use Rattle.check_scopes.specs.class_scopes.Views.{scope_view};

use room_ast::{ActorClass, Model, Scope, StateMachine};

/// A model that breaks none of the rules, with what the actions of its actor classes can name.
#[derive(Drop)]
pub struct Checked<'a> {
    pub model: &'a Model,
    /// The actor classes, by number.
    pub classes: Vec<&'a ActorClass>,
    /// What their actions can name.
    pub scopes: Vec<Scope>,
    pub ghost scoped: { map scope_view scopes.items
        ≡ map (scope_of (model_view model.now)) (actors (model_view model.now)) },
}

impl<'a> Checked<'a> {
    ghost use Rattle.structure_check.specs.Classes.{HasClasses};

    /// The model that was checked. It takes no memory.
    pub fn model(&self) -> &'a Model
        ensures { result.now ≡ self.now.model.now }
    {
        self.model
    }

    /// What the actions of the actor class of a number can name. It takes no memory.
    #[tactic(auto, using(crate::proofs::Parts::scope_there))]
    pub fn scope(&self, class: u16) -> &Scope
        requires { class < length (actors (model_view self.now.model.now)) }
        ensures { slice_get
            (map (scope_of (model_view self.entry.now.model.now)) (actors (model_view
            self.entry.now.model.now)))
            class
            ≡ Some (scope_view result.now) }
    {
        &self.scopes[class as usize]
    }

    /// The actor class of a number.
    #[tactic(auto, using(crate::proofs::Parts::class_there))]
    fn class_at(&self, class: u16) -> &ActorClass
        requires range { class < length (actors (model_view self.now.model.now)) }
        requires classes { HasClasses self.now }
        ensures { slice_get (actors (model_view self.entry.now.model.now)) class
            ≡ Some (actor_view result.now) }
    {
        self.classes[class as usize]
    }

    /// The state machine of the actor class of a number; none where it has none. It takes no memory.
    pub fn chart(&self, class: u16) -> Option<&StateMachine>
        requires range { class < length (actors (model_view self.now.model.now)) }
        requires classes { HasClasses self.now }
        ensures { option_map (λ s. graph_view s.now.items.items) result
            ≡ option_and_then chart_of (slice_get (actors (model_view self.entry.now.model.now))
            class) }
    {
        machine_of(self.class_at(class))
    }
}

/// The state machine of an actor class, if it has one.
fn machine_of<'a>(class: &'a ActorClass) -> Option<&'a StateMachine>
    ensures { option_map (λ s. graph_view s.now.items.items) result
        ≡ chart_of (actor_view class.entry.now) }
{
    let Some(behavior) = &class.behavior else {
        return None;
    };
    match &behavior.machine {
        Some(machine) => Some(machine),
        None => None,
    }
}
