//! The chart of a class.
ghost use Rattle.std.specs.Prelude.{◌≡◌, option_map};
ghost use Rattle.room_ast.specs.Trees.{actor_view};
ghost use Rattle.room_ast.specs.model_parts.Charts.{chart_of};
ghost use Rattle.derived_classes.specs.Views.{machine_view};

use room_ast::{ActorClass, StateMachine};

/// The state machine of a class, if it has one.
pub fn machine_of<'a>(class: &'a ActorClass) -> Option<&'a StateMachine>
    ensures { option_map (λ m. machine_view m.now) result ≡ chart_of (actor_view class.entry.now) }
{
    let Some(behavior) = &class.behavior else {
        return None;
    };
    match &behavior.machine {
        Some(machine) => Some(machine),
        None => None,
    }
}
