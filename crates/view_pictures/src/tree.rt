//! The charts in the tree of a model.
use room_ast::{ActorClass, Class, Model, StateMachine};
use view_pages::Page;

fn machine_in(actor: &ActorClass) -> Option<&StateMachine> {
    match &actor.behavior {
        Some(behavior) => behavior.machine.as_ref(),
        None => None,
    }
}

/// The chart of the actor class of this name.
pub fn machine_of<'a>(model: &'a Model, name: &[u8]) -> Option<&'a StateMachine> {
    for class in model.classes.as_slice() {
        if let Class::Actor(actor) = class
            && actor.name.is(name)
        {
            return machine_in(actor);
        }
    }
    None
}

/// The names of the actor classes that have a chart.
pub fn tell_machines(page: &mut Page, model: &Model) {
    let mut is_first = true;
    for class in model.classes.as_slice() {
        if let Class::Actor(actor) = class
            && machine_in(actor).is_some()
        {
            page.put(if is_first {
                b"; it has those of "
            } else {
                b", "
            });
            page.put(actor.name.as_bytes());
            is_first = false;
        }
    }
    page.end_line();
}
