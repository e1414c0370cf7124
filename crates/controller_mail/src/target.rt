//! Whom a message is meant for.
ghost use Rattle.std.specs.Prelude.{◌≡◌, ◌||◌, ◌==◌};

use room_kinds::{Incarnation, Msg};

/// Whether a message is for whoever stands in its slot, or for this actor, which does.
pub fn is_meant(m: &Msg, who: Incarnation) -> bool
    ensures { result
        ≡ (m.now.target.generation.0 == 0) || (m.now.target.generation.0 == who.generation.0) }
{
    let generation = m.target.generation;
    generation.0 == 0 || generation == who.generation
}
