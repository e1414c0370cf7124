//! Which timers end with their actors.
ghost use Rattle.std.specs.Prelude.{◌≡◌};
ghost use Rattle.std.specs.List.{list_any};
ghost use Rattle.room_timer.specs.Timers.{is_down, outlives};

use crate::timer::Timer;
use room_kinds::{Endpoint, Note};

/// Whether a note tells that the actor of a place went down.
fn is_down(at: Endpoint, note: &Note) -> bool
    ensures { result ≡ is_down at note.now }
{
    match note {
        Note::Down { who, .. } => who.slot == at.slot && who.generation == at.generation,
        Note::Zero
        | Note::NoMessage
        | Note::Unbound { .. }
        | Note::Recall { .. }
        | Note::Up { .. } => false,
    }
}

/// Whether one of these notes tells that the actor of a place went down.
pub(crate) fn went_down(notes: &[Note], at: Endpoint) -> bool
    ensures { result ≡ list_any (is_down at) notes.now }
{
    notes.iter().any(|note| is_down(at, note))
}

/// Whether a timer's actor didn't go down by these notes.
pub(crate) fn outlives(notes: &[Note], timer: &Timer) -> bool
    ensures { result ≡ outlives notes.now timer.now }
{
    !went_down(notes, timer.at)
}
