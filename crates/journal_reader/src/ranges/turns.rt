//! What turns did, and their notes.
ghost use Rattle.std.specs.Prelude.{All};
ghost use Rattle.journal_reader.specs.journal_texts.InRange.{InRangeDid, InRangeIncarnation, InRangeNote, InRangeStanding, InRangeTurn};

use journal::Did;
use room_kinds::{ControllerId, Incarnation, Note, Stamp};

/// An actor.
fn look_at_incarnation(who: Incarnation)
    ensures { InRangeIncarnation who }
{}

/// An actor and its state.
pub(crate) fn look_at_standing(who: Incarnation, state: u16)
    ensures { InRangeStanding who state }
{
    look_at_incarnation(who);
}

/// A note.
fn look_at_note(note: Note)
    ensures { InRangeNote note }
{
    match note {
        Note::Zero | Note::NoMessage => {}
        Note::Unbound { .. } => {}
        Note::Recall { .. } => {}
        Note::Up { who, state } => look_at_standing(who, state),
        Note::Down { who, .. } => look_at_incarnation(who),
    }
}

/// The notes of a turn or a start.
pub(crate) fn look_at_notes(notes: &[Note])
    ensures { All InRangeNote notes.now }
{
    for note in notes {
        look_at_note(*note);
    }
}

/// What a turn did.
fn look_at_outcome(did: Did)
    ensures { InRangeDid did }
{
    match did {
        Did::Duty => {}
        Did::Handled { who, state } => look_at_standing(who, state),
        Did::Deferred { who, state } => look_at_standing(who, state),
        Did::Unhandled { who, state } => look_at_standing(who, state),
        Did::Stale { target } => look_at_incarnation(target),
        Did::Empty { target } => look_at_incarnation(target),
    }
}

/// A turn.
pub(crate) fn look_at_turn(stamp: Stamp, from: ControllerId, sent: Stamp, did: Did, notes: &[Note])
    ensures { InRangeTurn stamp.0 from.0 sent.0 did notes.now }
{
    look_at_outcome(did);
    look_at_notes(notes);
}
