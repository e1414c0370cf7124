//! Who speaks in a journal: the slot at whose class the port of a note is named.
ghost use Rattle.std.specs.Prelude.{◌≡◌};
ghost use Rattle.journal.specs.Lines.{is_duty, speaker_of, speaker_after};

use crate::entry::Did;
use room_kinds::{Note, SlotId};

impl Did {
    /// Whether the turn was a duty.
    pub fn is_duty(self) -> bool
        ensures { result ≡ is_duty self }
    {
        match self {
            Did::Duty => true,
            _ => false,
        }
    }

    /// Who speaks as the turn begins: its actor; in a duty nobody.
    pub fn speaker(self) -> Option<SlotId>
        ensures { result ≡ speaker_of self }
    {
        match self {
            Did::Duty => None,
            Did::Handled { who, .. } => Some(who.slot),
            Did::Deferred { who, .. } => Some(who.slot),
            Did::Unhandled { who, .. } => Some(who.slot),
            Did::Stale { target } => Some(target.slot),
            Did::Empty { target } => Some(target.slot),
        }
    }
}

/// Who speaks after a note: in a duty, an actor that came up speaks from then on.
pub fn speaker_after(duty: bool, speaker: Option<SlotId>, note: Note) -> Option<SlotId>
    ensures { result ≡ speaker_after duty speaker note }
{
    if !duty {
        return speaker;
    }
    match note {
        Note::Up { who, .. } => Some(who.slot),
        _ => speaker,
    }
}
