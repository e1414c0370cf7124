//! Messages, notes and outcomes.
ghost use Rattle.std.specs.Prelude.{◌≡◌, length};
ghost use Rattle.journal_reader.specs.journal_fits.Judge.{has_signal, knows_signal, fits_signal, fits_message, fits_note, fits_notes, fits_did};

use crate::journal_fits::actors::{
    fits_endpoint, fits_source, fits_speaker, fits_standing, has_slot, is_party,
};
use journal::{Did, speaker_after};
use room_kinds::{Endpoint, Msg, Note, Priority, SlotId};
use room_wiring::{PortNames, Wiring};

fn has_signal(port: &PortNames, signal: u16) -> bool
    ensures { result ≡ has_signal signal port.now }
{
    let signal = usize::from(signal);
    let incoming = port.incoming.len();
    signal < incoming || signal - incoming < port.outgoing.len()
}

#[tactic(auto, unfolding(crate::specs::journal_fits::Judge::knows_signal))]
fn knows_signal(wiring: &Wiring, s: SlotId, number: u16, signal: u16) -> bool
    ensures { result ≡ knows_signal wiring.now s.0 number signal }
{
    match wiring.port_of(s, number) {
        Some(port) => has_signal(port, signal),
        None => false,
    }
}

fn fits_signal(wiring: &Wiring, prio: Priority, target: Endpoint, signal: u16) -> bool
    ensures { result ≡ fits_signal wiring.now prio.0 target signal }
{
    if prio.0 == 0 {
        signal < 19
    } else {
        knows_signal(wiring, target.slot, target.port, signal)
    }
}

#[tactic(auto, unfolding(crate::specs::journal_fits::Judge::fits_message))]
pub fn fits_message(wiring: &Wiring, msg: &Msg) -> bool
    ensures { result ≡ fits_message wiring.now msg.now }
{
    is_party(wiring, msg.from)
        && msg.to.0 < wiring.controller_count()
        && fits_source(wiring, msg.source)
        && fits_endpoint(wiring, msg.target)
        && fits_signal(wiring, msg.prio, msg.target, msg.signal)
}

fn fits_note(wiring: &Wiring, speaker: Option<SlotId>, note: Note) -> bool
    ensures { result ≡ fits_note wiring.now speaker note }
{
    match note {
        Note::Zero => true,
        Note::NoMessage => true,
        Note::Unbound { port, .. } => fits_speaker(wiring, speaker, port),
        Note::Recall { .. } => true,
        Note::Up { who, state } => fits_standing(wiring, who, state),
        Note::Down { who, .. } => has_slot(wiring, who.slot),
    }
}

/// Notes, each of who speaks by then.
pub fn fits_notes(wiring: &Wiring, duty: bool, speaker: Option<SlotId>, notes: &[Note]) -> bool
    ensures { result ≡ fits_notes wiring.now duty speaker notes.now }
{
    let mut speaking = speaker;
    for note in notes {
        if !fits_note(wiring, speaking, *note) {
            return false;
        }
        speaking = speaker_after(duty, speaking, *note);
    }
    true
}

/// What a turn did.
pub fn fits_did(wiring: &Wiring, did: Did) -> bool
    ensures { result ≡ fits_did wiring.now did }
{
    match did {
        Did::Duty => true,
        Did::Handled { who, state } => fits_standing(wiring, who, state),
        Did::Deferred { who, state } => fits_standing(wiring, who, state),
        Did::Unhandled { who, state } => fits_standing(wiring, who, state),
        Did::Stale { target } => has_slot(wiring, target.slot),
        Did::Empty { target } => has_slot(wiring, target.slot),
    }
}
