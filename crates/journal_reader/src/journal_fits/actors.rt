//! Slots, ports and states.
ghost use Rattle.std.specs.Prelude.{◌≡◌};
ghost use Rattle.journal_reader.specs.journal_fits.Judge.{is_party, has_slot, has_port, fits_endpoint, fits_source, has_state, fits_state, fits_standing, fits_speaker};

use room_kinds::{ControllerId, Endpoint, Incarnation, SlotId};
use room_wiring::{ClassNames, Wiring};

/// A controller's number, or the environment's.
pub fn is_party(wiring: &Wiring, c: ControllerId) -> bool
    ensures { result ≡ is_party wiring.now c.0 }
{
    c.0 <= wiring.controller_count()
}

pub fn has_slot(wiring: &Wiring, s: SlotId) -> bool
    ensures { result ≡ has_slot wiring.now s.0 }
{
    u32::from(s.0) < wiring.slot_count()
}

pub fn has_port(wiring: &Wiring, s: SlotId, port: u16) -> bool
    ensures { result ≡ has_port wiring.now s.0 port }
{
    usize::from(port) < wiring.port_count(s)
}

pub fn fits_endpoint(wiring: &Wiring, endpoint: Endpoint) -> bool
    ensures { result ≡ fits_endpoint wiring.now endpoint }
{
    has_slot(wiring, endpoint.slot) && has_port(wiring, endpoint.slot, endpoint.port)
}

pub fn fits_source(wiring: &Wiring, source: Option<Endpoint>) -> bool
    ensures { result ≡ fits_source wiring.now source }
{
    match source {
        Some(endpoint) => fits_endpoint(wiring, endpoint),
        None => true,
    }
}

fn has_state(class: &ClassNames, state: u16) -> bool
    ensures { result ≡ has_state state class.now }
{
    let count = class.states.len();
    if count == 0 {
        state == 65535
    } else {
        usize::from(state) < count
    }
}

#[tactic(auto, unfolding(crate::specs::journal_fits::Judge::fits_state))]
fn fits_state(wiring: &Wiring, s: SlotId, state: u16) -> bool
    ensures { result ≡ fits_state wiring.now s.0 state }
{
    match wiring.class_of(s) {
        Some(class) => has_state(class, state),
        None => false,
    }
}

/// An actor and its state.
pub fn fits_standing(wiring: &Wiring, who: Incarnation, state: u16) -> bool
    ensures { result ≡ fits_standing wiring.now who state }
{
    has_slot(wiring, who.slot) && fits_state(wiring, who.slot, state)
}

/// A port of who speaks.
pub fn fits_speaker(wiring: &Wiring, speaker: Option<SlotId>, port: u16) -> bool
    ensures { result ≡ fits_speaker wiring.now speaker port }
{
    match speaker {
        Some(s) => has_slot(wiring, s) && has_port(wiring, s, port),
        None => false,
    }
}
