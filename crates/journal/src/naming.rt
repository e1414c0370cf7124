//! What the wiring calls things. A name that the wiring doesn't have is written as nothing, and a
//! state as `-`.
ghost use Rattle.std.specs.Prelude.{◌≡◌, []};
ghost use Rattle.std.specs.List.{slice_index_or};
ghost use Rattle.journal.specs.Names.{party_text, state_text, kind_text, signal_of_port_text, port_signal_text, signal_text};
ghost use Rattle.journal.specs.Lines.{speaking_port_text};
ghost use Rattle.room_outside.specs.line_text.Parts.{part_text};

use room_kinds::{ControllerId, Msg, SlotId, SysKind};
use room_outside::Part;
use room_wiring::{PortNames, Wiring};

/// A controller's number, or the word for the environment.
pub fn party(wiring: &Wiring, c: ControllerId) -> Part<'static>
    ensures { part_text result ≡ party_text wiring.now c.0 }
{
    if c.0 < wiring.controller_count() {
        Part::Number(u64::from(c.0))
    } else {
        Part::Text(b"env")
    }
}

/// The name of a controller.
pub fn controller_name(wiring: &Wiring, c: usize) -> &[u8]
    ensures { result.now ≡ slice_index_or wiring.now.controllers c [] }
{
    if c < usize::from(wiring.controller_count()) {
        wiring.controller_name(ControllerId(c as u8)).as_bytes()
    } else {
        b""
    }
}

/// The name of a port of the slot that speaks.
pub fn speaking_port_name(wiring: &Wiring, speaker: Option<SlotId>, number: u16) -> &[u8]
    ensures { result.now ≡ speaking_port_text wiring.now speaker number }
{
    match speaker {
        Some(s) => wiring.port_name(s, number),
        None => b"",
    }
}

/// The label of a state of the slot's class.
#[tactic(auto, unfolding(crate::specs::Names::state_text))]
pub fn state_label(wiring: &Wiring, s: SlotId, state: u16) -> &[u8]
    ensures { result.now ≡ state_text wiring.now s.0 state }
{
    match wiring.class_of(s) {
        Some(class) => match class.states.as_slice().get(usize::from(state)) {
            Some(label) => label.as_bytes(),
            None => b"-",
        },
        None => b"-",
    }
}

/// The name of a message's signal.
#[inline(always)]
pub fn signal_name<'a>(wiring: &'a Wiring, msg: &Msg) -> &'a [u8]
    ensures { result.now ≡ signal_text wiring.now msg.now }
{
    if msg.prio.0 == 0 {
        kind_name(msg.signal)
    } else {
        port_signal_name(wiring, msg.target.slot, msg.target.port, msg.signal)
    }
}

#[tactic(auto, unfolding(crate::specs::Names::port_signal_text))]
fn port_signal_name(wiring: &Wiring, s: SlotId, number: u16, signal: u16) -> &[u8]
    ensures { result.now ≡ port_signal_text wiring.now s.0 number signal }
{
    match wiring.port_of(s, number) {
        Some(port) => signal_of_port(port, usize::from(signal)),
        None => b"",
    }
}

#[tactic(auto, unfolding(crate::specs::Names::signal_of_port_text))]
fn signal_of_port(port: &PortNames, signal: usize) -> &[u8]
    ensures { result.now ≡ signal_of_port_text port.now signal }
{
    let incoming = port.incoming.as_slice();
    let found = if signal < incoming.len() {
        incoming.get(signal)
    } else {
        port.outgoing.as_slice().get(signal - incoming.len())
    };
    match found {
        Some(signal) => signal.name.as_bytes(),
        None => b"",
    }
}

/// The name of a kind of system messages.
#[tactic(auto, unfolding(crate::specs::Names::kind_text))]
fn kind_name(number: u16) -> &'static [u8]
    ensures { result.now ≡ kind_text number }
{
    match SysKind::from_number(number) {
        Some(kind) => kind.name().as_bytes(),
        None => b"",
    }
}
