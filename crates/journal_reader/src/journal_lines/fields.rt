//! The fields of a line.
ghost use Rattle.std.specs.Prelude.{◌≡◌};
ghost use Rattle.journal_reader.specs.journal_lines.Fields.{party_in, incarnation_in, after_incarnation, endpoint_in, after_endpoint, source_in, after_source, state_in, kind_in, signal_in, speaking_port_in};

use crate::journal_lines::rest::{Rest, byte, is, word};
use room_kinds::{ControllerId, Endpoint, Generation, Incarnation, Priority, SlotId, SysKind};
use room_wiring::wiring_names::Names;

#[tactic(auto, unfolding(crate::specs::journal_lines::Fields::party_in))]
pub fn party(names: &Names<'_>, text: &[u8]) -> ControllerId
    ensures { result ≡ record { 0 = party_in names.now text.now } }
{
    if is(text, "env") {
        ControllerId(names.controller_count())
    } else {
        ControllerId(byte(text))
    }
}

#[tactic(auto, unfolding(crate::specs::journal_lines::Fields::incarnation_in))]
pub fn incarnation(names: &Names<'_>, rest: &mut Rest<'_>) -> Incarnation
    ensures value { result ≡ incarnation_in names.now rest.old }
    ensures rest { rest.new ≡ after_incarnation rest.old }
{
    let slot = names.slot(rest.take_until(b'#'));
    let generation = Generation(word(rest.take_until(b' ')));
    Incarnation { slot, generation }
}

#[tactic(auto, unfolding(crate::specs::journal_lines::Fields::endpoint_in))]
pub fn endpoint(names: &Names<'_>, rest: &mut Rest<'_>) -> Endpoint
    ensures value { result ≡ endpoint_in names.now rest.old }
    ensures rest { rest.new ≡ after_endpoint rest.old }
{
    let slot = names.slot(rest.take_until(b'#'));
    let generation = Generation(word(rest.take_until(b'.')));
    let port = names.port(slot, rest.take_until(b'['));
    let place = word(rest.take_until(b']'));
    rest.skip_past(b' ');
    Endpoint {
        slot,
        generation,
        port,
        place,
    }
}

#[tactic(auto, unfolding(crate::specs::journal_lines::Fields::source_in, crate::specs::journal_lines::Fields::after_source))]
pub fn source(names: &Names<'_>, rest: &mut Rest<'_>) -> Option<Endpoint>
    ensures value { result ≡ source_in names.now rest.old }
    ensures rest { rest.new ≡ after_source rest.old }
{
    if rest.begins(b'-') {
        rest.skip_past(b' ');
        None
    } else {
        Some(endpoint(names, rest))
    }
}

/// The state of a slot's class with a label; 65,535 for `-`.
#[tactic(auto, unfolding(crate::specs::journal_lines::Fields::state_in))]
pub fn state(names: &Names<'_>, slot: SlotId, label: &[u8]) -> u16
    ensures { result ≡ state_in names.now slot.0 label.now }
{
    if is(label, "-") {
        65535
    } else {
        names.state(slot, label)
    }
}

/// The number of the kind of system messages with this name; 0 where there is none.
#[tactic(auto, unfolding(crate::specs::journal_lines::Fields::kind_in))]
fn kind(name: &[u8]) -> u16
    ensures { result ≡ kind_in name.now }
{
    match SysKind::from_name(name) {
        Some(kind) => kind.number(),
        None => 0,
    }
}

#[tactic(auto, unfolding(crate::specs::journal_lines::Fields::signal_in))]
pub fn signal(names: &Names<'_>, prio: Priority, target: Endpoint, name: &[u8]) -> u16
    ensures { result ≡ signal_in names.now prio.0 target name.now }
{
    if prio.0 == 0 {
        kind(name)
    } else {
        names.signal(target.slot, target.port, name)
    }
}

#[tactic(auto, unfolding(crate::specs::journal_lines::Fields::speaking_port_in))]
pub fn speaking_port(names: &Names<'_>, speaker: Option<SlotId>, name: &[u8]) -> u16
    ensures { result ≡ speaking_port_in names.now speaker name.now }
{
    match speaker {
        Some(slot) => names.port(slot, name),
        None => 0,
    }
}
