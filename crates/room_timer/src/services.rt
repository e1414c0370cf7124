//! Where the timing service of a model is, and where its timeouts come in.
ghost use Rattle.std.specs.Prelude.{◌≡◌, option_map};
ghost use Rattle.actor_duties.specs.Words.{is_fixed, container_of};
ghost use Rattle.actor_world.specs.Start.{is_fixed_up, lives_from_start};
ghost use Rattle.room_timer.specs.Services.{is_int32, is_spp, carries_int32, are_requests, are_answers, speaks_of_time, is_timer, is_timing, is_timed, hears_timeout};
ghost use Rattle.inject_reader.specs.Fitting.{has_end_places};

use room_kinds::{Endpoint, NumberType, PortKind, ReferenceKind, SlotId};
use room_wiring::{PortNames, SignalNames, Wiring};

fn is_int32(number: NumberType) -> bool
    ensures { result ≡ is_int32 number }
{
    match number {
        NumberType::Int32 => true,
        NumberType::Int8
        | NumberType::Int16
        | NumberType::Uint8
        | NumberType::Uint16
        | NumberType::Uint32
        | NumberType::Boolean
        | NumberType::Plain => false,
    }
}

fn is_spp(kind: PortKind) -> bool
    ensures { result ≡ is_spp kind }
{
    match kind {
        PortKind::Spp => true,
        PortKind::Frame | PortKind::Relay | PortKind::End | PortKind::Internal | PortKind::Sap =>
            false,
    }
}

fn has_end_places(kind: PortKind) -> bool
    ensures { result ≡ has_end_places kind }
{
    match kind {
        PortKind::End | PortKind::Internal | PortKind::Sap | PortKind::Spp => true,
        PortKind::Frame | PortKind::Relay => false,
    }
}

/// Whether a message carries one number, of 32 bits.
fn carries_int32(numbers: &[NumberType]) -> bool
    ensures { result ≡ carries_int32 numbers.now }
{
    match numbers {
        [number] => is_int32(*number),
        _ => false,
    }
}

/// Whether these are the messages to a timing service.
fn are_requests(signals: &[SignalNames]) -> bool
    ensures { result ≡ are_requests signals.now }
{
    match signals {
        [start, kill] => {
            start.name.is(b"startTimer")
                && carries_int32(start.numbers.as_slice())
                && kill.name.is(b"killTimer")
                && kill.numbers.is_empty()
        }
        _ => false,
    }
}

/// Whether this is the one message that comes from it.
fn are_answers(signals: &[SignalNames]) -> bool
    ensures { result ≡ are_answers signals.now }
{
    match signals {
        [timeout] => timeout.name.is(b"timeout") && timeout.numbers.is_empty(),
        _ => false,
    }
}

/// Whether a port has the protocol of timing services.
fn speaks_of_time(port: &PortNames) -> bool
    ensures { result ≡ speaks_of_time port.now }
{
    let named = match &port.protocol_name {
        Some(name) => name.is(b"PTimer"),
        None => false,
    };
    named && are_requests(port.incoming.as_slice()) && are_answers(port.outgoing.as_slice())
}

/// Whether a port is the `timer` of a timing service.
fn is_timer(port: &PortNames) -> bool
    ensures { result ≡ is_timer port.now }
{
    is_spp(port.kind) && port.name.is(b"timer") && speaks_of_time(port)
}

/// Whether timeouts come in at a port.
fn is_timed(port: &PortNames) -> bool
    ensures { result ≡ is_timed port.now }
{
    has_end_places(port.kind) && port.conjugated && speaks_of_time(port)
}

/// Whether a slot lives exactly where its container does.
#[tactic(auto, unfolding(actor_duties::specs::Words::is_fixed))]
fn is_fixed(wiring: &Wiring, s: SlotId) -> bool
    ensures { result ≡ is_fixed wiring.now s.0 }
{
    match wiring.get_slot(s) {
        Some(slot) => match slot.kind {
            ReferenceKind::Fixed => true,
            ReferenceKind::Optional | ReferenceKind::Imported => false,
        },
        None => false,
    }
}

/// The container of a slot; none at the top, and where there is no such slot.
#[tactic(auto, unfolding(actor_duties::specs::Words::container_of))]
fn container_of(wiring: &Wiring, s: SlotId) -> Option<SlotId>
    ensures { option_map (λ c. c.0) result ≡ container_of wiring.now s.0 }
{
    match wiring.get_slot(s) {
        Some(slot) => slot.parent,
        None => None,
    }
}

/// Whether a slot is fixed and, so many containers up, in fixed slots alone.
#[tactic(auto, using(crate::proofs::Places::fixed_above))]
fn is_fixed_up(wiring: &Wiring, up: u32, s: SlotId) -> bool
    ensures { result ≡ is_fixed_up wiring.now up s.0 }
{
    if !is_fixed(wiring, s) {
        return false;
    }
    if up == 0 {
        return true;
    }
    match container_of(wiring, s) {
        Some(container) => is_fixed_up(wiring, up - 1, container),
        None => true,
    }
}

/// Whether a slot lives from the start: it is fixed and not below an optional one.
#[tactic(auto, unfolding(actor_world::specs::Start::lives_from_start))]
fn lives_from_start(wiring: &Wiring, s: SlotId) -> bool
    ensures { result ≡ lives_from_start wiring.now s.0 }
{
    is_fixed_up(wiring, wiring.slot_count(), s)
}

/// Whether an endpoint is at the `timer` of a timing service.
#[tactic(auto, unfolding(crate::specs::Services::is_timing))]
pub fn is_timing(wiring: &Wiring, e: Endpoint) -> bool
    ensures { result ≡ is_timing wiring.now e }
{
    let Some(port) = wiring.port_of(e.slot, e.port) else {
        return false;
    };
    let Some(class) = wiring.class_of(e.slot) else {
        return false;
    };
    is_timer(port) && class.name.is(b"TimingService") && lives_from_start(wiring, e.slot)
}

/// Whether timeouts come in at an endpoint.
#[tactic(auto, using(crate::proofs::Places::slot_there), unfolding(crate::specs::Services::hears_timeout))]
pub fn hears_timeout(wiring: &Wiring, e: Endpoint) -> bool
    ensures { result ≡ hears_timeout wiring.now e }
{
    let Some(slot) = wiring.get_slot(e.slot) else {
        return false;
    };
    let Some(port) = wiring.port_of(e.slot, e.port) else {
        return false;
    };
    !slot.kind.is_imported() && is_timed(port) && e.place < wiring.places(e.slot, e.port)
}
