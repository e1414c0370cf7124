//! Ports and signals, and how they are found by name.
ghost use Rattle.std.specs.Prelude.{◌≡◌, ◌<◌, ◌≤◌, false, length, position, slice_get, option_map, option_and_then};
ghost use Rattle.std.specs.Option.{option_copied, option_map_or};
ghost use Rattle.name_tables.specs.name_numbers.Names.{same};
ghost use Rattle.inject_reader.specs.Guesses.{IsNoLater};
ghost use Rattle.inject_reader.specs.Meaning.{narrow, coming, first_coming, coming_at};

use room_wiring::{PortNames, SignalNames};

fn has_port(ports: &[PortNames], at: usize, name: &[u8]) -> bool
    ensures { result ≡ option_map_or (λ x. same x.name name.now) (slice_get ports.now at) false }
{
    match ports.get(at) {
        Some(port) => port.name.is(name),
        None => false,
    }
}

/// The first port with this name, given that no port before the guess has it.
pub fn port_place(ports: &[PortNames], name: &[u8], guess: usize) -> Option<usize>
    requires { IsNoLater guess (λ x. same x.name name.now) ports.now }
    ensures { result ≡ position (λ x. same x.name name.now) ports.now }
{
    if has_port(ports, guess, name) {
        return Some(guess);
    }
    search_port(ports, name)
}

fn search_port(ports: &[PortNames], name: &[u8]) -> Option<usize>
    ensures { result ≡ position (λ x. same x.name name.now) ports.now }
{
    ports.iter().position(|port| port.name.is(name))
}

fn has_signal(signals: &[SignalNames], at: usize, name: &[u8]) -> bool
    ensures { result ≡ option_map_or (λ x. same x.name name.now) (slice_get signals.now at) false }
{
    match signals.get(at) {
        Some(signal) => signal.name.is(name),
        None => false,
    }
}

/// The first signal with this name, given that no signal before the guess has it.
pub fn signal_place(signals: &[SignalNames], name: &[u8], guess: usize) -> Option<usize>
    requires { IsNoLater guess (λ x. same x.name name.now) signals.now }
    ensures { result ≡ position (λ x. same x.name name.now) signals.now }
{
    if has_signal(signals, guess, name) {
        return Some(guess);
    }
    search_signal(signals, name)
}

fn search_signal(signals: &[SignalNames], name: &[u8]) -> Option<usize>
    ensures { result ≡ position (λ x. same x.name name.now) signals.now }
{
    signals.iter().position(|signal| signal.name.is(name))
}

pub fn narrow(place: usize) -> Option<u16>
    ensures { result ≡ narrow place }
{
    if place < 65536 {
        Some(place as u16)
    } else {
        None
    }
}

/// The signals that come in at a port.
pub fn coming(port: &PortNames) -> &[SignalNames]
    ensures { result.now ≡ coming port.now }
{
    if port.conjugated {
        port.outgoing.as_slice()
    } else {
        port.incoming.as_slice()
    }
}

/// The number of the first of them.
pub fn first_coming(port: &PortNames) -> usize
    ensures { result ≡ first_coming port.now }
{
    if port.conjugated {
        port.incoming.len()
    } else {
        0
    }
}

/// The signal at a place among those that come in, with its number.
pub fn coming_at(port: &PortNames, at: usize) -> Option<(u16, &SignalNames)>
    ensures { option_map (λ y. (y.0, y.1.now)) result ≡ coming_at port.now at }
{
    let signal = coming(port).get(at)?;
    let number = narrow(at.checked_add(first_coming(port))?)?;
    Some((number, signal))
}
