//! Finding names in a scope.
ghost use Rattle.std.specs.Prelude.{◌≡◌, ◌+◌, ◌<◌, ◌^◌, length, option_map};
ghost use Rattle.room_ast.specs.Found.{same_path, found_attribute, found_port, found_reference, found_signal, found_sent, found_received};

use crate::name::Name;
use crate::scope::{Scope, ScopeAttribute, ScopePort, ScopeReference, ScopeSignal};

fn same_path(a: &[Name], b: &[Name]) -> bool
    ensures { result ≡ same_path a.now b.now }
{
    let (mut a, mut b) = (a, b);
    while let [first, a_rest @ ..] = a {
        let [second, b_rest @ ..] = b else {
            return false;
        };
        if !first.is(second.as_bytes()) {
            return false;
        }
        a = a_rest;
        b = b_rest;
    }
    b.is_empty()
}

fn signal<'a>(signals: &'a [ScopeSignal], name: &[u8], first: u16) -> Option<(u16, &'a ScopeSignal)>
    requires { first + length signals.now < 2 ^ 16 }
    ensures { option_map (λ x. (x.0, x.1.now)) result ≡ found_signal first signals.entry.now name.now }
{
    let mut number = first;
    for signal in signals {
        if signal.name.is(name) {
            return Some((number, signal));
        }
        number += 1;
    }
    None
}

impl Scope {
    /// The number and type of what a dotted name names; none where it isn't one number.
    pub fn attribute(&self, path: &[Name]) -> Option<(u32, &ScopeAttribute)>
        ensures { option_map (λ x. (x.0, x.1.now)) result ≡ found_attribute self.entry.now path.now }
    {
        for (i, attribute) in self.attributes.iter().enumerate() {
            if same_path(attribute.path.as_slice(), path) {
                return Some((i as u32, attribute));
            }
        }
        None
    }

    /// The number of a port, and the port.
    pub fn port(&self, name: &[u8]) -> Option<(u16, &ScopePort)>
        ensures { option_map (λ x. (x.0, x.1.now)) result ≡ found_port self.entry.now name.now }
    {
        for (i, port) in self.ports.iter().enumerate() {
            if port.name.is(name) {
                return Some((i as u16, port));
            }
        }
        None
    }

    /// The number of a reference, and the reference.
    pub fn reference(&self, name: &[u8]) -> Option<(u16, &ScopeReference)>
        ensures { option_map (λ x. (x.0, x.1.now)) result ≡ found_reference self.entry.now name.now }
    {
        for (i, reference) in self.references.iter().enumerate() {
            if reference.name.is(name) {
                return Some((i as u16, reference));
            }
        }
        None
    }
}

impl ScopePort {
    /// The number of a message that goes out at the port, and the message.
    pub fn sent(&self, name: &[u8]) -> Option<(u16, &ScopeSignal)>
        ensures { option_map (λ x. (x.0, x.1.now)) result ≡ found_sent self.entry.now name.now }
    {
        if self.conjugated {
            signal(self.incoming.as_slice(), name, 0)
        } else {
            signal(self.outgoing.as_slice(), name, self.incoming.len() as u16)
        }
    }

    /// The number of a message that comes in at the port, and the message.
    pub fn received(&self, name: &[u8]) -> Option<(u16, &ScopeSignal)>
        ensures { option_map (λ x. (x.0, x.1.now)) result ≡ found_received self.entry.now name.now }
    {
        if self.conjugated {
            signal(self.outgoing.as_slice(), name, self.incoming.len() as u16)
        } else {
            signal(self.incoming.as_slice(), name, 0)
        }
    }
}
