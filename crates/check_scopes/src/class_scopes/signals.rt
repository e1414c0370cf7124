//! The messages that ports have: those of each protocol class, and of the frame service.

ghost use Rattle.std.specs.Prelude.{◌≡◌, option_map, option_and_then, slice_get, IfOk};
ghost use Rattle.check_scopes.specs.class_scopes.Signals.{is_frame, signals_at, no_signals};

use room_ast::PortEntry;
use room_kinds::{PortKind, Sequence, SharedSequence};
use std::alloc::{AllocError, Global};

/// The messages of a protocol class, or of the frame service, in both directions. They are kept once,
/// however many ports have them.
#[derive(Drop)]
pub struct Signals<S> {
    pub incoming: SharedSequence<S>,
    pub outgoing: SharedSequence<S>,
}

/// The messages that the ports of a model have: at `frame`, at a port without a protocol class, and of
/// each protocol class, by its number.
#[derive(Drop)]
pub struct SignalTable<S> {
    pub frame: Signals<S>,
    pub none: Signals<S>,
    pub protocols: Sequence<Signals<S>>,
}

impl<S: Drop> Signals<S> {
    /// No messages.
    pub fn none(alloc: Global) -> Result<Self, AllocError>
        ensures { IfOk result (λ s. s ≡ no_signals) }
    {
        Ok(Signals {
            incoming: SharedSequence::of(alloc, Vec::new(alloc))?,
            outgoing: SharedSequence::of(alloc, Vec::new(alloc))?,
        })
    }

    /// The same messages for one more port. It takes no memory.
    pub fn share(&self) -> Result<Self, AllocError>
        ensures { IfOk result (λ s. s ≡ self.now) }
    {
        Ok(Signals {
            incoming: self.incoming.share()?,
            outgoing: self.outgoing.share()?,
        })
    }
}

fn is_frame(kind: PortKind) -> bool
    ensures { result ≡ is_frame kind }
{
    match kind {
        PortKind::Frame => true,
        PortKind::Relay | PortKind::End | PortKind::Internal | PortKind::Sap | PortKind::Spp =>
            false,
    }
}

impl<S: Drop> SignalTable<S> {
    fn of_protocol(&self, protocol: Option<usize>) -> Option<&Signals<S>>
        ensures { option_map (λ s. s.now) result
            ≡ option_and_then (slice_get self.entry.now.protocols) protocol }
    {
        match protocol {
            Some(number) => self.protocols.as_slice().get(number),
            None => None,
        }
    }

    /// The messages of a port.
    pub fn at(&self, port: &PortEntry) -> &Signals<S>
        ensures { result.now ≡ signals_at self.entry.now port.entry.now }
    {
        if is_frame(port.kind) {
            return &self.frame;
        }
        match self.of_protocol(port.protocol) {
            Some(signals) => signals,
            None => &self.none,
        }
    }
}
