//! What the wiring says of the places of ports.
use room_kinds::PortKind;
use room_wiring::PortNames;
pub(crate) use view_journals::{has_joined, is_joined, is_outlet, partner_of};

/// Whether an actor's own behaviour works at a port, and others than the frame service come there.
pub(crate) fn is_worked_at(port: &PortNames) -> bool {
    match port.kind {
        PortKind::End | PortKind::Internal | PortKind::Sap | PortKind::Spp => true,
        PortKind::Frame | PortKind::Relay => false,
    }
}
