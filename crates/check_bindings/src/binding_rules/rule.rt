//! The rules on connections.

/// A rule on bindings or layer connections.
#[derive(Clone, Copy, Drop, PartialEq, Eq)]
pub(crate) enum ConnectionRule {
    /// The sides of a binding name ports that can be bound there.
    SidesExist,
    /// They have one protocol and opposite directions.
    SidesAgree,
    /// A side with `[*]` is one port, and the other has a number or none.
    AnyPlacesOnce,
    /// A layer connection names what can be connected.
    LayersKnown,
}
