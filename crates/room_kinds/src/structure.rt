//! The kinds of ports and of actor references.
ghost use Rattle.std.specs.Prelude.{◌≡◌};
ghost use Rattle.room_kinds.specs.Structure.{is_end, is_imported};

/// What a port of an actor class is.
#[derive(Clone, Copy, Drop, Debug, PartialEq, Eq)]
pub enum PortKind {
    /// The built-in port of the frame service, number 0 of every class.
    Frame,
    /// A port of the interface that passes messages to the inside.
    Relay,
    /// A port of the interface that belongs to the actor's behaviour.
    End,
    /// A port of the structure, which belongs to the actor's behaviour.
    Internal,
    /// A service access point.
    Sap,
    /// A service provision point.
    Spp,
}

impl PortKind {
    /// Whether this is an end port, at which the actor's own behaviour works.
    pub fn is_end(self) -> bool
        ensures { result ≡ is_end self }
    {
        match self {
            PortKind::End | PortKind::Internal => true,
            PortKind::Frame | PortKind::Relay | PortKind::Sap | PortKind::Spp => false,
        }
    }
}

/// How the actors of a reference come to be.
#[derive(Clone, Copy, Drop, Debug, PartialEq, Eq)]
pub enum ReferenceKind {
    /// Made with its container.
    Fixed,
    /// Made and destroyed by actions.
    Optional,
    /// Filled with an actor that lives elsewhere.
    Imported,
}

impl ReferenceKind {
    /// Whether an actor that lives elsewhere stands here.
    pub fn is_imported(self) -> bool
        ensures { result ≡ is_imported self }
    {
        match self {
            ReferenceKind::Imported => true,
            ReferenceKind::Fixed | ReferenceKind::Optional => false,
        }
    }
}
