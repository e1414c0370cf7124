//! Places of the ports of slots.
ghost use Rattle.std.specs.Prelude.{◌≡◌};
ghost use Rattle.wiring_places.specs.place_rules.Partners.{is_relay_role, is_end_role, is_socket_role};

/// What a place does with a message.
#[derive(Clone, Copy, Drop, PartialEq, Eq)]
pub enum Role {
    /// It passes the message from one of its faces to the other.
    Relay,
    /// The behaviour of the slot's own actor works there.
    End,
    /// The slot is imported: the actor works there that is imported to it.
    Socket,
}

impl Role {
    /// Whether the place passes messages on.
    pub fn is_relay(self) -> bool
        ensures { result ≡ is_relay_role self }
    {
        match self {
            Role::Relay => true,
            Role::End | Role::Socket => false,
        }
    }

    /// Whether the behaviour of the slot's own actor works there.
    pub fn is_end(self) -> bool
        ensures { result ≡ is_end_role self }
    {
        match self {
            Role::End => true,
            Role::Relay | Role::Socket => false,
        }
    }

    /// Whether an actor works there that is imported to the slot.
    pub fn is_socket(self) -> bool
        ensures { result ≡ is_socket_role self }
    {
        match self {
            Role::Socket => true,
            Role::Relay | Role::End => false,
        }
    }
}

/// A place of a port of a slot.
#[derive(Clone, Copy, Drop, PartialEq, Eq)]
pub struct Place {
    pub slot: u16,
    pub port: u16,
    pub place: u32,
    pub role: Role,
}

/// A service access point and the service provision point that it is joined to.
#[derive(Clone, Copy, Drop, PartialEq, Eq)]
pub struct LayerJoin {
    pub sap_slot: u16,
    pub sap: u16,
    pub spp_slot: u16,
    pub spp: u16,
}
