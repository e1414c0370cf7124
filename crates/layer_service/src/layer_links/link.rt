//! One link.
ghost use Rattle.std.specs.Prelude.{◌≡◌};

use room_kinds::Endpoint;
use std::marker::Model;

/// A place of a service point, and the endpoint that it is linked to by a name.
#[derive(Clone, Copy)]
pub struct Link {
    place: u32,
    peer: Endpoint,
}

impl Model for Link {
    ghost use Rattle.actor_duties.specs.State as rows;

    ghost Value = { rows.Link };

    ghost view = { λ x. record { place = x.place; peer = x.peer } };

    ghost inverse = { λ x. record { place = x.place; peer = x.peer } };
}

impl Link {
    pub fn new(place: u32, peer: Endpoint) -> Link
        ensures { result ≡ record { place = place; peer = peer } }
    {
        Link { place, peer }
    }

    pub fn place(self) -> u32
        ensures { result ≡ self.place }
    {
        self.place
    }

    pub fn peer(self) -> Endpoint
        ensures { result ≡ self.peer }
    {
        self.peer
    }
}
