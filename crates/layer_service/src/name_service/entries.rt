//! Who stands in a service.
ghost use Rattle.std.specs.Prelude.{◌≡◌, filter, not};
ghost use Rattle.std.specs.List.{list_any};
ghost use Rattle.actor_duties.specs.Names.{is_user};

use room_kinds::Endpoint;
use service_messages::is_same_endpoint;
use std::marker::Model;

/// A registered service access point, and the place of the provider that it is linked to.
#[derive(Clone, Copy)]
pub struct User {
    at: Endpoint,
    linked: Option<u32>,
}

impl Model for User {
    ghost use Rattle.actor_duties.specs.State as rows;

    ghost Value = { rows.User };

    ghost view = { λ u. record { at = u.at; linked = u.linked } };

    ghost inverse = { λ u. record { at = u.at; linked = u.linked } };
}

impl User {
    pub fn new(at: Endpoint, linked: Option<u32>) -> User
        ensures { result ≡ record { at = at; linked = linked } }
    {
        User { at, linked }
    }

    pub fn at(self) -> Endpoint
        ensures { result ≡ self.at }
    {
        self.at
    }

    pub fn linked(self) -> Option<u32>
        ensures { result ≡ self.linked }
    {
        self.linked
    }

    /// Whether this endpoint is the user.
    pub fn is(self, endpoint: Endpoint) -> bool
        ensures { result ≡ is_user endpoint self }
    {
        is_same_endpoint(self.at, endpoint)
    }
}

/// Whether an endpoint is one of these users.
pub fn is_among(users: &[User], endpoint: Endpoint) -> bool
    ensures { result ≡ list_any (is_user endpoint) users.now }
{
    users.iter().any(|user| user.is(endpoint))
}

/// Takes an endpoint out of these users.
pub fn remove_user(users: &mut Vec<User>, endpoint: Endpoint)
    ensures { users.new.items ≡ filter (λ u. not (is_user endpoint u)) users.old.items }
{
    users.retain(|user| !user.is(endpoint));
}

/// A registered service provision point, and the place that its next link takes.
#[derive(Clone, Copy)]
pub struct Provider {
    at: Endpoint,
    next: u32,
}

impl Model for Provider {
    ghost use Rattle.actor_duties.specs.State as rows;

    ghost Value = { rows.Provider };

    ghost view = { λ p. record { at = p.at; next = p.next } };

    ghost inverse = { λ p. record { at = p.at; next = p.next } };
}

impl Provider {
    pub fn new(at: Endpoint, next: u32) -> Provider
        ensures { result ≡ record { at = at; next = next } }
    {
        Provider { at, next }
    }

    pub fn at(self) -> Endpoint
        ensures { result ≡ self.at }
    {
        self.at
    }

    pub fn next(self) -> u32
        ensures { result ≡ self.next }
    {
        self.next
    }
}
