//! One service point.
ghost use Rattle.std.specs.Prelude.{◌≡◌, ◌<◌, ◌^◌, length, option_map, slice_get, slice_index, IfErr, IfOk, IfSome, OnOk};
ghost use Rattle.actor_duties.specs.Links.{with_link, is_entered};
ghost use Rattle.actor_duties.specs.Peers.{link_at};
ghost use Rattle.layer_service.specs.layer_links.Kept.{registration_of, unnamed};
ghost use Rattle.layer_service.specs.layer_links.Rising.{IsAt, IsGapFor, first_from, next_linked, places_of, without_link};

use crate::layer_links::link::Link;
use room_kinds::Endpoint;
use service_messages::is_same_endpoint;
use std::alloc::{AllocError, Global};
use std::marker::Model;

/// How far a service point is registered under a name.
#[derive(Clone, Copy, Drop, PartialEq, Eq)]
pub enum Registration {
    /// It is registered under no name.
    Unnamed,
    /// The name table was asked to register it.
    Asked,
    Registered,
    /// The name table was asked to withdraw it.
    Leaving,
}

impl Registration {
    /// Whether it is to be withdrawn when its actor ends.
    pub fn is_entered(self) -> bool
        ensures { result ≡ is_entered (registration_of self) }
    {
        matches!(self, Registration::Asked | Registration::Registered)
    }
}

/// A service point: its registration, and its links in order of place.
#[derive(Drop)]
pub struct Point {
    registration: Registration,
    linked: Vec<Link>,
}

impl Model for Point {
    ghost use Rattle.layer_service.specs.layer_links.Kept.{PointState, registration_of};
    ghost use Rattle.layer_service.specs.layer_links.Rising.{AreRising};

    ghost Value = { PointState };

    ghost view = { λ p. record {
      registration = registration_of p.registration;
      linked = p.linked.items;
    } };

    ghost invariant = { λ p. AreRising p.linked.items };
}

impl Point {
    /// A point that was never named. It takes no memory.
    pub fn new(alloc: Global) -> Point
        ensures { result ≡ unnamed }
    {
        Point {
            registration: Registration::Unnamed,
            linked: Vec::new(alloc),
        }
    }

    pub fn registration(&self) -> Registration
        ensures { registration_of result ≡ self.now.registration }
    {
        self.registration
    }

    pub fn set_registration(&mut self, next: Registration)
        ensures { self.new ≡ record self.old { registration = registration_of next } }
    {
        self.registration = next;
    }

    pub fn link_count(&self) -> usize
        ensures { result ≡ length self.now.linked }
    {
        self.linked.len()
    }

    /// The place of one of the links; 0 where there is no such link.
    pub fn linked_place(&self, index: usize) -> u32
        ensures { let linked = self.now.linked in
            index < length linked → result ≡ slice_index (places_of linked) index }
    {
        match self.linked.as_slice().get(index) {
            Some(link) => link.place(),
            None => 0,
        }
    }

    /// Where the link of a place stands, or where it would stand.
    fn search(&self, place: u64) -> Result<usize, usize>
        ensures found { IfOk result (IsAt self.now.linked place) }
        ensures absent { IfErr result (IsGapFor self.now.linked place) }
    {
        self.linked
            .binary_search_by_key(&place, |link| u64::from(link.place()))
    }

    /// The endpoint that a place is linked to; none at a place of more than 32 bits.
    pub fn peer(&self, place: u64) -> Option<Endpoint>
        ensures peer { result ≡ option_map (λ x. x.peer) (link_at place self.now.linked) }
        ensures near { IfSome result (λ e. place < 2 ^ 32) }
    {
        match self.search(place) {
            Ok(index) => Some(self.linked[index].peer()),
            Err(_) => None,
        }
    }

    /// Where the first link stands whose place is at or above one; behind the last where there is
    /// none.
    fn place_from(&self, place: u64) -> usize
        ensures { first_from place self.now.linked ≡ slice_get self.now.linked result }
    {
        // A look at the links, which stand in order of place.
        let _links = self.linked.as_slice();
        match self.search(place) {
            Ok(index) => index,
            Err(index) => index,
        }
    }

    /// The least linked place that is at or above one.
    pub fn next_place(&self, place: u32) -> Option<u32>
        ensures { result ≡ next_linked place self.now.linked }
    {
        let index = self.place_from(u64::from(place));
        match self.linked.as_slice().get(index) {
            Some(link) => Some(link.place()),
            None => None,
        }
    }

    /// Links a place to an endpoint. A link that stood there is replaced.
    pub fn link(&mut self, place: u32, peer: Endpoint) -> Result<(), AllocError>
        ensures { let linked = with_link (record { place = place; peer = peer }) self.old.linked in
            OnOk result (self.new ≡ record self.old { linked = linked }) }
    {
        let link = Link::new(place, peer);
        match self.search(u64::from(place)) {
            Ok(index) => {
                self.linked[index] = link;
                Ok(())
            }
            Err(index) => Ok(self.linked.insert(index, link)?),
        }
    }

    /// Ends the link of a place to an endpoint, if it is there.
    pub fn unlink(&mut self, place: u32, peer: Endpoint)
        ensures { self.new ≡ record self.old { linked = without_link peer place self.old.linked } }
    {
        if let Ok(index) = self.search(u64::from(place)) {
            if is_same_endpoint(self.linked[index].peer(), peer) {
                self.linked.remove(index);
            }
        }
    }
}
