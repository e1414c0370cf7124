//! The service points of one slot.
ghost use Rattle.std.specs.Prelude.{◌≡◌, ◌<◌, ◌≤◌, ◌^◌, ◌++◌, [], length, slice_set, slice_index, option_map, IfSome, OnOk};
ghost use Rattle.std.specs.List.{range_with_len};
ghost use Rattle.actor_duties.specs.Links.{with_link};
ghost use Rattle.actor_duties.specs.Peers.{link_at};
ghost use Rattle.layer_service.specs.layer_links.Kept.{registration_of, point_at, withdrawals};
ghost use Rattle.layer_service.specs.layer_links.Rising.{next_linked, places_of, without_link};

use crate::layer_links::point::{Point, Registration};
use crate::layer_links::sent::{ask, point_of};
use room_kinds::{ControllerId, Endpoint, Incarnation, Outbox, Payload, SysKind};
use std::alloc::{AllocError, Global};
use std::marker::Model;

/// The service points of what stands in one slot, by port.
#[derive(Drop)]
pub struct Points {
    by_port: Vec<Point>,
}

impl Model for Points {
    ghost use Rattle.std.specs.Prelude.{List, length, ◌≤◌};
    ghost use Rattle.layer_service.specs.layer_links.Kept.{PointState};

    ghost Value = { List PointState };

    ghost view = { λ p. p.by_port.items };

    ghost invariant = { λ p. length p.by_port.items ≤ 65536 };
}

impl Points {
    /// No points. It takes no memory.
    pub fn new(alloc: Global) -> Points
        ensures { result ≡ [] }
    {
        Points {
            by_port: Vec::new(alloc),
        }
    }

    fn len(&self) -> usize
        ensures len { result ≡ length self.now }
        ensures short { length self.now ≤ 65536 }
    {
        self.by_port.len()
    }

    /// Lists the ports up to this one.
    #[tactic(auto, using(crate::proofs::layer_links::ByPort::port_listed))]
    pub fn list(&mut self, alloc: Global, port: u16) -> Result<(), AllocError>
        ensures listed { OnOk result (port < length self.new) }
        ensures same { OnOk result (point_at self.new ≡ point_at self.old) }
    {
        while self.by_port.len() <= usize::from(port) {
            self.by_port.push(Point::new(alloc))?;
        }
        Ok(())
    }

    #[tactic(auto, unfolding(crate::specs::layer_links::Kept::point_at))]
    pub fn registration(&self, port: u16) -> Registration
        ensures { registration_of result ≡ (point_at self.now port).registration }
    {
        match self.by_port.as_slice().get(usize::from(port)) {
            Some(point) => point.registration(),
            None => Registration::Unnamed,
        }
    }

    #[tactic(auto, unfolding(crate::specs::layer_links::Kept::point_at))]
    pub fn peer(&self, port: u16, place: u64) -> Option<Endpoint>
        ensures peer { let linked = (point_at self.now port).linked in
            result ≡ option_map (λ x. x.peer) (link_at place linked) }
        ensures near { IfSome result (λ e. place < 2 ^ 32) }
    {
        match self.by_port.as_slice().get(usize::from(port)) {
            Some(point) => point.peer(place),
            None => None,
        }
    }

    /// How many places of a port are linked.
    #[tactic(auto, unfolding(crate::specs::layer_links::Kept::point_at))]
    pub fn link_count(&self, port: u16) -> usize
        ensures { result ≡ length (point_at self.now port).linked }
    {
        match self.by_port.as_slice().get(usize::from(port)) {
            Some(point) => point.link_count(),
            None => 0,
        }
    }

    /// The place of one of the links of a port; 0 where there is no such link.
    #[tactic(auto, unfolding(crate::specs::layer_links::Kept::point_at))]
    pub fn linked_place(&self, port: u16, index: usize) -> u32
        ensures { let linked = (point_at self.now port).linked in
            index < length linked → result ≡ slice_index (places_of linked) index }
    {
        match self.by_port.as_slice().get(usize::from(port)) {
            Some(point) => point.linked_place(index),
            None => 0,
        }
    }

    /// The least linked place of a port that is at or above one.
    #[tactic(auto, unfolding(crate::specs::layer_links::Kept::point_at))]
    pub fn next_place(&self, port: u16, place: u32) -> Option<u32>
        ensures { result ≡ next_linked place (point_at self.now port).linked }
    {
        match self.by_port.as_slice().get(usize::from(port)) {
            Some(point) => point.next_place(place),
            None => None,
        }
    }

    #[tactic(auto, unfolding(crate::specs::layer_links::Kept::point_at))]
    pub fn set_registration(&mut self, port: u16, next: Registration)
        requires { port < length self.old }
        ensures { let point = point_at self.old port in
            let now = record point { registration = registration_of next } in
            self.new ≡ slice_set self.old port now }
    {
        self.by_port[usize::from(port)].set_registration(next);
    }

    #[tactic(auto, unfolding(crate::specs::layer_links::Kept::point_at))]
    pub fn link(&mut self, port: u16, place: u32, peer: Endpoint) -> Result<(), AllocError>
        requires { port < length self.old }
        ensures { let point = point_at self.old port in
            let linked = with_link (record { place = place; peer = peer }) point.linked in
            OnOk result (self.new ≡ slice_set self.old port (record point { linked = linked })) }
    {
        self.by_port[usize::from(port)].link(place, peer)
    }

    #[tactic(auto, unfolding(crate::specs::layer_links::Kept::point_at))]
    pub fn unlink(&mut self, port: u16, place: u32, peer: Endpoint)
        requires { port < length self.old }
        ensures { let point = point_at self.old port in
            let linked = without_link peer place point.linked in
            self.new ≡ slice_set self.old port (record point { linked = linked }) }
    {
        self.by_port[usize::from(port)].unlink(place, peer);
    }

    /// Asks the name table to withdraw each of the first ports of an actor that is asked for or
    /// registered, in port order.
    pub fn withdraw_each(
        &self,
        alloc: Global,
        me: ControllerId,
        actor: Incarnation,
        ports: usize,
        out: &mut Outbox,
    ) -> Result<(), AllocError>
        ensures { let point = point_at self.now in
            let sent = withdrawals me.0 actor point (range_with_len 0 ports) in
            OnOk result (out.new ≡ out.old ++ sent) }
    {
        for index in 0..ports.min(self.len()) {
            let port = index as u16;
            if self.registration(port).is_entered() {
                let point = point_of(actor, port);
                ask(me, SysKind::Withdraw, point, Payload::empty(alloc), out)?;
            }
        }
        Ok(())
    }
}
