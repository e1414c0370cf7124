//! Registrations and links of all slots.
ghost use Rattle.std.specs.Prelude.{◌&&◌, ◌==◌, ◌≡◌, ℕ, ◌<◌, ◌≤◌, ◌^◌, ◌++◌, ◌∷◌, [], length, slice_index, IfSome, OnOk};
ghost use Rattle.room_kinds.specs.declared.system.SysKind.TheVariants as kinds;
ghost use Rattle.actor_duties.specs.Words.{endpoint, whose, is_endpoint, is_sap, is_joined, joined_at};
ghost use Rattle.actor_duties.specs.Messages.{system, name_told};
ghost use Rattle.actor_duties.specs.Links.{register_from, register_command, withdraw_command, name_request, bound, unbound, asked_heard, name_reply, is_own_point, links_duty_of, links_duty, end_of, next_place};
ghost use Rattle.actor_duties.specs.Peers.{link_peer};
ghost use Rattle.service_messages.specs.Shown.{signal_of};
ghost use Rattle.layer_service.specs.layer_links.Kept.{registration_of, points_of, point_in, links_of, no_links, with_registration, cleared, withdrawals, IsListed};
ghost use Rattle.layer_service.specs.layer_links.Rising.{places_of};
ghost use Rattle.std.specs.List.{range_with_len};

use crate::layer_links::point::Registration;
use crate::layer_links::points::Points;
use crate::layer_links::sent::{ask, point_of, refuse, tell};
use room_kinds::{
    ControllerId, Endpoint, Incarnation, Msg, NameCommand, Outbox, Payload, SlotId, SysKind,
};
use room_wiring::{Partner, Wiring};
use service_messages::{Code, FrameSignal, is_own, is_same_endpoint, is_sap, is_spp, joined_at};
use std::alloc::{AllocError, Global};
use std::marker::Model;

/// The registrations and links of a controller's service points. Contracts see them as `links_of`:
/// for each slot and port the registration, and the links in order of place.
///
/// After want of memory they and the outbox are unspecified: the controller has failed.
#[derive(Drop)]
pub struct Links {
    alloc: Global,
    slots: Vec<Points>,
}

impl Model for Links {
    ghost use Rattle.std.specs.Prelude.{◌&&◌, List};
    ghost use Rattle.layer_service.specs.layer_links.Kept.{PointState};

    ghost Value = { List (List PointState) };

    ghost view = { λ l. l.slots.items };
}

impl Links {
    /// Nobody is registered, and nothing is linked. It takes no memory.
    #[tactic(auto, using(crate::proofs::layer_links::ByPort::nothing_listed))]
    pub fn new(alloc: Global) -> Links
        ensures { links_of result ≡ no_links }
    {
        Links {
            alloc,
            slots: Vec::new(alloc),
        }
    }

    /// Lists the slots up to this one.
    #[tactic(auto, using(crate::proofs::layer_links::ByPort::slot_listed))]
    fn list_slot(&mut self, slot: SlotId) -> Result<(), AllocError>
        ensures listed { OnOk result (slot.0 < length self.new) }
        ensures same { OnOk result (points_of self.new ≡ points_of self.old) }
    {
        while self.slots.len() <= usize::from(slot.0) {
            self.slots.push(Points::new(self.alloc))?;
        }
        Ok(())
    }

    /// Lists a port of a slot.
    fn list(&mut self, slot: SlotId, port: u16) -> Result<(), AllocError>
        ensures listed { OnOk result (IsListed self.new slot.0 port) }
        ensures same { OnOk result (point_in self.new ≡ point_in self.old) }
    {
        self.list_slot(slot)?;
        self.slots[usize::from(slot.0)].list(self.alloc, port)?;
        Ok(())
    }

    #[tactic(auto, unfolding(crate::specs::layer_links::Kept::links_by, crate::specs::layer_links::Kept::point_in, crate::specs::layer_links::Kept::points_of, crate::specs::layer_links::Kept::point_at))]
    fn registration(&self, slot: SlotId, port: u16) -> Registration
        ensures { registration_of result ≡ (links_of self.now).registrations slot.0 port }
    {
        match self.slots.as_slice().get(usize::from(slot.0)) {
            Some(points) => points.registration(port),
            None => Registration::Unnamed,
        }
    }

    fn set_registration(
        &mut self,
        slot: SlotId,
        port: u16,
        next: Registration,
    ) -> Result<(), AllocError>
        ensures { let now =
            with_registration (links_of self.old) slot.0 port (registration_of next) in
            OnOk result (links_of self.new ≡ now) }
    {
        self.list(slot, port)?;
        self.slots[usize::from(slot.0)].set_registration(port, next);
        Ok(())
    }

    /// The own place is linked to the peer. A link that stood there is replaced.
    fn link(&mut self, own: Endpoint, peer: Endpoint) -> Result<(), AllocError>
        ensures { OnOk result (links_of self.new ≡ bound (links_of self.old) peer own) }
    {
        self.list(own.slot, own.port)?;
        self.slots[usize::from(own.slot.0)].link(own.port, own.place, peer)?;
        Ok(())
    }

    /// The link of the own place to the peer goes, if it is there.
    fn unlink(&mut self, own: Endpoint, peer: Endpoint) -> Result<(), AllocError>
        ensures { OnOk result (links_of self.new ≡ unbound (links_of self.old) peer own) }
    {
        self.list(own.slot, own.port)?;
        self.slots[usize::from(own.slot.0)].unlink(own.port, own.place, peer);
        Ok(())
    }

    /// The registrations and links of a slot go.
    fn clear(&mut self, slot: SlotId)
        ensures { links_of self.new ≡ cleared (links_of self.old) slot.0 }
    {
        if usize::from(slot.0) < self.slots.len() {
            self.slots[usize::from(slot.0)] = Points::new(self.alloc);
        }
    }

    /// The endpoint that an end place is linked to by name. It takes no memory.
    #[tactic(auto, unfolding(actor_duties::specs::Peers::link_peer))]
    pub fn peer(&self, from: Endpoint) -> Option<Endpoint>
        ensures { result ≡ link_peer (links_of self.now) from }
    {
        self.peer_at(from.slot, from.port, u64::from(from.place))
    }

    /// The endpoint that a place of a port is linked to by name, whatever stands in the slot; none
    /// at a place of more than 32 bits. It takes no memory.
    #[tactic(auto, unfolding(actor_duties::specs::Peers::link_peer, crate::specs::layer_links::Kept::links_by, crate::specs::layer_links::Kept::point_in, crate::specs::layer_links::Kept::points_of, crate::specs::layer_links::Kept::point_at))]
    pub fn peer_at(&self, slot: SlotId, port: u16, place: u64) -> Option<Endpoint>
        ensures peer { (generation : ℕ) →
            result ≡ link_peer (links_of self.now) (endpoint slot.0 generation port place) }
        ensures near { IfSome result (λ e. place < 2 ^ 32) }
    {
        match self.slots.as_slice().get(usize::from(slot.0)) {
            Some(points) => points.peer(port, place),
            None => None,
        }
    }

    /// How many places of a port are linked by name.
    #[tactic(auto, unfolding(crate::specs::layer_links::Kept::links_by, crate::specs::layer_links::Kept::point_in, crate::specs::layer_links::Kept::points_of, crate::specs::layer_links::Kept::point_at))]
    pub fn link_count(&self, slot: SlotId, port: u16) -> usize
        ensures { result ≡ length ((links_of self.now).linked slot.0 port) }
    {
        match self.slots.as_slice().get(usize::from(slot.0)) {
            Some(points) => points.link_count(port),
            None => 0,
        }
    }

    /// The place of one of the links of a port, which stand in order of place; 0 where there is no
    /// such link.
    #[tactic(auto, unfolding(crate::specs::layer_links::Kept::links_by, crate::specs::layer_links::Kept::point_in, crate::specs::layer_links::Kept::points_of, crate::specs::layer_links::Kept::point_at))]
    pub fn linked_place(&self, slot: SlotId, port: u16, index: usize) -> u32
        ensures { let linked = (links_of self.now).linked slot.0 port in
            index < length linked → result ≡ slice_index (places_of linked) index }
    {
        match self.slots.as_slice().get(usize::from(slot.0)) {
            Some(points) => points.linked_place(port, index),
            None => 0,
        }
    }

    /// The least place of the endpoint's port that is linked by name and at or above the endpoint's
    /// own; none exactly where there is none. It takes no memory.
    #[tactic(auto, unfolding(actor_duties::specs::Links::next_place, crate::specs::layer_links::Kept::links_by, crate::specs::layer_links::Kept::point_in, crate::specs::layer_links::Kept::points_of, crate::specs::layer_links::Kept::point_at))]
    pub fn next_place(&self, from: Endpoint) -> Option<u32>
        ensures { result ≡ next_place (links_of self.now) from }
    {
        match self.slots.as_slice().get(usize::from(from.slot.0)) {
            Some(points) => points.next_place(from.port, from.place),
            None => None,
        }
    }

    /// A request to the name table is made, and the registration waits for its answer.
    fn ask(
        &mut self,
        me: ControllerId,
        point: Endpoint,
        next: Registration,
        kind: SysKind,
        payload: Payload,
        out: &mut Outbox,
    ) -> Result<(), AllocError>
        ensures now { let waiting = registration_of next in
            let now = with_registration (links_of self.old) point.slot.0 point.port waiting in
            OnOk result (links_of self.new ≡ now) }
        ensures sent { let request = system me.0 0 kind point point payload in
            OnOk result (out.new ≡ out.old ++ request ∷ []) }
    {
        self.set_registration(point.slot, point.port, next)?;
        ask(me, kind, point, payload, out)?;
        Ok(())
    }

    /// `register`, by the registration so far.
    fn register_from(
        &mut self,
        me: ControllerId,
        actor: Incarnation,
        port: u16,
        name: u32,
        out: &mut Outbox,
    ) -> Result<(), AllocError>
        ensures now { let l = links_of self.old in
            let done = register_from me.0 l actor port name (l.registrations actor.slot.0 port) in
            OnOk result (links_of self.new ≡ done.now) }
        ensures sent { let l = links_of self.old in
            let done = register_from me.0 l actor port name (l.registrations actor.slot.0 port) in
            OnOk result (out.new ≡ out.old ++ done.sent) }
    {
        match self.registration(actor.slot, port) {
            Registration::Unnamed => {
                let payload = Payload::from_slice(self.alloc, &[i64::from(name)])?;
                let point = point_of(actor, port);
                self.ask(
                    me,
                    point,
                    Registration::Asked,
                    SysKind::Register,
                    payload,
                    out,
                )?;
                Ok(())
            }
            Registration::Asked | Registration::Leaving => {
                refuse(self.alloc, me, actor, port, Code::Busy, out)?;
                Ok(())
            }
            Registration::Registered => {
                refuse(self.alloc, me, actor, port, Code::NameTaken, out)?;
                Ok(())
            }
        }
    }

    /// `register`: refused with code 5 where a service access point is joined by the model, with 6
    /// where it waits for an answer of the name table and with 8 where it is registered; else the
    /// name table is asked.
    #[tactic(auto, unfolding(actor_duties::specs::Links::register_command))]
    fn register(
        &mut self,
        wiring: &Wiring,
        me: ControllerId,
        actor: Incarnation,
        port: u16,
        name: u32,
        out: &mut Outbox,
    ) -> Result<(), AllocError>
        ensures now { let l = links_of self.old in
            let done = register_command wiring.now me.0 l actor port name in
            OnOk result (links_of self.new ≡ done.now) }
        ensures sent { let l = links_of self.old in
            let done = register_command wiring.now me.0 l actor port name in
            OnOk result (out.new ≡ out.old ++ done.sent) }
    {
        if is_joined_sap(wiring, actor.slot, port) {
            refuse(self.alloc, me, actor, port, Code::PortTaken, out)?;
            return Ok(());
        }
        self.register_from(me, actor, port, name, out)?;
        Ok(())
    }

    /// `withdraw`: refused with code 9 where nothing is registered, with 6 where it waits for an
    /// answer of the name table; else the name table is asked.
    #[tactic(auto, unfolding(actor_duties::specs::Links::withdraw_command))]
    fn withdraw(
        &mut self,
        me: ControllerId,
        actor: Incarnation,
        port: u16,
        out: &mut Outbox,
    ) -> Result<(), AllocError>
        ensures now { let done = withdraw_command me.0 (links_of self.old) actor port in
            OnOk result (links_of self.new ≡ done.now) }
        ensures sent { let done = withdraw_command me.0 (links_of self.old) actor port in
            OnOk result (out.new ≡ out.old ++ done.sent) }
    {
        match self.registration(actor.slot, port) {
            Registration::Registered => {
                let point = point_of(actor, port);
                let payload = Payload::empty(self.alloc);
                self.ask(
                    me,
                    point,
                    Registration::Leaving,
                    SysKind::Withdraw,
                    payload,
                    out,
                )?;
                Ok(())
            }
            Registration::Asked | Registration::Leaving => {
                refuse(self.alloc, me, actor, port, Code::Busy, out)?;
                Ok(())
            }
            Registration::Unnamed => {
                refuse(self.alloc, me, actor, port, Code::NotRegistered, out)?;
                Ok(())
            }
        }
    }

    /// A command of an actor of this controller on names.
    pub fn request(
        &mut self,
        wiring: &Wiring,
        me: ControllerId,
        actor: Incarnation,
        command: &NameCommand,
        out: &mut Outbox,
    ) -> Result<(), AllocError>
        ensures now { let l = links_of self.old in
            let done = name_request wiring.now me.0 l actor command.now in
            OnOk result (links_of self.new ≡ done.now) }
        ensures sent { let l = links_of self.old in
            let done = name_request wiring.now me.0 l actor command.now in
            OnOk result (out.new ≡ out.old ++ done.sent) }
    {
        match *command {
            NameCommand::Register { port, name } => {
                self.register(wiring, me, actor, port, name, out)
            }
            NameCommand::Withdraw { port } => self.withdraw(me, actor, port, out),
        }
    }

    /// A registration becomes another one, and the actor is told.
    fn hear(
        &mut self,
        me: ControllerId,
        own: Endpoint,
        next: Registration,
        signal: FrameSignal,
        numbers: &[i64],
        out: &mut Outbox,
    ) -> Result<(), AllocError>
        requires { length numbers.now ≤ 64 }
        ensures now { let heard = registration_of next in
            let now = with_registration (links_of self.old) own.slot.0 own.port heard in
            OnOk result (links_of self.new ≡ now) }
        ensures sent { let told = name_told me.0 (signal_of signal) (whose own) numbers.now in
            OnOk result (out.new ≡ out.old ++ told ∷ []) }
    {
        self.set_registration(own.slot, own.port, next)?;
        let actor = Incarnation {
            slot: own.slot,
            generation: own.generation,
        };
        tell(self.alloc, me, signal, actor, numbers, out)?;
        Ok(())
    }

    /// The name table has answered who asked to be registered.
    fn hear_asked(
        &mut self,
        me: ControllerId,
        own: Endpoint,
        code: u64,
        out: &mut Outbox,
    ) -> Result<(), AllocError>
        ensures now { let done = asked_heard me.0 (links_of self.old) own code in
            OnOk result (links_of self.new ≡ done.now) }
        ensures sent { let done = asked_heard me.0 (links_of self.old) own code in
            OnOk result (out.new ≡ out.old ++ done.sent) }
    {
        let port = i64::from(own.port);
        if code == 0 {
            self.hear(
                me,
                own,
                Registration::Registered,
                FrameSignal::Registered,
                &[port],
                out,
            )?;
            return Ok(());
        }
        if code == u64::from(Code::NameTaken.number()) {
            self.hear(
                me,
                own,
                Registration::Unnamed,
                FrameSignal::NameRefused,
                &[port, i64::from(Code::NameTaken.number())],
                out,
            )?;
            return Ok(());
        }
        Ok(())
    }

    /// The name table has answered.
    #[tactic(auto, unfolding(actor_duties::specs::Links::name_reply))]
    fn hear_reply(
        &mut self,
        me: ControllerId,
        own: Endpoint,
        code: u64,
        out: &mut Outbox,
    ) -> Result<(), AllocError>
        ensures now { let done = name_reply me.0 (links_of self.old) own code in
            OnOk result (links_of self.new ≡ done.now) }
        ensures sent { let done = name_reply me.0 (links_of self.old) own code in
            OnOk result (out.new ≡ out.old ++ done.sent) }
    {
        match self.registration(own.slot, own.port) {
            Registration::Asked => {
                self.hear_asked(me, own, code, out)?;
                Ok(())
            }
            Registration::Leaving => {
                let port = i64::from(own.port);
                self.hear(
                    me,
                    own,
                    Registration::Unnamed,
                    FrameSignal::Withdrawn,
                    &[port],
                    out,
                )?;
                Ok(())
            }
            Registration::Unnamed | Registration::Registered => Ok(()),
        }
    }

    /// An actor ends: the name table is asked to withdraw each of its ports that is asked for or
    /// registered, in port order; its registrations and links go.
    #[tactic(auto, unfolding(actor_duties::specs::Links::end_of, crate::specs::layer_links::Kept::withdrawals, crate::specs::layer_links::Kept::links_by))]
    pub fn end_of(
        &mut self,
        wiring: &Wiring,
        me: ControllerId,
        actor: Incarnation,
        out: &mut Outbox,
    ) -> Result<(), AllocError>
        ensures now { let done = end_of wiring.now me.0 (links_of self.old) actor in
            OnOk result (links_of self.new ≡ done.now) }
        ensures sent { let done = end_of wiring.now me.0 (links_of self.old) actor in
            OnOk result (out.new ≡ out.old ++ done.sent) }
    {
        let ports = wiring.port_count(actor.slot);
        self.withdraw_each(me, actor, ports, out)?;
        self.clear(actor.slot);
        Ok(())
    }

    /// Asks the name table to withdraw each of the first ports of an actor that is asked for or
    /// registered.
    fn withdraw_each(
        &self,
        me: ControllerId,
        actor: Incarnation,
        ports: usize,
        out: &mut Outbox,
    ) -> Result<(), AllocError>
        ensures { let point = point_in self.now actor.slot.0 in
            let sent = withdrawals me.0 actor point (range_with_len 0 ports) in
            OnOk result (out.new ≡ out.old ++ sent) }
    {
        if usize::from(actor.slot.0) < self.slots.len() {
            let points = &self.slots[usize::from(actor.slot.0)];
            points.withdraw_each(self.alloc, me, actor, ports, out)?;
            return Ok(());
        }
        Ok(())
    }

    /// What controller `me` does at a message of this kind to a service point of its own: something
    /// at `Bound`, `Ended` and `NameReply`, where the message has the form of the kind and the
    /// target's actor lives (`live`); else nothing.
    #[tactic(auto, unfolding(actor_duties::specs::Links::links_duty))]
    pub fn duty(
        &mut self,
        wiring: &Wiring,
        me: ControllerId,
        kind: SysKind,
        m: &Msg,
        live: bool,
        out: &mut Outbox,
    ) -> Result<(), AllocError>
        ensures now { let done = links_duty wiring.now me.0 (links_of self.old) live kind m.now in
            OnOk result (links_of self.new ≡ done.now) }
        ensures sent { let done = links_duty wiring.now me.0 (links_of self.old) live kind m.now in
            OnOk result (out.new ≡ out.old ++ done.sent) }
    {
        if !live {
            return Ok(());
        }
        let Some(source) = m.source else {
            return Ok(());
        };
        self.duty_from(wiring, me, kind, source, m, out)?;
        Ok(())
    }

    /// The same at a message with a source.
    fn duty_from(
        &mut self,
        wiring: &Wiring,
        me: ControllerId,
        kind: SysKind,
        source: Endpoint,
        m: &Msg,
        out: &mut Outbox,
    ) -> Result<(), AllocError>
        ensures now { let l = links_of self.old in
            let done = links_duty_of wiring.now me.0 l kind source m.now.target m.now.payload in
            OnOk result (links_of self.new ≡ done.now) }
        ensures sent { let l = links_of self.old in
            let done = links_duty_of wiring.now me.0 l kind source m.now.target m.now.payload in
            OnOk result (out.new ≡ out.old ++ done.sent) }
    {
        let numbers = m.payload.numbers();
        match kind {
            SysKind::Bound => self.hear_bound(wiring, me, source, m.target, numbers),
            SysKind::Ended => self.hear_ended(wiring, me, source, m.target, numbers),
            SysKind::NameReply => self.hear_answer(wiring, me, source, m.target, numbers, out),
            _ => Ok(()),
        }
    }

    /// A link was made.
    #[tactic(auto, using(crate::proofs::layer_links::Duties::bound_of))]
    fn hear_bound(
        &mut self,
        wiring: &Wiring,
        me: ControllerId,
        peer: Endpoint,
        own: Endpoint,
        numbers: &[i64],
    ) -> Result<(), AllocError>
        ensures now { let l = links_of self.old in
            let done = links_duty_of wiring.now me.0 l kinds.Bound peer own numbers.now in
            OnOk result (links_of self.new ≡ done.now) }
        ensures silent { let l = links_of self.old in
            let done = links_duty_of wiring.now me.0 l kinds.Bound peer own numbers.now in
            done.sent ≡ [] }
    {
        if is_plain(wiring, me, own, numbers) {
            self.link(own, peer)?;
            return Ok(());
        }
        Ok(())
    }

    /// A link has ended.
    #[tactic(auto, using(crate::proofs::layer_links::Duties::ended_of))]
    fn hear_ended(
        &mut self,
        wiring: &Wiring,
        me: ControllerId,
        peer: Endpoint,
        own: Endpoint,
        numbers: &[i64],
    ) -> Result<(), AllocError>
        ensures now { let l = links_of self.old in
            let done = links_duty_of wiring.now me.0 l kinds.Ended peer own numbers.now in
            OnOk result (links_of self.new ≡ done.now) }
        ensures silent { let l = links_of self.old in
            let done = links_duty_of wiring.now me.0 l kinds.Ended peer own numbers.now in
            done.sent ≡ [] }
    {
        if is_plain(wiring, me, own, numbers) {
            self.unlink(own, peer)?;
            return Ok(());
        }
        Ok(())
    }

    /// The name table has answered with a number.
    fn hear_answer(
        &mut self,
        wiring: &Wiring,
        me: ControllerId,
        source: Endpoint,
        own: Endpoint,
        numbers: &[i64],
        out: &mut Outbox,
    ) -> Result<(), AllocError>
        ensures now { let l = links_of self.old in
            let done = links_duty_of wiring.now me.0 l kinds.NameReply source own numbers.now in
            OnOk result (links_of self.new ≡ done.now) }
        ensures sent { let l = links_of self.old in
            let done = links_duty_of wiring.now me.0 l kinds.NameReply source own numbers.now in
            OnOk result (out.new ≡ out.old ++ done.sent) }
    {
        if numbers.len() != 1 || !is_answered(wiring, me, source, own) {
            return Ok(());
        }
        let code = numbers[0];
        if code < 0 {
            return Ok(());
        }
        self.hear_reply(me, own, code.unsigned_abs(), out)?;
        Ok(())
    }
}

/// Whether a port is a service access point that is joined by the model.
fn is_joined_sap(wiring: &Wiring, slot: SlotId, port: u16) -> bool
    ensures { let partner = joined_at wiring.now slot.0 port 0 in
        result ≡ (is_sap wiring.now slot.0 port && is_joined partner) }
{
    is_sap(wiring, slot, port) && is_joined(joined_at(wiring, slot, port, 0))
}

fn is_joined(partner: Partner) -> bool
    ensures { result ≡ is_joined partner }
{
    !matches!(partner, Partner::Nobody)
}

/// Whether an endpoint's port is a service point of this controller.
fn is_own_point(wiring: &Wiring, me: ControllerId, own: Endpoint) -> bool
    ensures { result ≡ is_own_point wiring.now me.0 own }
{
    is_own(wiring, me, own.slot)
        && (is_sap(wiring, own.slot, own.port) || is_spp(wiring, own.slot, own.port))
}

/// Whether a message without numbers goes to a service point of this controller.
fn is_plain(wiring: &Wiring, me: ControllerId, own: Endpoint, numbers: &[i64]) -> bool
    ensures { result ≡ ((length numbers.now == 0) && is_own_point wiring.now me.0 own) }
{
    numbers.is_empty() && is_own_point(wiring, me, own)
}

/// Whether an answer is from and to place 0 of a service point of this controller.
fn is_answered(wiring: &Wiring, me: ControllerId, source: Endpoint, own: Endpoint) -> bool
    ensures { let is_own = is_own_point wiring.now me.0 own in
        result ≡ (is_own && is_endpoint source own && (own.place == 0)) }
{
    is_own_point(wiring, me, own) && is_same_endpoint(source, own) && own.place == 0
}
