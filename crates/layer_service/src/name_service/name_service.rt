//! The table of services.
ghost use Rattle.std.specs.Prelude.{◌≡◌, ◌++◌, ◌∷◌, [], length, IfOk, OnOk, position};
ghost use Rattle.actor_duties.specs.Names.{register_spp, register_sap, register, withdraw, stands_in, unmet, table_duty_of, table_duty};
ghost use Rattle.layer_service.specs.name_service.Services.{is_called};
ghost use Rattle.layer_service.specs.name_service.Asking.{request_done};
ghost use Rattle.layer_service.specs.name_service.Steps.{StandsAt};

use crate::name_service::linking::reply;
use crate::name_service::requests::{is_name_request, name_in, protocol_of};
use crate::name_service::service::Service;
use room_kinds::{ControllerId, Endpoint, Msg, Outbox, SysKind};
use room_wiring::Wiring;
use service_messages::{Code, is_spp};
use std::alloc::{AllocError, Global};
use std::marker::Model;

/// The name table of controller 0. Contracts see it as its list of services, in the order in which
/// they were first named.
///
/// After want of memory the table and the outbox are unspecified: the controller has failed.
#[derive(Drop)]
pub struct NameService {
    alloc: Global,
    services: Vec<Service>,
}

impl Model for NameService {
    ghost use Rattle.actor_duties.specs.State.{NameTable};

    ghost Value = { NameTable };

    ghost view = { λ n. n.services.items };
}

impl NameService {
    /// A table without services. It takes no memory.
    pub fn new(alloc: Global) -> NameService
        ensures { result ≡ [] }
    {
        NameService {
            alloc,
            services: Vec::new(alloc),
        }
    }

    fn place_of(&self, name: u64, protocol: u16) -> Option<usize>
        ensures { result ≡ position (is_called name protocol) self.now }
    {
        place_called(self.services.as_slice(), name, protocol)
    }

    /// Makes a service at the end, and gives its place.
    fn add(&mut self, name: u64, protocol: u16) -> Result<usize, AllocError>
        ensures place { IfOk result (λ i. i ≡ length self.old) }
        ensures now { OnOk result (self.new ≡ self.old ++ unmet name protocol ∷ []) }
    {
        let place = self.services.len();
        self.services
            .push(Service::new(self.alloc, name, protocol))?;
        Ok(place)
    }

    /// The place of the service of this name and protocol, which is made at the end if it isn't
    /// there.
    fn place_for(&mut self, name: u64, protocol: u16) -> Result<usize, AllocError>
        ensures { IfOk result (λ i. StandsAt name protocol self.old self.new i) }
    {
        if let Some(place) = self.place_of(name, protocol) {
            return Ok(place);
        }
        let place = self.add(name, protocol)?;
        Ok(place)
    }

    /// What controller `me` does at a message of this kind to its name table: something at
    /// `Register` and `Withdraw`, where the controller has the number 0 and the message has the form
    /// of the kind; else nothing. Where the numbers of a provider's places are used up, after
    /// 4,294,967,295, want of memory is answered.
    #[tactic(auto, unfolding(actor_duties::specs::Names::table_duty))]
    pub fn duty(
        &mut self,
        wiring: &Wiring,
        me: ControllerId,
        kind: SysKind,
        m: &Msg,
        out: &mut Outbox,
    ) -> Result<(), AllocError>
        ensures now { let done = table_duty wiring.now me.0 self.old kind m.now in
            OnOk result (self.new ≡ done.now) }
        ensures sent { let done = table_duty wiring.now me.0 self.old kind m.now in
            OnOk result (out.new ≡ out.old ++ done.sent) }
    {
        let Some(source) = m.source else {
            return Ok(());
        };
        self.duty_from(wiring, me, kind, source, m, out)?;
        Ok(())
    }

    /// The same at a message with a source.
    #[tactic(auto, using(crate::proofs::name_service::ByKind::duty_requested))]
    fn duty_from(
        &mut self,
        wiring: &Wiring,
        me: ControllerId,
        kind: SysKind,
        source: Endpoint,
        m: &Msg,
        out: &mut Outbox,
    ) -> Result<(), AllocError>
        ensures now { let now = m.now in
            let done = table_duty_of wiring.now me.0 self.old kind source now.target now.payload in
            OnOk result (self.new ≡ done.now) }
        ensures sent { let now = m.now in
            let done = table_duty_of wiring.now me.0 self.old kind source now.target now.payload in
            OnOk result (out.new ≡ out.old ++ done.sent) }
    {
        if !is_name_request(wiring, me, source, m.target) {
            return Ok(());
        }
        self.request(wiring, kind, source, m.payload.numbers(), out)?;
        Ok(())
    }

    /// A service point asks to be registered or withdrawn.
    fn request(
        &mut self,
        wiring: &Wiring,
        kind: SysKind,
        point: Endpoint,
        numbers: &[i64],
        out: &mut Outbox,
    ) -> Result<(), AllocError>
        ensures now { let done = request_done wiring.now self.old kind point numbers.now in
            OnOk result (self.new ≡ done.now) }
        ensures sent { let done = request_done wiring.now self.old kind point numbers.now in
            OnOk result (out.new ≡ out.old ++ done.sent) }
    {
        match kind {
            SysKind::Register => match name_in(numbers) {
                Some(name) => self.register(wiring, point, name, out),
                None => Ok(()),
            },
            SysKind::Withdraw => {
                if numbers.is_empty() {
                    return self.withdraw(wiring, point, out);
                }
                Ok(())
            }
            _ => Ok(()),
        }
    }

    /// A service point registers under a name, as provider or as user by the kind of its port.
    #[tactic(auto, using(crate::proofs::name_service::Points::spp_slot, crate::proofs::name_service::Points::spp_port), unfolding(actor_duties::specs::Names::register))]
    fn register(
        &mut self,
        wiring: &Wiring,
        point: Endpoint,
        name: u64,
        out: &mut Outbox,
    ) -> Result<(), AllocError>
        ensures now { let done = register wiring.now point name self.old in
            OnOk result (self.new ≡ done.now) }
        ensures sent { let done = register wiring.now point name self.old in
            OnOk result (out.new ≡ out.old ++ done.sent) }
    {
        let protocol = protocol_of(wiring, point);
        if is_spp(wiring, point.slot, point.port) {
            let base = wiring.places(point.slot, point.port);
            self.provide(wiring, name, protocol, base, point, out)
        } else {
            self.add_user(wiring, name, protocol, point, out)
        }
    }

    /// A service provision point registers under a name. `base` is the number of its static places.
    /// Where the service has a provider it is refused with code 8, and nothing else is done; else it
    /// is answered with 0, and the users that wait are linked to it, in their order. Where the
    /// numbers of its places are used up, want of memory is answered.
    pub fn register_spp(
        &mut self,
        wiring: &Wiring,
        name: u32,
        protocol: u16,
        base: u32,
        endpoint: Endpoint,
        out: &mut Outbox,
    ) -> Result<(), AllocError>
        ensures now { let done = register_spp wiring.now name protocol base endpoint self.old in
            OnOk result (self.new ≡ done.now) }
        ensures sent { let done = register_spp wiring.now name protocol base endpoint self.old in
            OnOk result (out.new ≡ out.old ++ done.sent) }
    {
        self.provide(wiring, u64::from(name), protocol, base, endpoint, out)
    }

    /// A provider registers under the name of a message, whose number may have more than 32 bits.
    #[tactic(auto, unfolding(actor_duties::specs::Names::register_spp))]
    fn provide(
        &mut self,
        wiring: &Wiring,
        name: u64,
        protocol: u16,
        base: u32,
        endpoint: Endpoint,
        out: &mut Outbox,
    ) -> Result<(), AllocError>
        ensures now { let done = register_spp wiring.now name protocol base endpoint self.old in
            OnOk result (self.new ≡ done.now) }
        ensures sent { let done = register_spp wiring.now name protocol base endpoint self.old in
            OnOk result (out.new ≡ out.old ++ done.sent) }
    {
        let place = self.place_for(name, protocol)?;
        self.services[place].provide(self.alloc, wiring, base, endpoint, out)
    }

    /// A service access point registers under a name: it is answered with 0, and is linked where the
    /// service has a provider. Where the numbers of the provider's places are used up, want of memory
    /// is answered.
    pub fn register_sap(
        &mut self,
        wiring: &Wiring,
        name: u32,
        protocol: u16,
        endpoint: Endpoint,
        out: &mut Outbox,
    ) -> Result<(), AllocError>
        ensures now { let done = register_sap wiring.now name protocol endpoint self.old in
            OnOk result (self.new ≡ done.now) }
        ensures sent { let done = register_sap wiring.now name protocol endpoint self.old in
            OnOk result (out.new ≡ out.old ++ done.sent) }
    {
        self.add_user(wiring, u64::from(name), protocol, endpoint, out)
    }

    /// A user registers under the name of a message, whose number may have more than 32 bits.
    #[tactic(auto, unfolding(actor_duties::specs::Names::register_sap))]
    fn add_user(
        &mut self,
        wiring: &Wiring,
        name: u64,
        protocol: u16,
        endpoint: Endpoint,
        out: &mut Outbox,
    ) -> Result<(), AllocError>
        ensures now { let done = register_sap wiring.now name protocol endpoint self.old in
            OnOk result (self.new ≡ done.now) }
        ensures sent { let done = register_sap wiring.now name protocol endpoint self.old in
            OnOk result (out.new ≡ out.old ++ done.sent) }
    {
        let place = self.place_for(name, protocol)?;
        self.services[place].add_user(self.alloc, wiring, endpoint, out)
    }

    /// An endpoint is withdrawn: its links end, and then it is answered with 0; with code 9 where it
    /// doesn't stand in the table.
    pub fn withdraw(
        &mut self,
        wiring: &Wiring,
        endpoint: Endpoint,
        out: &mut Outbox,
    ) -> Result<(), AllocError>
        ensures now { let done = withdraw wiring.now endpoint self.old in
            OnOk result (self.new ≡ done.now) }
        ensures sent { let done = withdraw wiring.now endpoint self.old in
            OnOk result (out.new ≡ out.old ++ done.sent) }
    {
        let Some(place) = place_with(self.services.as_slice(), endpoint) else {
            reply(
                self.alloc,
                wiring,
                endpoint,
                Code::NotRegistered.number(),
                out,
            )?;
            return Ok(());
        };
        self.services[place].leave(self.alloc, wiring, endpoint, out)?;
        reply(self.alloc, wiring, endpoint, 0, out)?;
        Ok(())
    }
}

fn place_called(services: &[Service], name: u64, protocol: u16) -> Option<usize>
    ensures { result ≡ position (is_called name protocol) services.now }
{
    services
        .iter()
        .position(|service| service.is_called(name, protocol))
}

fn place_with(services: &[Service], endpoint: Endpoint) -> Option<usize>
    ensures { result ≡ position (stands_in endpoint) services.now }
{
    services.iter().position(|service| service.has(endpoint))
}
