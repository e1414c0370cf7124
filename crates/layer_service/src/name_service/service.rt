//! One service.
ghost use Rattle.std.specs.Prelude.{◌≡◌, ◌++◌, OnOk};
ghost use Rattle.actor_duties.specs.Names.{unmet, meet, provide, use_service, unprovide, unuse, leave, is_provider, stands_in};
ghost use Rattle.layer_service.specs.name_service.Services.{is_called};

use crate::name_service::entries::{Provider, User, is_among, remove_user};
use crate::name_service::linking::{end_links, end_links_of, link_users, reply, wait_again};
use room_kinds::{Endpoint, Outbox};
use room_wiring::Wiring;
use service_messages::{Code, is_same_endpoint};
use std::alloc::{AllocError, Global};
use std::marker::Model;

/// The service of one name and protocol: at most one provider, and the users in order of
/// registration.
#[derive(Drop)]
pub struct Service {
    name: u64,
    protocol: u16,
    provider: Option<Provider>,
    users: Vec<User>,
}

impl Model for Service {
    ghost use Rattle.actor_duties.specs.State as rows;

    ghost Value = { rows.Service };

    ghost view = { λ s. record {
      name = s.name;
      protocol = s.protocol;
      provider = s.provider;
      users = s.users.items;
    } };
}

impl Service {
    /// A service without anybody. It takes no memory.
    pub fn new(alloc: Global, name: u64, protocol: u16) -> Service
        ensures { result ≡ unmet name protocol }
    {
        Service {
            name,
            protocol,
            provider: None,
            users: Vec::new(alloc),
        }
    }

    pub fn is_called(&self, name: u64, protocol: u16) -> bool
        ensures { result ≡ is_called name protocol self.now }
    {
        self.name == name && self.protocol == protocol
    }

    fn is_provider(&self, endpoint: Endpoint) -> bool
        ensures { result ≡ is_provider endpoint self.now }
    {
        match self.provider {
            Some(provider) => is_same_endpoint(provider.at(), endpoint),
            None => false,
        }
    }

    /// Whether an endpoint is the provider or one of the users.
    pub fn has(&self, endpoint: Endpoint) -> bool
        ensures { result ≡ stands_in endpoint self.now }
    {
        self.is_provider(endpoint) || is_among(self.users.as_slice(), endpoint)
    }

    /// Where there is a provider, the users that wait are linked to it.
    #[tactic(auto, unfolding(actor_duties::specs::Names::meet))]
    fn meet(&mut self, alloc: Global, wiring: &Wiring, out: &mut Outbox) -> Result<(), AllocError>
        ensures now { let done = meet wiring.now self.old in
            OnOk result (self.new ≡ done.now) }
        ensures sent { let done = meet wiring.now self.old in
            OnOk result (out.new ≡ out.old ++ done.sent) }
    {
        let Some(provider) = self.provider else {
            return Ok(());
        };
        let at = provider.at();
        let next = link_users(
            alloc,
            wiring,
            at,
            provider.next(),
            self.users.as_mut_slice(),
            out,
        )?;
        self.provider = Some(Provider::new(at, next));
        Ok(())
    }

    /// A provider with `base` static places registers: where one stands it is refused, else its
    /// links take the places from `base` on.
    #[tactic(auto, unfolding(actor_duties::specs::Names::provide))]
    pub fn provide(
        &mut self,
        alloc: Global,
        wiring: &Wiring,
        base: u32,
        endpoint: Endpoint,
        out: &mut Outbox,
    ) -> Result<(), AllocError>
        ensures now { let done = provide wiring.now base endpoint self.old in
            OnOk result (self.new ≡ done.now) }
        ensures sent { let done = provide wiring.now base endpoint self.old in
            OnOk result (out.new ≡ out.old ++ done.sent) }
    {
        if self.provider.is_some() {
            return reply(alloc, wiring, endpoint, Code::NameTaken.number(), out);
        }
        self.provider = Some(Provider::new(endpoint, base));
        reply(alloc, wiring, endpoint, 0, out)?;
        self.meet(alloc, wiring, out)
    }

    /// A user registers: it enters at the end, and is linked where there is a provider.
    #[tactic(auto, unfolding(actor_duties::specs::Names::use_service))]
    pub fn add_user(
        &mut self,
        alloc: Global,
        wiring: &Wiring,
        endpoint: Endpoint,
        out: &mut Outbox,
    ) -> Result<(), AllocError>
        ensures now { let done = use_service wiring.now endpoint self.old in
            OnOk result (self.new ≡ done.now) }
        ensures sent { let done = use_service wiring.now endpoint self.old in
            OnOk result (out.new ≡ out.old ++ done.sent) }
    {
        self.users.push(User::new(endpoint, None))?;
        reply(alloc, wiring, endpoint, 0, out)?;
        self.meet(alloc, wiring, out)
    }

    /// The provider is taken back: its links end in the order of the users, who wait again.
    fn unprovide(
        &mut self,
        alloc: Global,
        wiring: &Wiring,
        endpoint: Endpoint,
        out: &mut Outbox,
    ) -> Result<(), AllocError>
        ensures now { let done = unprovide wiring.now endpoint self.old in
            OnOk result (self.new ≡ done.now) }
        ensures sent { let done = unprovide wiring.now endpoint self.old in
            OnOk result (out.new ≡ out.old ++ done.sent) }
    {
        end_links(alloc, wiring, endpoint, self.users.as_slice(), out)?;
        wait_again(self.users.as_mut_slice());
        self.provider = None;
        Ok(())
    }

    /// A user is taken back: its link ends, if it has one.
    fn remove_user(
        &mut self,
        alloc: Global,
        wiring: &Wiring,
        endpoint: Endpoint,
        out: &mut Outbox,
    ) -> Result<(), AllocError>
        ensures now { let done = unuse wiring.now endpoint self.old in
            OnOk result (self.new ≡ done.now) }
        ensures sent { let done = unuse wiring.now endpoint self.old in
            OnOk result (out.new ≡ out.old ++ done.sent) }
    {
        if let Some(provider) = self.provider {
            end_links_of(
                alloc,
                wiring,
                provider.at(),
                endpoint,
                self.users.as_slice(),
                out,
            )?;
        }
        remove_user(&mut self.users, endpoint);
        Ok(())
    }

    /// An endpoint leaves the service.
    pub fn leave(
        &mut self,
        alloc: Global,
        wiring: &Wiring,
        endpoint: Endpoint,
        out: &mut Outbox,
    ) -> Result<(), AllocError>
        ensures now { let done = leave wiring.now endpoint self.old in
            OnOk result (self.new ≡ done.now) }
        ensures sent { let done = leave wiring.now endpoint self.old in
            OnOk result (out.new ≡ out.old ++ done.sent) }
    {
        if self.is_provider(endpoint) {
            self.unprovide(alloc, wiring, endpoint, out)
        } else {
            self.remove_user(alloc, wiring, endpoint, out)
        }
    }
}
