//! Duties: what a turn makes of a message of priority 0.
ghost use Rattle.std.specs.Prelude.{◌≡◌, ◌&&◌, [], All, IfOk, OnOk};
ghost use Rattle.room_kinds.specs.Kinds.{number_of};
ghost use Rattle.actor_duties.specs.Words.{is_own};
ghost use Rattle.actor_duties.specs.Lives.{is_live};
ghost use Rattle.actor_world.specs.Turns.{treat};
ghost use Rattle.controller_mail.specs.MailState.{IsForActors, with_body};
ghost use Rattle.controller_actors.specs.Plants.{model_of};
ghost use Rattle.controller_actors.specs.Bodies.{AreEmpty, HasSlots, IsWell, body_of, done_of, lives_of};
ghost use Rattle.controller_actors.specs.Steps.{Closes, IsLast, IsOwn};
ghost use Rattle.controller_actors.specs.Duties.{Finishes, HasDuty, service_of};

use crate::actor_commands::{Output, Recalled};
use crate::actors::Actors;
use crate::plant::Plant;
use controller_mail::TurnResult;
use frame_lives::DutyDone;
use journal::Did;
use room_kinds::{ControllerId, Incarnation, Msg, Notes, Outbox, Sequence, SysKind};
use service_messages::whose;
use std::alloc::{AllocError, Global};

/// A service of a controller, which does duties.
#[derive(Clone, Copy)]
pub(crate) enum Service {
    Frame,
    NameTable,
    Links,
}

/// Whose duty a system message of this kind is.
fn service_of(kind: SysKind) -> Service
    ensures { result ≡ service_of kind }
{
    match kind {
        SysKind::Register | SysKind::Withdraw => Service::NameTable,
        SysKind::Bound | SysKind::Ended | SysKind::NameReply => Service::Links,
        SysKind::Create
        | SysKind::CreateDone
        | SysKind::CreateRefused
        | SysKind::Destroy
        | SysKind::DestroyDone
        | SysKind::Import
        | SysKind::ImportDone
        | SysKind::ImportRefused
        | SysKind::ImportEnded
        | SysKind::Deport
        | SysKind::DeportDone
        | SysKind::Announce
        | SysKind::PartMake
        | SysKind::PartEnd => Service::Frame,
    }
}

/// A duty by which messages are sent, and nothing else comes of it.
fn only_sends(alloc: Global, sent: Outbox) -> TurnResult
    ensures { result ≡ record { sent = sent; back = []; did = Did.Duty; notes = [] } }
{
    TurnResult {
        sent,
        back: Sequence::new(alloc),
        did: Did::Duty,
        notes: Notes::new(alloc),
    }
}

/// A message that is passed over.
fn passed_over(alloc: Global) -> TurnResult
    ensures { result ≡ record { sent = []; back = []; did = Did.Duty; notes = [] } }
{
    only_sends(alloc, Outbox::new(alloc))
}

/// A duty that has sent these messages so far, with room for so many notes.
fn only_sent(alloc: Global, sent: Outbox, count: usize) -> Result<Output, AllocError>
    ensures { IfOk result (λ o. o ≡ record { messages = sent; notes = []; back = [] }) }
{
    let notes = Vec::with_capacity(alloc, count)?;
    Ok(Output {
        messages: sent,
        notes: Sequence::from(notes),
        back: Recalled::new(alloc),
    })
}

/// The message that closes a request, if there is one.
fn close(output: &mut Output, last: Option<Msg>) -> Result<(), AllocError>
    ensures { OnOk result (Closes output.old output.new last) }
{
    if let Some(m) = last {
        output.messages.push(m)?;
    }
    Ok(())
}

impl Actors {
    /// What is left to do after a duty of the frame service that sent these messages: those that were
    /// made come up, in slot order; those that ended go down, in descending slot order; and the message
    /// that closes the request is sent.
    fn finish(
        &mut self,
        plant: &Plant,
        me: ControllerId,
        left: DutyDone,
        sent: Outbox,
    ) -> Result<TurnResult, AllocError>
        requires has_slots { HasSlots plant.now me.0 self.old }
        requires empty { AreEmpty plant.now me.0 left.ended self.old }
        requires made { All (IsLast plant.now.wiring me.0 (lives_of self.old)) left.made }
        requires ended { All (IsOwn plant.now.wiring me.0) left.ended }
        ensures { IfOk result (λ done. Finishes plant.now me.0 left sent self.old self.new done) }
    {
        let alloc = self.alloc;
        let DutyDone { made, ended, last } = left;
        // Each that comes up or goes down has a note. No duty both makes and ends actors.
        let count = made.len().max(ended.len());
        let mut output = only_sent(alloc, sent, count)?;
        self.all_come_up(plant, me, made.as_slice(), &mut output)?;
        self.all_go_down(plant, me, ended.as_slice(), &mut output)?;
        close(&mut output, last)?;
        Ok(output.into_turn_result(Did::Duty))
    }

    /// A duty of the frame service, at a message of this kind.
    fn frame_duty(
        &mut self,
        plant: &Plant,
        me: ControllerId,
        kind: SysKind,
        m: &Msg,
    ) -> Result<TurnResult, AllocError>
        requires well { IsWell plant.now me.0 self.old }
        requires kind { number_of kind ≡ m.now.signal }
        requires frame { service_of kind ≡ Service.Frame }
        ensures { IfOk result (λ done. HasDuty plant.now me.0 m.now kind self.old self.new done) }
    {
        let _kind = kind;
        let mut sent = Outbox::new(self.alloc);
        let left = self.services.frame.duty(&plant.wiring, m, &mut sent)?;
        let done = self.finish(plant, me, left, sent)?;
        Ok(done)
    }

    /// A duty of the name table, at a message of this kind.
    fn table_duty(
        &mut self,
        plant: &Plant,
        me: ControllerId,
        kind: SysKind,
        m: &Msg,
    ) -> Result<TurnResult, AllocError>
        requires well { IsWell plant.now me.0 self.old }
        requires table { service_of kind ≡ Service.NameTable }
        ensures { IfOk result (λ done. HasDuty plant.now me.0 m.now kind self.old self.new done) }
    {
        let mut sent = Outbox::new(self.alloc);
        self.table.duty(&plant.wiring, me, kind, m, &mut sent)?;
        Ok(only_sends(self.alloc, sent))
    }

    /// Whether an actor of this controller lives.
    fn is_live(&self, plant: &Plant, me: ControllerId, who: Incarnation) -> bool
        ensures { result
            ≡ (is_own plant.now.wiring me.0 who.slot.0 && is_live (lives_of self.now) who) }
    {
        match self.occupant(plant, me, who.slot) {
            Some(occupant) => occupant.generation == who.generation,
            None => false,
        }
    }

    /// A duty on the own side of a name, at a message of this kind.
    fn links_duty(
        &mut self,
        plant: &Plant,
        me: ControllerId,
        kind: SysKind,
        m: &Msg,
    ) -> Result<TurnResult, AllocError>
        requires well { IsWell plant.now me.0 self.old }
        requires links { service_of kind ≡ Service.Links }
        ensures { IfOk result (λ done. HasDuty plant.now me.0 m.now kind self.old self.new done) }
    {
        let live = self.is_live(plant, me, whose(m.target));
        let mut sent = Outbox::new(self.alloc);
        let links = &mut self.services.links;
        links.duty(&plant.wiring, me, kind, m, live, &mut sent)?;
        Ok(only_sends(self.alloc, sent))
    }

    /// A message of priority 0. A number that is no kind's is passed over.
    pub(crate) fn duty(
        &mut self,
        plant: &Plant,
        me: ControllerId,
        m: &Msg,
    ) -> Result<TurnResult, AllocError>
        requires well { IsWell plant.now me.0 self.old }
        requires prio { m.now.prio.0 ≡ 0 }
        ensures treated { IfOk result (λ done.
            treat (model_of plant.now) plant.now.wiring me.0 (body_of plant.now me.0 self.old) m.now
            ≡ with_body (done_of done) (body_of plant.now me.0 self.new)) }
        ensures well { OnOk result (IsWell plant.now me.0 self.new) }
        ensures back { IfOk result (λ done. All IsForActors done.back) }
    {
        let Some(kind) = SysKind::from_number(m.signal) else {
            return Ok(passed_over(self.alloc));
        };
        match service_of(kind) {
            Service::Frame => {
                let done = self.frame_duty(plant, me, kind, m)?;
                Ok(done)
            }
            Service::NameTable => {
                let done = self.table_duty(plant, me, kind, m)?;
                Ok(done)
            }
            Service::Links => {
                let done = self.links_duty(plant, me, kind, m)?;
                Ok(done)
            }
        }
    }
}
