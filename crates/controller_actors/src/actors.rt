//! The actors of a controller.
ghost use Rattle.std.specs.Prelude.{◌≡◌, ◌<◌, ◌&&◌, [], false, true, length, All, IfOk, OnOk, MatchOption};
ghost use Rattle.actor_duties.specs.Words.{is_own, whose};
ghost use Rattle.actor_world.specs.Start.{first_state, start_entries};
ghost use Rattle.actor_world.specs.Turns.{dispatch, treat};
ghost use Rattle.controller_mail.specs.MailState.{HasPriority, IsForActors, with_body};
ghost use Rattle.controller_actors.specs.Plants.{model_of};
ghost use Rattle.controller_actors.specs.Bodies.{HasSlots, IsWell, body_of, done_of, lives_of};
ghost use Rattle.controller_actors.specs.Steps.{ActorsBegin, Dispatches, IsLast};

use crate::actor_commands::{Output, Speaker};
use crate::actor_slots::ActorSlot;
use crate::plant::Plant;
use crate::services::ActorServices;
use crate::start::start;
use controller_mail::{TurnResult, is_meant};
use journal::{Did, Journal};
use layer_service::NameService;
use room_kinds::{ControllerId, Incarnation, Msg, Notes, Outbox, Sequence, SlotId};
use service_messages::{is_own, whose};
use std::alloc::{AllocError, Global};

/// What a controller keeps besides its mail: its services, the name table, which is used on controller 0
/// alone, and for each slot that it owns, in their order, what stands there and what that keeps for later.
#[derive(Drop)]
pub struct Actors {
    pub(crate) alloc: Global,
    pub(crate) services: ActorServices,
    pub(crate) table: NameService,
    pub(crate) slots: Vec<ActorSlot>,
}

/// The actors of a controller that has started, what they sent, and the entries of their starts.
#[derive(Drop)]
pub struct Begun {
    pub actors: Actors,
    pub sent: Outbox,
    pub entries: Journal,
}

/// A message that is discarded.
fn discarded(alloc: Global, did: Did) -> TurnResult
    ensures { result ≡ record { sent = []; back = []; did = did; notes = [] } }
{
    TurnResult {
        sent: Outbox::new(alloc),
        back: Sequence::new(alloc),
        did,
        notes: Notes::new(alloc),
    }
}

/// A message to an actor that isn't there.
fn nobody_there(alloc: Global, target: Incarnation) -> TurnResult
    ensures { result ≡ record { sent = []; back = []; did = Did.Empty target; notes = [] } }
{
    discarded(alloc, Did::Empty { target })
}

impl Actors {
    /// All actors of controller `me` that live from the start take their initial transitions, in slot
    /// order, and their commands are applied.
    pub fn start(alloc: Global, plant: &Plant, me: ControllerId) -> Result<Begun, AllocError>
        requires me { me.0 < length plant.now.wiring.controllers }
        ensures state { IfOk result (λ b.
            first_state (model_of plant.now) plant.now.wiring me.0
            ≡ record {
              clock = 0;
              turns = 0;
              pending = λ p. [];
              outbox = b.sent;
              body = body_of plant.now me.0 b.actors;
            }) }
        ensures entries { IfOk result (λ b.
            b.entries ≡ start_entries (model_of plant.now) plant.now.wiring me.0) }
        ensures well { IfOk result (λ b. IsWell plant.now me.0 b.actors) }
    {
        start(alloc, plant, me)
    }

    /// The actor of a slot begins, and its commands are applied, on top of what was sent and came back
    /// before; the notes are those of this start alone. It answers the number of the actor's state.
    pub(crate) fn begin(
        &mut self,
        plant: &Plant,
        me: ControllerId,
        who: Incarnation,
        output: &mut Output,
    ) -> Result<u16, AllocError>
        requires has_slots { HasSlots plant.now me.0 self.old }
        requires last { IsLast plant.now.wiring me.0 (lives_of self.old) who }
        ensures { IfOk result (λ state.
            ActorsBegin plant.now me.0 who.slot.0 self.old self.new output.old output.new state) }
    {
        let alloc = self.alloc;
        let speaker = Speaker {
            wiring: &plant.wiring,
            me,
            who,
        };
        let tables = plant.tables_of(who.slot);
        let actor_slot = &mut self.slots[plant.row_of(who.slot)];
        let state = actor_slot.begin(alloc, &speaker, &mut self.services, tables, output)?;
        Ok(state)
    }

    /// The actor that lives in the slot of a message handles it.
    fn handle(
        &mut self,
        plant: &Plant,
        me: ControllerId,
        who: Incarnation,
        m: Msg,
    ) -> Result<TurnResult, AllocError>
        requires well { IsWell plant.now me.0 self.old }
        requires last { IsLast plant.now.wiring me.0 (lives_of self.old) who }
        requires target { who.slot ≡ m.target.slot }
        requires prio { IsForActors m }
        ensures { IfOk result (λ done. Dispatches plant.now me.0 m self.old self.new done) }
    {
        let alloc = self.alloc;
        let target = whose(m.target);
        let speaker = Speaker {
            wiring: &plant.wiring,
            me,
            who,
        };
        let tables = plant.tables_of(who.slot);
        let actor_slot = &mut self.slots[plant.row_of(who.slot)];
        match actor_slot.handle(alloc, &speaker, &mut self.services, tables, m) {
            Ok(Some(done)) => Ok(done),
            Ok(None) => Ok(nobody_there(alloc, target)),
            Err(refused) => Err(refused),
        }
    }

    /// The actor that lives in a slot of the wiring, if it is the controller's own.
    pub(crate) fn occupant(
        &self,
        plant: &Plant,
        me: ControllerId,
        slot: SlotId,
    ) -> Option<Incarnation>
        ensures { MatchOption result
            ((is_own plant.now.wiring me.0 slot.0 && (lives_of self.now).lives slot.0) ≡ false)
            (λ x.
            (x.slot ≡ slot)
            × IsLast plant.now.wiring me.0 (lives_of self.now) x
            × (is_own plant.now.wiring me.0 slot.0 ≡ true)) }
    {
        if !is_own(&plant.wiring, me, slot) {
            return None;
        }
        match self.services.frame.live(slot) {
            Some(generation) => Some(Incarnation { slot, generation }),
            None => None,
        }
    }

    /// What a turn makes of a message of priority 1 to 5.
    fn dispatch(
        &mut self,
        plant: &Plant,
        me: ControllerId,
        m: Msg,
    ) -> Result<TurnResult, AllocError>
        requires well { IsWell plant.now me.0 self.old }
        requires prio { IsForActors m }
        ensures treated { IfOk result (λ done.
            dispatch (model_of plant.now) plant.now.wiring me.0 (body_of plant.now me.0 self.old) m
            ≡ with_body (done_of done) (body_of plant.now me.0 self.new)) }
        ensures well { OnOk result (IsWell plant.now me.0 self.new) }
        ensures back { IfOk result (λ done. All IsForActors done.back) }
    {
        let Some(who) = self.occupant(plant, me, m.target.slot) else {
            return Ok(nobody_there(self.alloc, whose(m.target)));
        };
        if !is_meant(&m, who) {
            let target = whose(m.target);
            return Ok(discarded(self.alloc, Did::Stale { target }));
        }
        self.handle(plant, me, who, m)
    }

    /// What a turn of controller `me` makes of a message. After want of memory the actors are unspecified:
    /// the controller has failed.
    pub fn treat(
        &mut self,
        plant: &Plant,
        me: ControllerId,
        m: Msg,
    ) -> Result<TurnResult, AllocError>
        requires well { IsWell plant.now me.0 self.old }
        requires prio { HasPriority m }
        ensures treated { IfOk result (λ done.
            treat (model_of plant.now) plant.now.wiring me.0 (body_of plant.now me.0 self.old) m
            ≡ with_body (done_of done) (body_of plant.now me.0 self.new)) }
        ensures well { OnOk result (IsWell plant.now me.0 self.new) }
        ensures back { IfOk result (λ done. All IsForActors done.back) }
    {
        if m.prio.0 == 0 {
            return self.duty(plant, me, &m);
        }
        self.dispatch(plant, me, m)
    }
}
