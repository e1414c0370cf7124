//! The start of a controller's actors.
ghost use Rattle.std.specs.Prelude.{◌≡◌, ◌<◌, ◌++◌, [], length, replicate, IfOk, OnOk};
ghost use Rattle.actor_world.specs.Start.{first_state, start_entries};
ghost use Rattle.controller_actors.specs.Plants.{model_of};
ghost use Rattle.controller_actors.specs.Bodies.{HasSlots, IsWell, body_of, vacant, lives_of};
ghost use Rattle.controller_actors.specs.Steps.{IsLast, Starts, StartsIn, first_below, first_in};

use crate::actor_commands::Output;
use crate::actor_slots::ActorSlot;
use crate::actors::{Actors, Begun};
use crate::plant::Plant;
use crate::services::ActorServices;
use crate::slot_rows::own_count;
use frame_service::FrameState;
use journal::{Entry, Journal};
use layer_service::{Links, NameService};
use room_kinds::{ControllerId, Incarnation, Notes, SlotId};
use std::alloc::{AllocError, Global};
use std::mem;

/// A controller whose actors start: what they put out, and their entries so far.
#[derive(Drop)]
pub(crate) struct Starting {
    actors: Actors,
    output: Output,
    entries: Journal,
}

fn vacant_slots(alloc: Global, count: u32) -> Result<Vec<ActorSlot>, AllocError>
    ensures { IfOk result (λ slots. slots.items ≡ replicate count vacant) }
{
    let mut slots = Vec::with_capacity(alloc, count as usize)?;
    for _slot in 0..count {
        slots.push(ActorSlot::vacant(alloc))?;
    }
    Ok(slots)
}

impl Starting {
    /// An actor starts.
    fn start_in(
        &mut self,
        plant: &Plant,
        me: ControllerId,
        who: Incarnation,
    ) -> Result<(), AllocError>
        requires has_slots { HasSlots plant.now me.0 self.old.actors }
        requires last { IsLast plant.now.wiring me.0 (lives_of self.old.actors) who }
        ensures { OnOk result (StartsIn plant.now me.0 who.slot.0 self.old self.new) }
    {
        let alloc = self.actors.alloc;
        let state = self.actors.begin(plant, me, who, &mut self.output)?;
        let notes = mem::replace(&mut self.output.notes, Notes::new(alloc));
        self.entries.push(Entry::Start { who, state, notes })?;
        Ok(())
    }

    /// The actor of a slot starts, if one lives there from the start.
    fn consider(&mut self, plant: &Plant, me: ControllerId, slot: SlotId) -> Result<(), AllocError>
        requires started { Starts plant.now me.0 (first_below plant.now.wiring me.0 slot.0)
            self.old }
        ensures { OnOk result (Starts plant.now me.0
            (first_below plant.now.wiring me.0 slot.0 ++ first_in plant.now.wiring me.0 slot.0)
            self.new) }
    {
        let Some(generation) = self.actors.services.frame.live(slot) else {
            return Ok(());
        };
        self.start_in(plant, me, Incarnation { slot, generation })?;
        Ok(())
    }

    /// All actors that live from the start do.
    fn start_all(&mut self, plant: &Plant, me: ControllerId) -> Result<(), AllocError>
        requires started { Starts plant.now me.0 [] self.old }
        ensures { OnOk result (Starts plant.now me.0
            (first_below plant.now.wiring me.0 (length plant.now.wiring.slots)) self.new) }
    {
        for number in 0..plant.wiring.slot_count() {
            self.consider(plant, me, SlotId(number as u16))?;
        }
        Ok(())
    }
}

/// All actors of controller `me` that live from the start begin, in slot order.
pub(crate) fn start(alloc: Global, plant: &Plant, me: ControllerId) -> Result<Begun, AllocError>
    requires me { me.0 < length plant.now.wiring.controllers }
    ensures state { IfOk result (λ b.
        first_state (model_of plant.now) plant.now.wiring me.0
        ≡ record {
          clock = 0;
          turns = 0;
          pending = λ p. [];
          outbox = b.sent;
          body = body_of plant.now me.0 b.actors;
        }) }
    ensures entries { IfOk result (λ b.
        b.entries ≡ start_entries (model_of plant.now) plant.now.wiring me.0) }
    ensures well { IfOk result (λ b. IsWell plant.now me.0 b.actors) }
{
    let frame = FrameState::start(alloc, &plant.wiring, plant.share_runs()?, me)?;
    let slots = vacant_slots(alloc, own_count(&plant.wiring, me))?;
    let mut starting = Starting {
        actors: Actors {
            alloc,
            services: ActorServices {
                frame,
                links: Links::new(alloc),
            },
            table: NameService::new(alloc),
            slots,
        },
        output: Output::new(alloc, Notes::new(alloc)),
        entries: Journal::new(alloc),
    };
    starting.start_all(plant, me)?;
    let Starting {
        actors,
        output,
        entries,
    } = starting;
    // The notes are in the entries, and what came back goes nowhere: at a start nothing was kept before.
    let Output {
        messages,
        notes: _,
        back: _,
    } = output;
    Ok(Begun {
        actors,
        sent: messages,
        entries,
    })
}
