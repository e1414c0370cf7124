//! Actors that come up and go down in a turn.
ghost use Rattle.std.specs.Prelude.{[], All, OnOk};
ghost use Rattle.actor_world.specs.Turns.{begun, all_begun, gone, all_gone};
ghost use Rattle.controller_actors.specs.Plants.{model_of};
ghost use Rattle.controller_actors.specs.Bodies.{AreEmpty, HasSlots, lives_of};
ghost use Rattle.controller_actors.specs.Steps.{IsLast, IsOwn, IsVacated, Moves, StayEmpty};

use crate::actor_commands::{Output, Speaker};
use crate::actors::Actors;
use crate::plant::Plant;
use room_kinds::{ControllerId, Incarnation, Note};
use std::alloc::AllocError;

impl Actors {
    /// An actor that was made comes up: its note, its initial transition, and its commands.
    pub(crate) fn come_up(
        &mut self,
        plant: &Plant,
        me: ControllerId,
        who: Incarnation,
        output: &mut Output,
    ) -> Result<(), AllocError>
        requires has_slots { HasSlots plant.now me.0 self.old }
        requires last { IsLast plant.now.wiring me.0 (lives_of self.old) who }
        ensures moves { OnOk result (Moves (begun (model_of plant.now) plant.now.wiring me.0 who)
            plant.now me.0 self.old output.old self.new output.new) }
        ensures empty { OnOk result (StayEmpty plant.now me.0 self.old self.new) }
    {
        let alloc = self.alloc;
        let speaker = Speaker {
            wiring: &plant.wiring,
            me,
            who,
        };
        let tables = plant.tables_of(who.slot);
        let actor_slot = &mut self.slots[plant.row_of(who.slot)];
        actor_slot.come_up(alloc, &speaker, &mut self.services, tables, output)?;
        Ok(())
    }

    /// Actors that were made come up, one after another.
    pub(crate) fn all_come_up(
        &mut self,
        plant: &Plant,
        me: ControllerId,
        made: &[Incarnation],
        output: &mut Output,
    ) -> Result<(), AllocError>
        requires has_slots { HasSlots plant.now me.0 self.old }
        requires last { All (IsLast plant.now.wiring me.0 (lives_of self.old)) made.now }
        ensures moves { OnOk result (Moves
            (all_begun (model_of plant.now) plant.now.wiring me.0 made.now)
            plant.now me.0 self.old output.old self.new output.new) }
        ensures empty { OnOk result (StayEmpty plant.now me.0 self.old self.new) }
    {
        for who in made {
            self.come_up(plant, me, *who, output)?;
        }
        Ok(())
    }

    /// An actor that has ended is gone: its note tells how many messages it had kept, nobody stands in its
    /// slot, and its names are withdrawn.
    pub(crate) fn go_down(
        &mut self,
        plant: &Plant,
        me: ControllerId,
        who: Incarnation,
        output: &mut Output,
    ) -> Result<(), AllocError>
        requires has_slots { HasSlots plant.now me.0 self.old }
        requires own { IsOwn plant.now.wiring me.0 who }
        ensures moves { OnOk result (Moves (gone plant.now.wiring me.0 who) plant.now me.0 self.old
            output.old self.new output.new) }
        ensures empty { OnOk result (IsVacated plant.now me.0 who self.old self.new) }
    {
        let alloc = self.alloc;
        let actor_slot = &mut self.slots[plant.row_of(who.slot)];
        let lost = actor_slot.vacate(alloc);
        output.notes.push(Note::Down { who, lost })?;
        let out = &mut output.messages;
        self.services.links.end_of(&plant.wiring, me, who, out)?;
        Ok(())
    }

    /// Actors that have ended are gone, one after another.
    pub(crate) fn all_go_down(
        &mut self,
        plant: &Plant,
        me: ControllerId,
        ended: &[Incarnation],
        output: &mut Output,
    ) -> Result<(), AllocError>
        requires has_slots { HasSlots plant.now me.0 self.old }
        requires own { All (IsOwn plant.now.wiring me.0) ended.now }
        ensures moves { OnOk result (Moves (all_gone plant.now.wiring me.0 ended.now) plant.now me.0
            self.old output.old self.new output.new) }
        ensures empty { OnOk result (AreEmpty plant.now me.0 ended.now self.old
            → AreEmpty plant.now me.0 [] self.new) }
    {
        for who in ended {
            self.go_down(plant, me, *who, output)?;
        }
        Ok(())
    }
}
