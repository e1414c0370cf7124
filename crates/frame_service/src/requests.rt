//! Commands of actors on the life and the import of actors.
ghost use Rattle.std.specs.Prelude.{◌≡◌, ◌<◌, length, OnOk};
ghost use Rattle.actor_duties.specs.Frame.{frame_request};
ghost use Rattle.frame_service.specs.State.{frame_in, IsFrameOf};
ghost use Rattle.frame_service.specs.Done.{IsRequested};
ghost use Rattle.room_kinds.specs.declared.command.FrameCommand.TheVariants as commands;

use crate::frame_imports::{Asked, request_deport, request_import};
use crate::state::FrameState;
use frame_lives::{destroy, incarnate};
use room_kinds::{FrameCommand, Incarnation, Outbox};
use room_wiring::Wiring;
use service_messages::Site;
use std::alloc::AllocError;

impl FrameState {
    fn incarnate(
        &mut self,
        wiring: &Wiring,
        asked: Asked,
        out: &mut Outbox,
    ) -> Result<(), AllocError>
        requires fits { IsFrameOf wiring.now self.old }
        requires there { asked.actor.slot.0 < length wiring.now.slots }
        ensures { OnOk result (IsRequested wiring.now self.old self.new
            (frame_request wiring.now self.old.me.0 (frame_in self.old) asked.actor
            (commands.Incarnate asked.reference asked.index))
            out.old out.new) }
    {
        let (actor, reference, index) = (asked.actor, asked.reference, asked.index);
        let site = Site {
            alloc: self.alloc,
            wiring,
            runs: &self.runs,
            me: self.me,
        };
        incarnate(&site, actor, reference, index, out)?;
        Ok(())
    }

    fn destroy(&mut self, wiring: &Wiring, asked: Asked, out: &mut Outbox) -> Result<(), AllocError>
        requires fits { IsFrameOf wiring.now self.old }
        requires there { asked.actor.slot.0 < length wiring.now.slots }
        ensures { OnOk result (IsRequested wiring.now self.old self.new
            (frame_request wiring.now self.old.me.0 (frame_in self.old) asked.actor
            (commands.Destroy asked.reference asked.index))
            out.old out.new) }
    {
        let (actor, reference, index) = (asked.actor, asked.reference, asked.index);
        let site = Site {
            alloc: self.alloc,
            wiring,
            runs: &self.runs,
            me: self.me,
        };
        destroy(&site, actor, reference, index, out)?;
        Ok(())
    }

    fn import(
        &mut self,
        wiring: &Wiring,
        asked: Asked,
        id: i64,
        out: &mut Outbox,
    ) -> Result<(), AllocError>
        requires fits { IsFrameOf wiring.now self.old }
        requires there { asked.actor.slot.0 < length wiring.now.slots }
        ensures { OnOk result (IsRequested wiring.now self.old self.new
            (frame_request wiring.now self.old.me.0 (frame_in self.old) asked.actor
            (commands.Import asked.reference asked.index id))
            out.old out.new) }
    {
        let site = Site {
            alloc: self.alloc,
            wiring,
            runs: &self.runs,
            me: self.me,
        };
        request_import(&mut self.imports, &site, asked, id, out)?;
        Ok(())
    }

    fn deport(&mut self, wiring: &Wiring, asked: Asked, out: &mut Outbox) -> Result<(), AllocError>
        requires fits { IsFrameOf wiring.now self.old }
        requires there { asked.actor.slot.0 < length wiring.now.slots }
        ensures { OnOk result (IsRequested wiring.now self.old self.new
            (frame_request wiring.now self.old.me.0 (frame_in self.old) asked.actor
            (commands.Deport asked.reference asked.index))
            out.old out.new) }
    {
        let site = Site {
            alloc: self.alloc,
            wiring,
            runs: &self.runs,
            me: self.me,
        };
        request_deport(&mut self.imports, &site, asked, out)?;
        Ok(())
    }

    /// A command of an actor on the life or the import of actors.
    pub fn request(
        &mut self,
        wiring: &Wiring,
        actor: Incarnation,
        command: &FrameCommand,
        out: &mut Outbox,
    ) -> Result<(), AllocError>
        requires fits { IsFrameOf wiring.now self.old }
        requires there { actor.slot.0 < length wiring.now.slots }
        ensures { OnOk result (IsRequested wiring.now self.old self.new
            (frame_request wiring.now self.old.me.0 (frame_in self.old) actor command.now)
            out.old out.new) }
    {
        match *command {
            FrameCommand::Incarnate { reference, index } => {
                self.incarnate(
                    wiring,
                    Asked {
                        actor,
                        reference,
                        index,
                    },
                    out,
                )
            }
            FrameCommand::Destroy { reference, index } => {
                self.destroy(
                    wiring,
                    Asked {
                        actor,
                        reference,
                        index,
                    },
                    out,
                )
            }
            FrameCommand::Import {
                reference,
                index,
                id,
            } => self.import(
                wiring,
                Asked {
                    actor,
                    reference,
                    index,
                },
                id,
                out,
            ),
            FrameCommand::Deport { reference, index } => {
                self.deport(
                    wiring,
                    Asked {
                        actor,
                        reference,
                        index,
                    },
                    out,
                )
            }
        }
    }
}
