//! A slot with what stands in it and what that keeps.
ghost use Rattle.std.specs.Prelude.{◌≡◌, ◌<◌, [], ◌∷◌, ◌++◌, false, length, All, IfOk, OnOk, MatchOption};
ghost use Rattle.std.specs.Option.{option_copied};
ghost use Rattle.room_kinds.specs.declared.note.Note.TheVariants.{Up};
ghost use Rattle.controller_mail.specs.MailState.{IsForActors};
ghost use Rattle.chart_run.specs.Machines.{result_view};
ghost use Rattle.chart_behaviour.specs.ModelCharts.{handling_of};
ghost use Rattle.actor_world.specs.Turns.{handled_as};
ghost use Rattle.controller_actors.specs.actor_slots.Occupants.{AreSound, actor_in};
ghost use Rattle.controller_actors.specs.actor_slots.Slots.{SlotComesUp, SlotFits, SlotTurns, SlotBegins, Works};

use crate::actor_commands::{DeferredMessages, Output, Services, Speaker, apply_all};
use crate::actor_slots::occupant::{Beginning, NO_STATE, Occupant, Reaction};
use action_program::Effects;
use chart_run::{Handling, Outcome, Tables};
use controller_mail::TurnResult;
use journal::Did;
use room_kinds::{Commands, Incarnation, Msg, Note, Notes};
use std::alloc::{AllocError, Global};

/// What stands in a slot, and the messages that it keeps for later.
#[derive(Drop)]
pub struct ActorSlot {
    pub occupant: Occupant,
    pub deferred: DeferredMessages,
}

/// What a journal says of a message that an actor handled.
fn did_of(came_to: Handling, who: Incarnation, state: u16) -> Did
    ensures { result ≡ handled_as (handling_of (result_view came_to)) who state }
{
    match came_to {
        Handling::Handled => Did::Handled { who, state },
        Handling::Deferred => Did::Deferred { who, state },
        Handling::Unhandled => Did::Unhandled { who, state },
    }
}

/// Tells that an actor came up in a state, and then what its initial transition told.
fn tell_up(notes: &mut Notes, who: Incarnation, state: u16, told: &[Note]) -> Result<(), AllocError>
    ensures { OnOk result (notes.new ≡ notes.old ++ Up who state ∷ told.now) }
{
    notes.push(Note::Up { who, state })?;
    for note in told {
        notes.push(*note)?;
    }
    Ok(())
}

impl ActorSlot {
    /// Nobody stands there. It takes no memory.
    pub fn vacant(alloc: Global) -> ActorSlot
        ensures { result ≡ record { occupant = Occupant.Nobody; deferred = [] } }
    {
        ActorSlot {
            occupant: Occupant::Nobody,
            deferred: DeferredMessages::new(alloc),
        }
    }

    /// Nobody stands there any more. It answers how many messages were kept for later, which are lost.
    pub fn vacate(&mut self, alloc: Global) -> u64
        ensures lost { result ≡ length self.old.deferred }
        ensures vacant { self.new ≡ record { occupant = Occupant.Nobody; deferred = [] } }
    {
        let lost = self.deferred.len() as u64;
        self.occupant = Occupant::Nobody;
        self.deferred = DeferredMessages::new(alloc);
        lost
    }

    /// An actor whose class has no chart comes up: there is nothing that it does then.
    fn come_up_without_chart(
        &mut self,
        alloc: Global,
        who: Incarnation,
        notes: &mut Notes,
    ) -> Result<(), AllocError>
        ensures slot { OnOk result (self.new
            ≡ record { occupant = Occupant.Chartless; deferred = [] }) }
        ensures told { OnOk result (notes.new ≡ notes.old ++ Up who 65535 ∷ []) }
    {
        self.occupant = Occupant::Chartless;
        self.deferred = DeferredMessages::new(alloc);
        notes.push(Note::Up {
            who,
            state: NO_STATE,
        })?;
        Ok(())
    }

    /// The commands of an actor that begins, which handles no message, are applied in order, on top of
    /// what was put out before. Most actors have none then.
    fn work<S: Services>(
        &mut self,
        alloc: Global,
        speaker: &Speaker<'_>,
        services: &mut S,
        commands: Commands,
        output: &mut Output,
    ) -> Result<(), AllocError>
        requires serves { S.serves speaker.now.wiring.now speaker.now.me.0 services.old }
        requires there { speaker.now.who.slot.0 < length speaker.now.wiring.now.slots }
        ensures serves { OnOk result (S.serves speaker.now.wiring.now speaker.now.me.0
            services.new) }
        ensures works { OnOk result (Works speaker.now.wiring.now speaker.now.me.0
            (S.frame_of services.old)
            (S.links_of services.old)
            (S.frame_of services.new)
            (S.links_of services.new)
            speaker.now.who None commands self.old self.new output.old output.new) }
    {
        if commands.is_empty() {
            return Ok(());
        }
        let deferred = &mut self.deferred;
        apply_all(alloc, speaker, services, None, commands, deferred, output)?;
        Ok(())
    }

    /// The actor handles a message, and its commands are applied; `None` where nobody stands there. After
    /// want of memory the slot is unspecified: the controller has failed.
    pub fn handle<S: Services>(
        &mut self,
        alloc: Global,
        speaker: &Speaker<'_>,
        services: &mut S,
        tables: Option<&Tables>,
        m: Msg,
    ) -> Result<Option<TurnResult>, AllocError>
        requires sound { AreSound (option_copied tables) }
        requires fits { SlotFits speaker.now.who (option_copied tables) self.old }
        requires prio { IsForActors m }
        requires serves { S.serves speaker.now.wiring.now speaker.now.me.0 services.old }
        requires there { speaker.now.who.slot.0 < length speaker.now.wiring.now.slots }
        ensures serves { OnOk result (S.serves speaker.now.wiring.now speaker.now.me.0
            services.new) }
        ensures turns { IfOk result (λ o.
            MatchOption o
            ((actor_in self.old.occupant ≡ None)
            × (self.new ≡ self.old)
            × (services.new ≡ services.old))
            (λ done.
            SlotTurns speaker.now.wiring.now speaker.now.me.0 (S.frame_of services.old)
            (S.links_of services.old)
            (S.frame_of services.new)
            (S.links_of services.new)
            speaker.now.who m (option_copied tables.entry) self.old self.new done)) }
    {
        let reaction = match self.occupant.react(alloc, tables, &m) {
            Ok(Some(reaction)) => reaction,
            Ok(None) => return Ok(None),
            Err(refused) => return Err(refused),
        };
        let Reaction { outcome, state } = reaction;
        let Outcome { result, effects } = outcome;
        let Effects { notes, commands } = effects;
        let mut output = Output::new(alloc, notes);
        let deferred = &mut self.deferred;
        apply_all(
            alloc,
            speaker,
            services,
            Some(m),
            commands,
            deferred,
            &mut output,
        )?;
        let did = did_of(result, speaker.who, state);
        Ok(Some(output.into_turn_result(did)))
    }

    /// The actor of a slot begins, and its commands are applied, on top of what was sent and came back
    /// before; the notes are those of this start alone. It answers the number of the actor's state. After
    /// want of memory the slot, and what was put out, is unspecified: the controller has failed.
    pub fn begin<S: Services>(
        &mut self,
        alloc: Global,
        speaker: &Speaker<'_>,
        services: &mut S,
        tables: Option<&Tables>,
        output: &mut Output,
    ) -> Result<u16, AllocError>
        requires sound { AreSound (option_copied tables) }
        requires kept { All IsForActors self.old.deferred }
        requires serves { S.serves speaker.now.wiring.now speaker.now.me.0 services.old }
        requires there { speaker.now.who.slot.0 < length speaker.now.wiring.now.slots }
        ensures serves { OnOk result (S.serves speaker.now.wiring.now speaker.now.me.0
            services.new) }
        ensures begins { IfOk result (λ state.
            SlotBegins speaker.now.wiring.now speaker.now.me.0 (S.frame_of services.old)
            (S.links_of services.old)
            (S.frame_of services.new)
            (S.links_of services.new)
            speaker.now.who (option_copied tables.entry) self.old self.new output.old output.new
            state) }
    {
        let beginning = Occupant::begin(alloc, tables, speaker.who)?;
        let Beginning {
            occupant,
            state,
            effects,
        } = beginning;
        let Effects { notes, commands } = effects;
        self.occupant = occupant;
        output.notes = notes;
        self.work(alloc, speaker, services, commands, output)?;
        Ok(state)
    }

    /// The same, whether or not the actor's class has a chart.
    fn come_up_by<S: Services>(
        &mut self,
        alloc: Global,
        speaker: &Speaker<'_>,
        services: &mut S,
        tables: Option<&Tables>,
        output: &mut Output,
    ) -> Result<(), AllocError>
        requires sound { AreSound (option_copied tables) }
        requires serves { S.serves speaker.now.wiring.now speaker.now.me.0 services.old }
        requires there { speaker.now.who.slot.0 < length speaker.now.wiring.now.slots }
        ensures serves { OnOk result (S.serves speaker.now.wiring.now speaker.now.me.0
            services.new) }
        ensures up { OnOk result (SlotComesUp speaker.now.wiring.now speaker.now.me.0
            (S.frame_of services.old)
            (S.links_of services.old)
            (S.frame_of services.new)
            (S.links_of services.new)
            speaker.now.who (option_copied tables.entry) self.old self.new output.old
            output.new) }
    {
        let beginning = Occupant::begin(alloc, tables, speaker.who)?;
        let Beginning {
            occupant,
            state,
            effects,
        } = beginning;
        let Effects { notes, commands } = effects;
        self.occupant = occupant;
        self.deferred = DeferredMessages::new(alloc);
        tell_up(&mut output.notes, speaker.who, state, notes.as_slice())?;
        self.work(alloc, speaker, services, commands, output)?;
        Ok(())
    }

    /// The actor of a slot comes up: it begins with nothing kept for later, its note `up` tells its
    /// state, and its commands are applied, on top of what was put out before. After want of memory the
    /// slot, and what was put out, is unspecified: the controller has failed.
    pub fn come_up<S: Services>(
        &mut self,
        alloc: Global,
        speaker: &Speaker<'_>,
        services: &mut S,
        tables: Option<&Tables>,
        output: &mut Output,
    ) -> Result<(), AllocError>
        requires sound { AreSound (option_copied tables) }
        requires serves { S.serves speaker.now.wiring.now speaker.now.me.0 services.old }
        requires there { speaker.now.who.slot.0 < length speaker.now.wiring.now.slots }
        ensures serves { OnOk result (S.serves speaker.now.wiring.now speaker.now.me.0
            services.new) }
        ensures up { OnOk result (SlotComesUp speaker.now.wiring.now speaker.now.me.0
            (S.frame_of services.old)
            (S.links_of services.old)
            (S.frame_of services.new)
            (S.links_of services.new)
            speaker.now.who (option_copied tables.entry) self.old self.new output.old
            output.new) }
    {
        match tables {
            Some(_) => {
                self.come_up_by(alloc, speaker, services, tables, output)?;
                Ok(())
            }
            None => {
                self.come_up_without_chart(alloc, speaker.who, &mut output.notes)?;
                Ok(())
            }
        }
    }
}
