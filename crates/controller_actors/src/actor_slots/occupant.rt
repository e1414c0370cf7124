//! What stands in a slot.
ghost use Rattle.std.specs.Prelude.{◌≡◌, [], option_map, IfOk, MatchOption};
ghost use Rattle.std.specs.Option.{option_copied};
ghost use Rattle.chart_behaviour.specs.ModelCharts.{state_number};
ghost use Rattle.controller_actors.specs.Seen.{attributes_of};
ghost use Rattle.controller_actors.specs.actor_slots.Occupants.{AreSound, HasTables, MachineFits, MachineReacts, Reacts, Begins, actor_in};

use action_program::Effects;
use chart_run::{Handling, Machine, Outcome, Tables};
use room_kinds::{Incarnation, Msg};
use std::alloc::{AllocError, Global};

/// The number of the state of an actor whose class has no chart.
pub(crate) const NO_STATE: u16 = 65535;

/// What stands in a slot: nobody, an actor whose class has no chart, or one with its machine.
#[derive(Drop)]
pub enum Occupant {
    Nobody,
    Chartless,
    Charted(Machine),
}

/// What came of a message, and the number of the actor's state then.
#[derive(Drop)]
pub struct Reaction {
    pub outcome: Outcome,
    pub state: u16,
}

/// An actor that has begun, the number of its state, and what its first actions told and asked for.
#[derive(Drop)]
pub struct Beginning {
    pub occupant: Occupant,
    pub state: u16,
    pub effects: Effects,
}

/// An actor that doesn't handle a message.
fn passed_over(alloc: Global, state: u16) -> Reaction
    ensures { result
        ≡ record {
          outcome = record {
            result = Handling.Unhandled;
            effects = record { notes = []; commands = [] };
          };
          state = state;
        } }
{
    Reaction {
        outcome: Outcome {
            result: Handling::Unhandled,
            effects: Effects::new(alloc),
        },
        state,
    }
}

/// A machine handles a message by the tables of its class.
#[tactic(auto, using(crate::proofs::actor_slots::Occupying::machine_reacts, crate::proofs::actor_slots::Occupying::machine_passes))]
fn react_by(
    alloc: Global,
    machine: &mut Machine,
    tables: Option<&Tables>,
    m: &Msg,
) -> Result<Reaction, AllocError>
    requires sound { AreSound (option_copied tables) }
    requires fits { MachineFits (option_copied tables) machine.old }
    ensures { IfOk result (λ r.
        MachineReacts m.now (option_copied tables.entry) machine.old machine.new r) }
{
    match tables {
        Some(tables) => match machine.handle(alloc, tables, m) {
            Ok(outcome) => Ok(Reaction {
                outcome,
                state: machine.state(),
            }),
            Err(refused) => Err(refused),
        },
        None => Ok(passed_over(alloc, machine.state())),
    }
}

impl Occupant {
    /// The number of the actor's state; none where nobody stands there. It takes no memory.
    pub(crate) fn state(&self) -> Option<u16>
        ensures { result ≡ option_map state_number (actor_in self.now) }
    {
        match self {
            Occupant::Nobody => None,
            Occupant::Chartless => Some(NO_STATE),
            Occupant::Charted(machine) => Some(machine.state()),
        }
    }

    /// The numbers of the actor's attributes, in order of declaration; none at all where nobody stands there.
    /// It takes no memory.
    pub(crate) fn attributes(&self) -> Option<&[i64]>
        ensures { option_copied result ≡ option_map attributes_of (actor_in self.now) }
    {
        match self {
            Occupant::Nobody => None,
            Occupant::Chartless => Some(&[]),
            Occupant::Charted(machine) => Some(machine.attributes()),
        }
    }

    /// The actor handles a message by the tables of its class, where there is an actor. After want of
    /// memory its machine gives no other answer.
    #[tactic(auto, using(crate::proofs::actor_slots::Occupying::chartless_reacts, crate::proofs::actor_slots::Occupying::charted_reacts))]
    pub(crate) fn react(
        &mut self,
        alloc: Global,
        tables: Option<&Tables>,
        m: &Msg,
    ) -> Result<Option<Reaction>, AllocError>
        requires sound { AreSound (option_copied tables) }
        requires fits { HasTables (option_copied tables) self.old }
        ensures { IfOk result (λ o.
            MatchOption o ((actor_in self.old ≡ None) × (self.new ≡ self.old))
            (λ r. Reacts m.now (option_copied tables.entry) self.old self.new r)) }
    {
        match self {
            Occupant::Nobody => Ok(None),
            Occupant::Chartless => Ok(Some(passed_over(alloc, NO_STATE))),
            Occupant::Charted(machine) => match react_by(alloc, machine, tables, m) {
                Ok(reaction) => Ok(Some(reaction)),
                Err(refused) => Err(refused),
            },
        }
    }

    /// An actor begins by the tables of its class.
    #[tactic(auto, using(crate::proofs::actor_slots::Occupying::chartless_begins, crate::proofs::actor_slots::Occupying::charted_begins))]
    pub(crate) fn begin(
        alloc: Global,
        tables: Option<&Tables>,
        who: Incarnation,
    ) -> Result<Beginning, AllocError>
        requires sound { AreSound (option_copied tables) }
        ensures { IfOk result (λ r. Begins who (option_copied tables.entry) r) }
    {
        let Some(tables) = tables else {
            return Ok(Beginning {
                occupant: Occupant::Chartless,
                state: NO_STATE,
                effects: Effects::new(alloc),
            });
        };
        let (machine, effects) = Machine::start(alloc, tables, who)?;
        let state = machine.state();
        Ok(Beginning {
            occupant: Occupant::Charted(machine),
            state,
            effects,
        })
    }
}
