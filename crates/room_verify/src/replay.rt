//! A replay of journals.
ghost use Rattle.std.specs.Prelude.{◌≡◌, ◌<◌, ◌↔◌, List, true, false, length, map, IsTrue, IfOk};
ghost use Rattle.std.specs.Bool.{OnTrue};
ghost use Rattle.std.specs.List.{list_any, range_with_len};
ghost use Rattle.actor_merge.specs.Mail.{Fetch, Turn, Post, event_of};
ghost use Rattle.actor_merge.specs.Parties.{Line as RunLine};
ghost use Rattle.actor_merge.specs.World.{IsQuiet, start};
ghost use Rattle.actor_world.specs.Start.{start_entries};
ghost use Rattle.inject_reader.specs.Fitting.{LinesFit, WhatFits};
ghost use Rattle.inject_reader.specs.declared.inject_lines.accepted.Line.{Line as AnyLine};
ghost use Rattle.controller_actors.specs.Plants.{model_of};
ghost use Rattle.controller_actors.specs.declared.plant.Plant.{Plant as AnyPlant};
ghost use Rattle.controller.specs.Controllers.{run_plant};
ghost use Rattle.model_run.specs.part_source.Parts.{is_message};
ghost use Rattle.room_verify.specs.Worlds.{Came, CatchesUp, Moved, PostsOf, Replays, Stands, plan, world_in};
ghost use Rattle.room_verify.specs.States.{keeps_messages};
ghost use Rattle.room_verify.specs.Steps.{IsRefused, Steps};

use crate::lanes::LaneTable;
use crate::line_cursor::{LineCursor, first_message};
use controller::{ControllerState, Plant};
use inject_reader::inject_lines::{Line, What};
use journal::{Entry, Journal};
use model_run::part_posts::message_from_outside;
use room_kinds::{ControllerId, Priority};
use std::alloc::{AllocError, Global};

/// A replay of journals, entry by entry: the controllers of a plant, its environment, and the messages that are on
/// their way between them. It keeps no entry, and no message that was fetched and had its turn.
///
/// What an entry says of a message is compared with the message that the replay has on its way, never taken from it.
#[derive(Drop)]
pub struct Replay {
    alloc: Global,
    pub(crate) controllers: Vec<ControllerState>,
    pub(crate) environment: LineCursor,
    pub(crate) lanes: LaneTable,
}

/// A replay at its start, and the entries with which the controllers' journals begin, in order of number.
#[derive(Drop)]
pub struct Begun {
    pub replay: Replay,
    pub entries: Vec<Journal>,
}

/// Whether a message waits for a controller's turn, or to be posted by it.
pub(crate) fn keeps_messages(controller: &ControllerState) -> bool
    ensures { result ≡ keeps_messages controller.now }
{
    controller.mail().has_pending() || controller.mail().has_outbox()
}

/// Whether a message waits in one of these controllers.
fn some_keep_messages(controllers: &[ControllerState]) -> bool
    ensures { result ≡ list_any keeps_messages controllers.now }
{
    controllers.iter().any(keeps_messages)
}

impl Replay {
    /// The start of a plant: its actors that live from the start have taken their initial transitions.
    pub fn start(alloc: Global, plant: &Plant) -> Result<Begun, AllocError>
        ensures world { IfOk result (λ b. (lines : List RunLine)
            → world_in plant.now b.replay ≡ start (run_plant plant.now lines)) }
        ensures replays { IfOk result (λ b. (lines : List AnyLine)
            → Replays plant.now lines b.replay) }
        ensures entries { IfOk result (λ b. b.entries.items
            ≡ map (start_entries (model_of plant.now) plant.now.wiring)
            (range_with_len 0 (length plant.now.wiring.controllers))) }
    {
        let count = plant.wiring.controller_count();
        let mut controllers = Vec::new(alloc);
        let mut entries = Vec::new(alloc);
        for me in 0..count {
            let begun = ControllerState::start(alloc, plant, ControllerId(me))?;
            controllers.push(begun.state)?;
            entries.push(begun.entries)?;
        }
        let environment = LineCursor::new();
        let lanes = LaneTable::new(alloc, count)?;
        let replay = Replay {
            alloc,
            controllers,
            environment,
            lanes,
        };
        Ok(Begun { replay, entries })
    }

    /// An entry of a party happens, over lines that are the same at each call: true exactly where the event that it
    /// names may happen, and makes this entry. The world is then the one after it. After false, and after want of
    /// memory, the replay is unspecified.
    pub fn step(
        &mut self,
        plant: &Plant,
        lines: &[Line],
        party: ControllerId,
        e: &Entry,
    ) -> Result<bool, AllocError>
        requires replays { Replays plant.now lines.now self.old }
        requires fit { LinesFit plant.now.wiring lines.now }
        ensures steps { IfOk result (λ did. did ≡ true
            → Steps (plan plant.now lines.now) (world_in plant.now self.old) party.0 e.now
            (world_in plant.now self.new)) }
        ensures replays { IfOk result (λ did. did ≡ true → Replays plant.now lines.now self.new) }
        ensures refused { IfOk result (λ did. did ≡ false
            → IsRefused (plan plant.now lines.now) (world_in plant.now self.old) party.0 e.now) }
    {
        match self.happen(plant, lines, party, e)? {
            Some(made) => Ok(made.is_same(e)),
            None => Ok(false),
        }
    }

    /// The event that an entry of a party names happens, and makes an entry of its own; none exactly where it can't
    /// happen. After none, and after want of memory, the replay is unspecified.
    pub fn happen(
        &mut self,
        plant: &Plant,
        lines: &[Line],
        party: ControllerId,
        e: &Entry,
    ) -> Result<Option<Entry>, AllocError>
        requires replays { Replays plant.now lines.now self.old }
        requires fit { LinesFit plant.now.wiring lines.now }
        ensures { IfOk result
            (Came plant.now lines.now self.old self.new party.0 (event_of e.now)) }
    {
        let environment = plant.wiring.controller_count();
        if party.0 < environment {
            return self.move_controller(plant, party, e);
        }
        if party.0 == environment {
            return self.move_environment(plant, lines, e);
        }
        Ok(None)
    }

    /// The event of the environment that an entry names. It posts alone.
    fn move_environment(
        &mut self,
        plant: &Plant,
        lines: &[Line],
        e: &Entry,
    ) -> Result<Option<Entry>, AllocError>
        requires replays { Replays plant.now lines.now self.old }
        requires fit { LinesFit plant.now.wiring lines.now }
        ensures { IfOk result (Came plant.now lines.now self.old self.new
            (length plant.now.wiring.controllers) (event_of e.now)) }
    {
        match e {
            Entry::Start { .. } => Ok(None),
            Entry::Fetch { .. } => Ok(None),
            Entry::Turn { .. } => Ok(None),
            Entry::Post { .. } => self.post_line(plant, lines),
        }
    }

    /// The event of a controller that an entry names.
    fn move_controller(
        &mut self,
        plant: &Plant,
        c: ControllerId,
        e: &Entry,
    ) -> Result<Option<Entry>, AllocError>
        requires stands { Stands plant.now self.old }
        requires controller { c.0 < length plant.now.wiring.controllers }
        ensures { IfOk result (Moved plant.now self.old self.new c.0 (event_of e.now)) }
    {
        match e {
            Entry::Start { .. } => Ok(None),
            Entry::Fetch { msg, .. } => self.fetch(plant, c, msg.from, msg.prio),
            Entry::Turn { .. } => self.turn(plant, c),
            Entry::Post { .. } => self.post(plant, c),
        }
    }

    /// A controller fetches the front of a lane to it.
    fn fetch(
        &mut self,
        plant: &Plant,
        c: ControllerId,
        sender: ControllerId,
        prio: Priority,
    ) -> Result<Option<Entry>, AllocError>
        requires stands { Stands plant.now self.old }
        requires controller { c.0 < length plant.now.wiring.controllers }
        ensures { IfOk result (Moved plant.now self.old self.new c.0 (Fetch sender.0 prio.0)) }
    {
        let _plant = plant;
        let Some(m) = self.lanes.take(sender, c, prio) else {
            return Ok(None);
        };
        let controller = &mut self.controllers[usize::from(c.0)];
        let made = controller.fetch(m)?;
        Ok(Some(made))
    }

    /// A controller takes a turn, if its outbox is empty.
    fn turn(&mut self, plant: &Plant, c: ControllerId) -> Result<Option<Entry>, AllocError>
        requires stands { Stands plant.now self.old }
        requires controller { c.0 < length plant.now.wiring.controllers }
        ensures { IfOk result (Moved plant.now self.old self.new c.0 Turn) }
    {
        let controller = &mut self.controllers[usize::from(c.0)];
        if controller.mail().has_outbox() {
            return Ok(None);
        }
        controller.turn(plant)
    }

    /// A controller posts the front of its outbox.
    fn post(&mut self, plant: &Plant, c: ControllerId) -> Result<Option<Entry>, AllocError>
        requires stands { Stands plant.now self.old }
        requires controller { c.0 < length plant.now.wiring.controllers }
        ensures { IfOk result (Moved plant.now self.old self.new c.0 Post) }
    {
        let _plant = plant;
        let controller = &mut self.controllers[usize::from(c.0)];
        let Some(posted) = controller.post()? else {
            return Ok(None);
        };
        self.lanes.put(posted.message)?;
        Ok(Some(posted.entry))
    }

    /// Whether no message is on its way or waits anywhere.
    pub(crate) fn is_quiet(&self) -> bool
        ensures { (plant : AnyPlant) (lines : List RunLine) → Stands plant self.now
            → IsTrue result ↔ IsQuiet (run_plant plant lines) (world_in plant self.now) }
    {
        self.lanes.is_empty() && !some_keep_messages(self.controllers.as_slice())
    }

    /// Whether the environment may post a message behind so many `settle` lines: if there are any, all must be quiet,
    /// and then its clock catches up.
    fn begin_part(&mut self, plant: &Plant, settles: usize) -> bool
        requires { Stands plant.now self.old }
        ensures may { (lines : List RunLine) → IsTrue result
            ↔ (0 < settles → IsQuiet (run_plant plant.now lines) (world_in plant.now self.old)) }
        ensures catches_up { OnTrue result (CatchesUp plant.now self.old self.new settles) }
    {
        let _plant = plant;
        if settles == 0 {
            return true;
        }
        if !self.is_quiet() {
            return false;
        }
        self.environment.catch_up(self.controllers.as_slice());
        true
    }

    /// The environment posts the message for which a line asks, and then stands behind so many lines.
    fn post_message(
        &mut self,
        plant: &Plant,
        line: &Line,
        behind: usize,
    ) -> Result<Entry, AllocError>
        requires lanes { self.old.lanes.controllers ≡ length plant.now.wiring.controllers }
        requires asks { is_message line.now.what ≡ true }
        requires fits { WhatFits plant.now.wiring line.now.what }
        ensures { IfOk result (PostsOf plant.now self.old self.new line.now behind) }
    {
        let What::Message {
            target,
            signal,
            payload,
            prio,
        } = &line.what
        else {
            unreachable!()
        };
        let m = message_from_outside(self.alloc, plant, *target, *signal, payload, *prio)?;
        let me = ControllerId(plant.wiring.controller_count());
        let posted = self.environment.post(self.alloc, me, m, behind)?;
        self.lanes.put(posted.message)?;
        Ok(posted.entry)
    }

    /// The environment posts the message of its next line.
    fn post_line(&mut self, plant: &Plant, lines: &[Line]) -> Result<Option<Entry>, AllocError>
        requires replays { Replays plant.now lines.now self.old }
        requires fit { LinesFit plant.now.wiring lines.now }
        ensures { IfOk result (Came plant.now lines.now self.old self.new
            (length plant.now.wiring.controllers) Post) }
    {
        let at = self.environment.at;
        let (_, ahead) = lines.split_at(at);
        let Some(settles) = first_message(ahead) else {
            return Ok(None);
        };
        if !self.begin_part(plant, settles) {
            return Ok(None);
        }
        let made = self.post_message(plant, &ahead[settles], at + settles + 1)?;
        Ok(Some(made))
    }
}
