//! The start of a frame service, and what it tells.
ghost use Rattle.std.specs.Prelude.{◌≡◌, ◌<◌, ◌^◌, length, IfOk, IfSome};
ghost use Rattle.actor_duties.specs.Peers.{frame_peer, known};
ghost use Rattle.actor_duties.specs.Words.{endpoint};
ghost use Rattle.actor_world.specs.Start.{first_frame};
ghost use Rattle.service_messages.specs.slot_runs.Runs.{IsDepthFirst, AreRunEnds};
ghost use Rattle.frame_lives.specs.Known.{live_in, some_generation};
ghost use Rattle.frame_service.specs.State.{frame_in, IsFrameOf};
ghost use Rattle.frame_service.specs.Places.{shown_place};

use crate::frame_imports::Imports;
use crate::frame_start::first_lives;
use crate::state::FrameState;
use room_kinds::{ControllerId, Endpoint, Generation, Incarnation, PlaceState, SlotId};
use room_wiring::Wiring;
use service_messages::{SlotRuns, container_of};
use std::alloc::{AllocError, Global};

impl FrameState {
    /// The frame service of a controller at the start: each of its slots that is fixed and not below an
    /// optional one lives with generation 1, its directory tells of such slots of others, and nothing is
    /// lent.
    pub fn start(
        alloc: Global,
        wiring: &Wiring,
        runs: SlotRuns,
        me: ControllerId,
    ) -> Result<FrameState, AllocError>
        requires order { IsDepthFirst wiring.now }
        requires runs { AreRunEnds wiring.now runs }
        requires me { me.0 < length wiring.now.controllers }
        ensures fits { IfOk result (IsFrameOf wiring.now) }
        ensures frame { IfOk result (λ s. frame_in s ≡ first_frame wiring.now me.0) }
        ensures me { IfOk result (λ s. s.me ≡ me) }
    {
        let lives = first_lives(alloc, wiring, me)?;
        let imports = Imports::new(alloc);
        Ok(FrameState {
            alloc,
            me,
            runs,
            lives,
            imports,
        })
    }

    /// The peer of a place of a port of a live actor, but for links by name. No place whose number has
    /// more than 32 bits has one. It takes no memory.
    #[tactic(auto, unfolding(crate::specs::State::frame_in))]
    pub fn peer(&self, wiring: &Wiring, who: Incarnation, port: u16, place: u64) -> Option<Endpoint>
        ensures peer { result ≡ frame_peer wiring.now self.now.me.0 (frame_in self.now)
            (endpoint who.slot.0 who.generation.0 port place) }
        ensures near { IfSome result (λ e. place < 2 ^ 32) }
    {
        crate::frame_imports::peer(
            &self.lives,
            &self.imports,
            wiring,
            self.me,
            who,
            port,
            place,
        )
    }

    /// The generation that lives in a slot of the controller's own. It takes no memory.
    #[tactic(auto, unfolding(crate::specs::State::frame_in))]
    pub fn live(&self, slot: SlotId) -> Option<Generation>
        ensures { result ≡ live_in (frame_in self.now).lives slot.0 }
    {
        self.lives.live(slot)
    }

    /// The generation that is known in a slot: what lives there if the slot is the controller's own, else
    /// what its owner told last. It takes no memory.
    #[tactic(auto, unfolding(crate::specs::State::frame_in, actor_duties::specs::Peers::known, frame_lives::specs::Known::known_in))]
    pub fn known(&self, wiring: &Wiring, slot: SlotId) -> Option<Generation>
        ensures { result
            ≡ some_generation (known wiring.now self.now.me.0 (frame_in self.now) slot.0) }
    {
        self.lives.known(wiring, self.me, slot)
    }

    /// What the import place of an imported slot holds, with its container's generation; none
    /// exactly where its container doesn't live at this controller. It takes no memory.
    #[tactic(auto, unfolding(crate::specs::State::frame_in))]
    pub fn place(&self, wiring: &Wiring, slot: SlotId) -> Option<PlaceState>
        ensures { result ≡ shown_place wiring.now (frame_in self.now) slot.0 }
    {
        let Some(container) = container_of(wiring, slot) else {
            return None;
        };
        if !self.lives.lives(container) {
            return None;
        }
        Some(self.imports.place(slot).shown())
    }
}
