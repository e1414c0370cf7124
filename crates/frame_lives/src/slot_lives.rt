//! The table of slots.
ghost use Rattle.std.specs.Prelude.{◌≡◌, ◌+◌, ◌<◌, ◌++◌, ◌∷◌, [], ℕ, length, IfOk, OnOk};
ghost use Rattle.actor_duties.specs.Words.{updated, incarnation};
ghost use Rattle.actor_duties.specs.Lives.{is_live, counts_as_live, last_of, announce};
ghost use Rattle.frame_lives.specs.Known.{live_in, known_in, some_generation};
ghost use Rattle.frame_lives.specs.Shown.{row_of, shown, with_lives, with_told};
ghost use Rattle.frame_lives.specs.Paged.{row_in};
ghost use Rattle.frame_lives.specs.Steps.{raised, ended};

use crate::pages::Pages;
use crate::row::{NO_ROW, Row};
use room_kinds::{ControllerId, Generation, Incarnation, SlotId};
use room_wiring::Wiring;
use service_messages::is_own;
use std::alloc::{AllocError, Global};
use std::marker::Model;

/// What a controller knows of the actors in slots: a row for each slot. What the rows say (`shown`) is
/// the lives of the controller's own slots and the directory of the others. Rows of which there is nothing
/// to say take little memory (`Pages`). No look-up takes memory.
#[derive(Drop)]
pub struct SlotLives {
    count: u32,
    rows: Pages<Row>,
}

impl Model for SlotLives {
    ghost use Rattle.std.specs.Prelude.{List};
    ghost use Rattle.frame_lives.specs.declared.row.Row.{Row};
    ghost use Rattle.frame_lives.specs.Paged.{rows_in};

    ghost Value = { List Row };

    ghost view = { λ x. rows_in x.count x.rows };
}

impl SlotLives {
    /// The table of no slot.
    pub fn new(alloc: Global) -> SlotLives
        ensures { result ≡ [] }
    {
        SlotLives {
            count: 0,
            rows: Pages::new(alloc),
        }
    }

    /// One slot more, with this row.
    pub fn push(&mut self, row: Row) -> Result<(), AllocError>
        requires { length self.old < 65536 }
        ensures { OnOk result (self.new ≡ self.old ++ row ∷ []) }
    {
        put(&mut self.rows, self.count as usize, row)?;
        self.count += 1;
        Ok(())
    }

    fn row_at(&self, slot: SlotId) -> Row
        ensures { result ≡ row_of self.now slot.0 }
    {
        if u32::from(slot.0) < self.count {
            self.rows.item(usize::from(slot.0))
        } else {
            NO_ROW
        }
    }

    #[tactic(auto, unfolding(crate::specs::Shown::shown))]
    fn row(&self, slot: SlotId) -> Row
        ensures generation { result.generation ≡ (shown self.now).lives.generation slot.0 }
        ensures lives { result.lives ≡ (shown self.now).lives.lives slot.0 }
        ensures told { result.told ≡ (shown self.now).told slot.0 }
    {
        self.row_at(slot)
    }

    /// The generation that lives in a slot of the controller's own.
    pub fn live(&self, slot: SlotId) -> Option<Generation>
        ensures { result ≡ live_in (shown self.now).lives slot.0 }
    {
        let row = self.row(slot);
        if row.lives {
            Some(Generation(row.generation))
        } else {
            None
        }
    }

    /// Whether an actor lives in a slot of the controller's own.
    pub fn lives(&self, slot: SlotId) -> bool
        ensures { result ≡ (shown self.now).lives.lives slot.0 }
    {
        self.row(slot).lives
    }

    /// The actor that stands in a slot of the controller's own, or stood there last.
    pub fn last_of(&self, slot: SlotId) -> Incarnation
        ensures { result ≡ last_of (shown self.now).lives slot.0 }
    {
        Incarnation {
            slot,
            generation: Generation(self.row(slot).generation),
        }
    }

    /// Whether this actor lives.
    pub fn is_live(&self, actor: Incarnation) -> bool
        ensures { result ≡ is_live (shown self.now).lives actor }
    {
        let row = self.row(actor.slot);
        row.lives && row.generation == actor.generation.0
    }

    /// Whether a container lives, as its part's owner sees it: one that another controller owns lives from
    /// the start to the end.
    pub fn counts_as_live(&self, wiring: &Wiring, me: ControllerId, actor: Incarnation) -> bool
        ensures { result ≡ counts_as_live wiring.now me.0 (shown self.now).lives actor }
    {
        if is_own(wiring, me, actor.slot) {
            self.is_live(actor)
        } else {
            true
        }
    }

    /// The generation that is known in a slot: what lives there if it is the controller's own, else what
    /// its owner told last.
    #[tactic(auto, unfolding(crate::specs::Known::known_in))]
    pub fn known(&self, wiring: &Wiring, me: ControllerId, slot: SlotId) -> Option<Generation>
        ensures { result ≡ some_generation (known_in wiring.now me.0 (shown self.now) slot.0) }
    {
        let row = self.row(slot);
        let generation = if !is_own(wiring, me, slot) {
            row.told
        } else if row.lives {
            row.generation
        } else {
            0
        };
        if generation == 0 {
            None
        } else {
            Some(Generation(generation))
        }
    }

    /// An actor is made in a slot, with the next generation. Where the numbers of generations are used
    /// up, after 4,294,967,295 actors in the slot, want of memory is answered.
    pub fn raise(&mut self, slot: SlotId) -> Result<Incarnation, AllocError>
        requires { slot.0 < (shown self.old).slots }
        ensures actor { IfOk result (λ x.
            x ≡ incarnation slot.0 ((shown self.old).lives.generation slot.0 + 1)) }
        ensures now { OnOk result (shown self.new
            ≡ with_lives (shown self.old) (raised slot.0 (shown self.old).lives)) }
    {
        let row = self.rows.reach(usize::from(slot.0))?;
        let Some(generation) = row.generation.checked_add(1) else {
            return Err(AllocError);
        };
        row.generation = generation;
        row.lives = true;
        Ok(Incarnation {
            slot,
            generation: Generation(generation),
        })
    }

    /// The actor of a slot has ended. It takes no memory: where an actor lives, its row stands in a page.
    pub fn end(&mut self, slot: SlotId)
        requires { slot.0 < (shown self.old).slots }
        ensures { shown self.new
            ≡ with_lives (shown self.old) (ended slot.0 (shown self.old).lives) }
    {
        if let Some(row) = self.rows.get_mut(usize::from(slot.0)) {
            row.lives = false;
        }
    }

    /// This generation is known in a slot.
    fn tell(&mut self, slot: SlotId, generation: u32) -> Result<(), AllocError>
        requires { slot.0 < (shown self.old).slots }
        ensures { OnOk result (shown self.new
            ≡ with_told (shown self.old) (updated (shown self.old).told slot.0 generation)) }
    {
        let row = self.rows.reach(usize::from(slot.0))?;
        row.told = generation;
        Ok(())
    }

    /// Nobody is known in a slot any more. It takes no memory.
    fn tell_none(&mut self, slot: SlotId)
        requires { slot.0 < (shown self.old).slots }
        ensures { shown self.new
            ≡ with_told (shown self.old) (updated (shown self.old).told slot.0 0) }
    {
        if let Some(row) = self.rows.get_mut(usize::from(slot.0)) {
            row.told = 0;
        }
    }

    /// The owner of an actor's slot says that the actor came up (1) or went down (0).
    #[tactic(auto, unfolding(actor_duties::specs::Lives::announce))]
    pub fn hear(&mut self, actor: Incarnation, up: u64) -> Result<(), AllocError>
        requires { actor.slot.0 < (shown self.old).slots }
        ensures { OnOk result (shown self.new
            ≡ with_told (shown self.old) (announce (shown self.old).told actor up)) }
    {
        if up == 1 {
            self.tell(actor.slot, actor.generation.0)?;
        } else if up == 0 {
            self.tell_none(actor.slot);
        }
        Ok(())
    }
}

/// A row stands at a place of pages: it is written where another stands.
fn put(rows: &mut Pages<Row>, place: usize, row: Row) -> Result<(), AllocError>
    ensures { OnOk result (row_in rows.new ≡ updated (row_in rows.old) place row) }
{
    if rows.item(place).is_same(row) {
        return Ok(());
    }
    *rows.reach(place)? = row;
    Ok(())
}
