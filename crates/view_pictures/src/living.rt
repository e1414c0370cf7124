//! Who lives in the slots at a stamp of a run, what is lent, and how many messages wait.
use journal::Left;
use room_kinds::{Incarnation, PlaceState, SlotId};
use room_show::{ActorView, Snapshot};
use room_wiring::{Slot, Wiring};
use std::alloc::{AllocError, Global};
use view_journals::{actor_at, actor_of_number};

/// The system at a stamp of a run, and the messages that wait there: those that were fetched and had no turn yet, and
/// those on their way.
#[derive(Clone, Copy)]
pub struct Scene<'a> {
    pub wiring: &'a Wiring,
    pub snapshot: &'a Snapshot,
    pub waiting: &'a [Left],
}

/// What is known of the slots of a scene, by their numbers.
#[derive(Drop)]
pub struct Living<'a> {
    /// Who lives there.
    actors: Vec<Option<&'a ActorView>>,
    /// What the import place of the slot holds, if its container lives.
    places: Vec<Option<PlaceState>>,
    /// The imported slot to which the actor is lent that lives there.
    lent: Vec<Option<SlotId>>,
    /// How many messages wait for who is there.
    waiting: Vec<u32>,
    /// How many messages wait for nobody who is there.
    pub lost: u32,
    /// The block that shows the slot.
    blocks: Vec<Option<usize>>,
}

/// What a row has at the place of a slot.
fn at<T>(row: &Vec<T>, slot: SlotId) -> Option<&T> {
    row.as_slice().get(usize::from(slot.0))
}

fn set<T: Drop>(row: &mut Vec<T>, slot: SlotId, value: T) {
    if let Some(place) = row.as_mut_slice().get_mut(usize::from(slot.0)) {
        *place = value;
    }
}

/// The actor that an import place has, or gives back.
fn held_in(wiring: &Wiring, state: PlaceState) -> Option<Incarnation> {
    match state {
        PlaceState::Empty | PlaceState::Asking(_) => None,
        PlaceState::Held(home) | PlaceState::Leaving(home) => {
            actor_of_number(wiring, i64::try_from(home).ok()?)
        }
    }
}

impl<'a> Living<'a> {
    /// Nobody in any slot of a wiring.
    fn nobody(alloc: Global, wiring: &Wiring) -> Result<Living<'a>, AllocError> {
        let count = wiring.slot_count() as usize;
        Ok(Living {
            actors: vec![in alloc; None; count]?,
            places: vec![in alloc; None; count]?,
            lent: vec![in alloc; None; count]?,
            waiting: vec![in alloc; 0; count]?,
            lost: 0,
            blocks: vec![in alloc; None; count]?,
        })
    }

    /// Those of a scene. No block shows them yet.
    pub fn of(alloc: Global, scene: Scene<'a>) -> Result<Living<'a>, AllocError> {
        let mut living = Living::nobody(alloc, scene.wiring)?;
        for controller in scene.snapshot.controllers.as_slice() {
            for actor in controller.actors.as_slice() {
                set(&mut living.actors, actor.who.slot, Some(actor));
            }
            for place in controller.places.as_slice() {
                set(&mut living.places, place.slot, Some(place.state));
            }
        }
        living.lend(scene);
        for left in scene.waiting {
            living.count(actor_at(left.msg.target));
        }
        Ok(living)
    }

    /// Keeps of those who are lent where they are.
    fn lend(&mut self, scene: Scene<'_>) {
        for controller in scene.snapshot.controllers.as_slice() {
            for place in controller.places.as_slice() {
                if let Some(home) = held_in(scene.wiring, place.state) {
                    set(&mut self.lent, home.slot, Some(place.slot));
                }
            }
        }
    }

    /// Whether a message comes to somebody in its slot: to the actor, where those of the environment are for whoever
    /// is there, or to the import place.
    fn is_there(&self, target: Incarnation) -> bool {
        match self.actor(target.slot) {
            Some(actor) => { target.generation.0 == 0 || actor.who.generation == target.generation }
            None => self.place(target.slot).is_some(),
        }
    }

    /// Counts a message for a slot.
    fn count(&mut self, target: Incarnation) {
        if !self.is_there(target) {
            self.lost = self.lost.saturating_add(1);
        } else if let Some(count) = self
            .waiting
            .as_mut_slice()
            .get_mut(usize::from(target.slot.0))
        {
            *count = count.saturating_add(1);
        }
    }

    /// Who lives in a slot.
    pub fn actor(&self, slot: SlotId) -> Option<&'a ActorView> {
        match at(&self.actors, slot) {
            Some(actor) => *actor,
            None => None,
        }
    }

    /// Whether an actor lives.
    pub fn lives(&self, who: Incarnation) -> bool {
        match self.actor(who.slot) {
            Some(actor) => actor.who == who,
            None => false,
        }
    }

    /// What the import place of a slot holds, if its container lives.
    pub fn place(&self, slot: SlotId) -> Option<PlaceState> {
        match at(&self.places, slot) {
            Some(place) => *place,
            None => None,
        }
    }

    /// The imported slot to which the actor of a slot is lent.
    pub fn lent_to(&self, slot: SlotId) -> Option<SlotId> {
        match at(&self.lent, slot) {
            Some(lent) => *lent,
            None => None,
        }
    }

    /// How many messages wait for the actor or the import place of a slot.
    pub fn waiting(&self, slot: SlotId) -> u32 {
        at(&self.waiting, slot).copied().unwrap_or(0)
    }

    /// The block that shows a slot, if one does.
    pub fn block(&self, slot: SlotId) -> Option<usize> {
        match at(&self.blocks, slot) {
            Some(block) => *block,
            None => None,
        }
    }

    /// Keeps which block shows a slot.
    pub fn keep_block(&mut self, slot: SlotId, block: usize) {
        set(&mut self.blocks, slot, Some(block));
    }

    /// The next container of a slot that is shown; none where no container is.
    pub fn container_of(&self, wiring: &Wiring, slot: &Slot) -> Option<SlotId> {
        let mut parent = slot.parent;
        for _deep in 0..wiring.slot_count() {
            let container = parent?;
            if self.block(container).is_some() {
                return Some(container);
            }
            parent = match wiring.get_slot(container) {
                Some(slot) => slot.parent,
                None => None,
            };
        }
        None
    }
}
