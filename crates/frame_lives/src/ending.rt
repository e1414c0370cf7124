//! The lives' part of an end: the end set of a slot ends.
ghost use Rattle.std.specs.Prelude.{◌≡◌, ◌<◌, ◌==◌, ◌&&◌, ◌||◌, ◌++◌, ◌∷◌, [], length, map, if◌then◌else◌, All, IfOk, OnOk};
ghost use Rattle.actor_duties.specs.Words.{is_own};
ghost use Rattle.actor_duties.specs.Lives.{ended_slots, last_of};
ghost use Rattle.frame_lives.specs.Shown.{shown, with_lives};
ghost use Rattle.frame_lives.specs.Steps.{ends_with, lives_without};
ghost use Rattle.service_messages.specs.Sites.{IsSite};

use crate::slot_lives::SlotLives;
use room_kinds::{ControllerId, Incarnation, Sequence, SlotId};
use room_wiring::Wiring;
use service_messages::{Site, container_of, is_fixed, is_optional, is_own};
use std::alloc::AllocError;

impl SlotLives {
    /// Whether a slot ends with its container: it is fixed, or optional and lives, in a container of the
    /// controller's own.
    fn ends_with_container(&self, wiring: &Wiring, me: ControllerId, slot: SlotId) -> bool
        ensures { result ≡ ends_with wiring.now me.0 (shown self.now).lives slot.0 }
    {
        match container_of(wiring, slot) {
            Some(container) => {
                is_fixed(wiring, slot)
                    || (is_optional(wiring, slot)
                        && self.lives(slot)
                        && is_own(wiring, me, container))
            }
            None => false,
        }
    }

    /// Whether the end of slot `top` reaches a slot, where it reaches the slot's container.
    fn is_reached(&self, wiring: &Wiring, me: ControllerId, top: SlotId, slot: SlotId) -> bool
        ensures { result
            ≡ ((slot.0 == top.0) || ends_with wiring.now me.0 (shown self.now).lives slot.0) }
    {
        slot == top || self.ends_with_container(wiring, me, slot)
    }

    /// Adds the actor of a slot to those that end, if it lives and is the controller's own.
    fn add_ending(
        &self,
        wiring: &Wiring,
        me: ControllerId,
        slot: SlotId,
        ending: &mut Sequence<Incarnation>,
    ) -> Result<(), AllocError>
        ensures { OnOk result (ending.new
            ≡ (if is_own wiring.now me.0 slot.0 && (shown self.now).lives.lives slot.0
            then ending.old ++ last_of (shown self.now).lives slot.0 ∷ []
            else ending.old)) }
    {
        if is_own(wiring, me, slot) && self.lives(slot) {
            ending.push(self.last_of(slot))?;
        }
        Ok(())
    }

    /// The actors that go down when a slot ends at this controller, in descending slot order: those of
    /// its part here, and with each the same of each live optional slot in it. What isn't reached is
    /// passed over in one step.
    pub fn ending(&self, site: &Site<'_>, slot: SlotId) -> Result<Sequence<Incarnation>, AllocError>
        requires site { IsSite site.now }
        requires there { slot.0 < length site.now.wiring.now.slots }
        ensures { IfOk result (λ xs.
            xs ≡ map (last_of (shown self.now).lives) (ended_slots site.now.wiring.now site.now.me.0
            (shown self.now).lives slot.0)) }
    {
        let end = site.runs.end(site.wiring, slot);
        let mut ending = Sequence::new(site.alloc);
        let mut next = u32::from(slot.0);
        while next < end {
            let here = SlotId(next as u16);
            if self.is_reached(site.wiring, site.me, slot, here) {
                self.add_ending(site.wiring, site.me, here, &mut ending)?;
                next += 1;
            } else {
                next = site.runs.end(site.wiring, here);
            }
        }
        let mut ending = ending.into_vec();
        ending.reverse();
        Ok(Sequence::from(ending))
    }

    /// These actors have ended. The time is in proportion to their number.
    pub fn end_all(&mut self, ended: &[Incarnation])
        requires { All (λ x. x.slot.0 < (shown self.old).slots) ended.now }
        ensures { shown self.new
            ≡ with_lives (shown self.old) (lives_without ended.now (shown self.old).lives) }
    {
        for actor in ended {
            self.end(actor.slot);
        }
    }
}
