//! Marks for the controllers that are told of slots.
ghost use Rattle.std.specs.Prelude.{◌≡◌, ℕ, ◌+◌, ◌*◌, ◌^◌, ◌<◌, ◌≤◌, ◌==◌, ◌&&◌, false, IfOk};
ghost use Rattle.wiring_joins.specs.tellings.Marked.{marked, IsFor, Marking};

use std::alloc::{AllocError, Global};

/// For each slot whether all controllers are told of it, and for each slot and each controller whether
/// that controller is.
#[derive(Drop)]
pub struct Marks {
    pub controllers: u8,
    pub everyone: Vec<bool>,
    /// The marks of slot `s` begin at `s * controllers`.
    pub each: Vec<bool>,
}

impl Marks {
    /// No marks for so many slots and controllers.
    #[tactic(auto, unfolding(crate::specs::tellings::Marked::marked))]
    pub fn new(alloc: Global, slots: usize, controllers: u8) -> Result<Marks, AllocError>
        requires { slots ≤ 2 ^ 16 }
        ensures size { IfOk result (λ m. IsFor slots controllers m) }
        ensures none { IfOk result (λ m. (s d : ℕ) → marked m s d ≡ false) }
    {
        let everyone = vec![in alloc; false; slots]?;
        let each = vec![in alloc; false; slots * usize::from(controllers)]?;
        Ok(Marks {
            controllers,
            everyone,
            each,
        })
    }

    /// Where the mark for a slot and a controller stands.
    fn cell(&self, slot: u16, controller: u8) -> usize
        ensures { result ≡ slot * self.now.controllers + controller }
    {
        usize::from(slot) * usize::from(self.controllers) + usize::from(controller)
    }

    /// Whether a controller is told of a slot.
    #[tactic(auto, unfolding(crate::specs::tellings::Marked::marked))]
    pub fn has(&self, slot: u16, controller: u8) -> bool
        ensures { result ≡ marked self.now slot controller }
    {
        let everyone = self
            .everyone
            .get(usize::from(slot))
            .copied()
            .unwrap_or(false);
        let cell = self.cell(slot, controller);
        everyone || self.each.get(cell).copied().unwrap_or(false)
    }

    /// All controllers are told of a slot.
    pub fn tell_all(&mut self, slot: u16)
        ensures { (slots controllers : ℕ) → IsFor slots controllers self.old
            → Marking slots controllers (λ s d. slot == s) self.old self.new }
    {
        if usize::from(slot) < self.everyone.len() {
            self.everyone[usize::from(slot)] = true;
        }
    }

    /// A controller is told of a slot.
    pub fn tell(&mut self, slot: u16, controller: u8)
        ensures { (slots controllers : ℕ) → IsFor slots controllers self.old
            → Marking slots controllers (λ s d. (slot == s) && (controller == d)) self.old
            self.new }
    {
        if controller >= self.controllers {
            return;
        }
        let cell = self.cell(slot, controller);
        if cell < self.each.len() {
            self.each[cell] = true;
        }
    }
}
