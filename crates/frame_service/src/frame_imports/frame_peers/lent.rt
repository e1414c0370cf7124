//! Who is lent to whom.
ghost use Rattle.std.specs.Prelude.{◌≡◌, ℕ, List};
ghost use Rattle.room_kinds.specs.declared.numbers.Incarnation.{Incarnation};
ghost use Rattle.actor_duties.specs.State.{ImportPlace};
ghost use Rattle.actor_duties.specs.Imports.{tied_home};
ghost use Rattle.frame_service.specs.frame_imports.frame_peers.Parts.{held_home};

use room_kinds::{Incarnation, SlotId};

/// What a controller keeps of imports: what each imported slot of its own containers holds, and for each
/// of its own slots the import places that hold what stands there.
pub trait Lent {
    /// For each imported slot what it holds.
    ghost places: { Self → ℕ → ImportPlace };

    /// For each slot its plugs, oldest first.
    ghost plugs: { Self → ℕ → List Incarnation };

    /// The home that an imported slot holds. It takes no memory.
    fn held(&self, slot: SlotId) -> Option<Incarnation>
        ensures { result ≡ held_home (places self.now slot.0) };

    /// The home that an imported slot asks for or holds. It takes no memory.
    fn tied(&self, slot: SlotId) -> Option<Incarnation>
        ensures { result ≡ tied_home (places self.now slot.0) };

    /// The import places that hold what stands in a slot, oldest first. It takes no memory.
    fn plugs_of(&self, slot: SlotId) -> &[Incarnation]
        ensures { result.now ≡ plugs self.now slot.0 };
}
