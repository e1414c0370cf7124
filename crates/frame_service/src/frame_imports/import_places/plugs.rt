//! The plugs of one slot.
ghost use Rattle.std.specs.Prelude.{◌≡◌, ◌++◌, ◌∷◌, [], not, filter, OnOk};
ghost use Rattle.actor_duties.specs.Words.{is_incarnation};

use crate::frame_imports::import_places::place::is_same_actor;
use frame_lives::Blank;
use room_kinds::Incarnation;
use std::alloc::{AllocError, Global};
use std::marker::Model;

/// The import places that hold what stands in a slot, each as an imported slot in the generation of its
/// container, oldest first.
#[derive(Drop)]
pub struct Plugs {
    items: Vec<Incarnation>,
}

impl Model for Plugs {
    ghost use Rattle.std.specs.Prelude.{List};
    ghost use Rattle.room_kinds.specs.declared.numbers.Incarnation.{Incarnation};

    ghost Value = { List Incarnation };

    ghost view = { λ p. p.items.items };
}

impl Blank for Plugs {
    ghost no_item = { [] };

    fn blank(alloc: Global) -> Plugs {
        Plugs {
            items: Vec::new(alloc),
        }
    }
}

impl Plugs {
    pub fn as_slice(&self) -> &[Incarnation]
        ensures { result.now ≡ self.now }
    {
        self.items.as_slice()
    }

    /// One more, the youngest.
    pub fn push(&mut self, plug: Incarnation) -> Result<(), AllocError>
        ensures { OnOk result (self.new ≡ self.old ++ plug ∷ []) }
    {
        self.items.push(plug)?;
        Ok(())
    }

    /// This one goes, if it is there.
    pub fn remove(&mut self, plug: Incarnation)
        ensures { self.new ≡ filter (λ q. not (is_incarnation q plug)) self.old }
    {
        self.items.retain(|other| !is_same_actor(*other, plug));
    }

    /// All go.
    pub fn clear(&mut self)
        ensures { self.new ≡ [] }
    {
        self.items.clear();
    }
}
