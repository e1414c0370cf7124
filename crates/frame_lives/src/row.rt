//! What is known of one slot.
ghost use Rattle.std.specs.Prelude.{◌≡◌, IsTrue};

use crate::blank::Blank;
use std::alloc::Global;

/// The last generation of an own slot, 0 before the first, and whether it lives; and the generation that
/// the owner of another slot told last, 0 for none.
#[derive(Clone, Copy)]
pub struct Row {
    pub generation: u32,
    pub lives: bool,
    pub told: u32,
}

impl Row {
    /// Whether two rows say the same.
    pub fn is_same(self, other: Row) -> bool
        ensures same { IsTrue result → self ≡ other }
        ensures found { self ≡ other → IsTrue result }
    {
        self.generation == other.generation && self.lives == other.lives && self.told == other.told
    }
}

/// A slot in which nothing ever stood.
pub const NO_ROW: Row = Row {
    generation: 0,
    lives: false,
    told: 0,
};

impl Blank for Row {
    ghost use Rattle.std.specs.Prelude.{false};

    ghost no_item = { record { generation = 0; lives = false; told = 0 } };

    fn blank(_alloc: Global) -> Row {
        NO_ROW
    }
}
