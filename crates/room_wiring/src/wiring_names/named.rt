//! Items that have names, and their names as numbers.
ghost use Rattle.std.specs.Prelude.{◌≡◌, map, OnOk};
ghost use Rattle.room_wiring.specs.wiring_names.Lookup.{numbering};

use crate::{Label, PortNames, SignalNames};
use name_tables::Numbers;
use std::alloc::AllocError;

/// What has a name.
pub trait Named {
    ghost use Rattle.std.specs.Prelude.{◌≡◌, List, ℕ};

    // The name.
    ghost name_of: { Self → List ℕ };

    fn name(&self) -> &[u8]
        ensures { result.now ≡ name_of self.now };
}

impl Named for PortNames {
    ghost name_of = { λ p. p.name };

    fn name(&self) -> &[u8] {
        self.name.as_bytes()
    }
}

impl Named for SignalNames {
    ghost name_of = { λ s. s.name };

    fn name(&self) -> &[u8] {
        self.name.as_bytes()
    }
}

impl Named for Label {
    ghost name_of = { λ l. l };

    fn name(&self) -> &[u8] {
        self.as_bytes()
    }
}

/// Numbers the names of these items after those that have numbers; a name that has one keeps it.
pub fn add_all<'a, T: Named>(numbers: &mut Numbers<'a>, items: &'a [T]) -> Result<(), AllocError>
    ensures { OnOk result (numbers.new ≡ numbering numbers.old (map T.name_of items.now)) }
{
    for item in items {
        numbers.add(item.name())?;
    }
    Ok(())
}
