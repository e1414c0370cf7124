//! Trails of mappings that follow each other, kept as one run: of mappings nested in each other all
//! go the same way until the first of them ends.

ghost use Rattle.std.specs.Prelude.{◌≡◌, ◌+◌, ◌<◌, ◌^◌, ◌++◌, [], map, IfOk, OnOk};
ghost use Rattle.std.specs.List.{flat_map, range_with_len};
ghost use Rattle.wiring_slots.specs.slot_tree.Runs.{trail_at, trails_of};

use crate::slot_tree::owners::Trail;
use std::alloc::{AllocError, Global};
use std::marker::Model;

/// The mappings from `first` up to `end`, each with so many steps.
#[derive(Clone, Copy, Drop)]
pub(crate) struct Run {
    pub(crate) first: usize,
    pub(crate) end: usize,
    pub(crate) steps: usize,
}

impl Run {
    /// The trail of the first mapping.
    pub(crate) fn head(self) -> Trail
        ensures { result ≡ trail_at self.steps self.first }
    {
        Trail {
            mapping: self.first,
            steps: self.steps,
        }
    }

    /// The same mappings, one step further.
    pub(crate) fn further(self) -> Run
        requires { self.steps + 1 < 2 ^ 64 }
        ensures { result ≡ record { first = self.first; end = self.end; steps = self.steps + 1 } }
    {
        Run {
            first: self.first,
            end: self.end,
            steps: self.steps + 1,
        }
    }
}

/// Trails, run by run. Contracts see them one by one.
#[derive(Drop)]
pub(crate) struct Trails {
    runs: Vec<Run>,
}

impl Model for Trails {
    ghost use Rattle.std.specs.Prelude.{List};
    ghost use Rattle.std.specs.List.{flat_map};
    ghost use Rattle.wiring_slots.specs.declared.slot_tree.owners.Trail.{Trail};
    ghost use Rattle.wiring_slots.specs.slot_tree.Runs.{trails_of};

    ghost Value = { List Trail };

    ghost view = { λ t. flat_map trails_of t.runs.items };
}

impl Trails {
    /// No trails. It takes no memory.
    pub(crate) fn new(alloc: Global) -> Trails
        ensures { result ≡ [] }
    {
        Trails {
            runs: Vec::new(alloc),
        }
    }

    /// So many mappings at their beginnings.
    pub(crate) fn all(alloc: Global, count: usize) -> Result<Trails, AllocError>
        ensures { IfOk result (λ t.
            t ≡ map (λ i. record { mapping = i; steps = 0 }) (range_with_len 0 count)) }
    {
        let mut trails = Trails::new(alloc);
        trails.push(Run {
            first: 0,
            end: count,
            steps: 0,
        })?;
        Ok(trails)
    }

    pub(crate) fn push(&mut self, run: Run) -> Result<(), AllocError>
        ensures { OnOk result (self.new ≡ self.old ++ trails_of run) }
    {
        self.runs.push(run)?;
        Ok(())
    }

    /// The same trails once more.
    pub(crate) fn copy(&self, alloc: Global) -> Result<Trails, AllocError>
        ensures { IfOk result (λ t. t ≡ self.now) }
    {
        let runs = Vec::from_slice(alloc, self.runs.as_slice())?;
        Ok(Trails { runs })
    }

    pub(crate) fn runs(&self) -> &[Run]
        ensures { flat_map trails_of result.now ≡ self.now }
    {
        self.runs.as_slice()
    }
}
