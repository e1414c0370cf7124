//! How many places of each side are taken.
ghost use Rattle.std.specs.Prelude.{◌≡◌, ℕ, ◌+◌, ◌*◌, ◌^◌, ◌<◌, OnOk};
ghost use Rattle.wiring_places.specs.place_rules.Stretches.{side_number, none_taken, take_more, taken_after};
ghost use Rattle.wiring_places.specs.binding_stretches.Taken.{taken_in};

use std::alloc::{AllocError, Global};
use std::collections::HashMap;
use wiring_plan::{BindingPlan, SidePlan};

/// How many places of each side, by its number, are taken.
#[derive(Drop)]
pub struct Taken {
    counts: HashMap<u64, u64>,
}

/// The number of a port of the class itself as a side of a binding.
pub fn own_number(port: u16) -> u64
    ensures { result ≡ port }
{
    u64::from(port)
}

/// The number of a port of a reference's class as a side of a binding.
pub fn inner_number(reference: u16, port: u16) -> u64
    ensures { result ≡ (reference + 1) * 65536 + port }
{
    (u64::from(reference) + 1) * 65536 + u64::from(port)
}

/// The number of a side of a binding.
pub(crate) fn side_number(side: SidePlan) -> u64
    ensures { result ≡ side_number side }
{
    match side {
        SidePlan::Own { port } => own_number(port),
        SidePlan::Inner { reference, port } => inner_number(reference, port),
    }
}

impl Taken {
    /// Nothing is taken. It takes no memory.
    #[tactic(auto, unfolding(crate::specs::binding_stretches::Taken::taken_in))]
    pub fn new(alloc: Global) -> Taken
        ensures { taken_in result ≡ none_taken }
    {
        Taken {
            counts: HashMap::new(alloc),
        }
    }

    /// How many places of a side are taken.
    #[tactic(auto, unfolding(crate::specs::binding_stretches::Taken::taken_in))]
    pub fn at(&self, side: u64) -> u64
        ensures { result ≡ taken_in self.now side }
    {
        self.counts.get(&side).copied().unwrap_or(0)
    }

    /// Takes `count` more places of a side.
    #[tactic(auto, unfolding(crate::specs::binding_stretches::Taken::taken_in))]
    pub fn take(&mut self, side: u64, count: u64) -> Result<(), AllocError>
        requires { taken_in self.old side + count < 2 ^ 64 }
        ensures { OnOk result ((other : ℕ)
            → taken_in self.new other ≡ take_more (taken_in self.old) side count other) }
    {
        let after = self.at(side) + count;
        self.counts.insert(side, after)?;
        Ok(())
    }

    /// Takes `count` more places of both sides of a binding.
    pub(crate) fn take_both(&mut self, binding: BindingPlan, count: u64) -> Result<(), AllocError>
        requires { (side : ℕ) → taken_after (taken_in self.old) binding count side < 2 ^ 64 }
        ensures { OnOk result ((side : ℕ)
            → taken_in self.new side ≡ taken_after (taken_in self.old) binding count side) }
    {
        self.take(side_number(binding.left), count)?;
        self.take(side_number(binding.right), count)?;
        Ok(())
    }
}
