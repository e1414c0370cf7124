//! The mappings of a model in order of declaration, each before those in its braces.
//!
//! Those in the braces of a mapping begin with its path. So where it goes on, they go on alike, and
//! one look tells of all. And of the path of each only what it adds to the path before it is kept, so
//! that mappings nested in each other take room in proportion to what is written.

ghost use Rattle.std.specs.Prelude.{◌≡◌, ◌<◌, ◌≤◌, ◌+◌, ◌^◌, [], length, OnOk, OnSome};
ghost use Rattle.wiring_slots.specs.slot_tree.Continuing.{last_steps, with_mapping};
ghost use Rattle.wiring_slots.specs.slot_tree.MappingOrders.{EndsAlike, IsGroup};
ghost use Rattle.wiring_slots.specs.slot_tree.Owners.{next_step, mapped_at};

use crate::slot_tree::names::{MappingPlan, StepPlan};
use crate::slot_tree::owners::Trail;
use crate::slot_tree::runs::Run;
use room_kinds::ControllerId;
use std::alloc::{AllocError, Global};
use std::marker::Model;

/// A mapping whose path begins as the path of the mapping before it.
#[derive(Drop)]
pub(crate) struct Continued {
    /// How many steps are those of the path before it.
    pub(crate) kept: usize,
    /// The steps behind them, and the controller.
    pub(crate) own: MappingPlan,
}

/// Mappings in order of declaration. Contracts see them as their list, each with its whole path.
#[derive(Drop)]
pub struct MappingOrder {
    plans: Vec<Continued>,
    /// For each mapping where those in its braces end; 0 where it has none.
    ends: Vec<usize>,
}

impl Model for MappingOrder {
    ghost use Rattle.std.specs.Prelude.{List, []};
    ghost use Rattle.wiring_slots.specs.declared.slot_tree.names.MappingPlan.{MappingPlan};
    ghost use Rattle.wiring_slots.specs.slot_tree.Continuing.{plans_behind, IsOrder};

    ghost Value = { List MappingPlan };

    ghost view = { λ m. plans_behind [] m.plans.items };

    ghost invariant = { λ m. IsOrder m.plans.items m.ends.items };
}

impl MappingOrder {
    /// No mappings. It takes no memory.
    #[tactic(auto, using(crate::proofs::slot_tree::Continuing::no_order))]
    pub fn new(alloc: Global) -> MappingOrder
        ensures { result ≡ [] }
    {
        MappingOrder {
            plans: Vec::new(alloc),
            ends: Vec::new(alloc),
        }
    }

    #[tactic(auto, using(crate::proofs::slot_tree::Continuing::count_is))]
    pub fn len(&self) -> usize
        ensures { result ≡ length self.now }
    {
        self.plans.len()
    }

    /// Adds a mapping: its path has the first so many steps of the path of the last one, and then
    /// these. Who walks the mappings has the whole path in memory, and so knows that they are few.
    pub(crate) fn push(&mut self, kept: usize, own: MappingPlan) -> Result<(), AllocError>
        requires there { kept ≤ length (last_steps [] self.old) }
        requires few { kept + length own.steps < 2 ^ 64 }
        ensures { OnOk result (self.new ≡ with_mapping kept own self.old) }
    {
        self.ends.push(0)?;
        self.plans.push(Continued { kept, own })?;
        Ok(())
    }

    /// Says that all mappings from this one on are it and those in its braces.
    pub(crate) fn close(&mut self, first: usize)
        requires inside { first < length self.old }
        requires alike { EndsAlike self.old first (length self.old) }
        ensures { self.new ≡ self.old }
    {
        self.ends[first] = self.plans.len();
    }

    /// The step with which a trail goes on, if its mapping has more of them. The mappings before it
    /// are looked at where the step is one of theirs.
    pub(crate) fn next_step(&self, trail: Trail) -> Option<StepPlan>
        ensures value { result ≡ next_step self.now trail }
        ensures within { OnSome result (trail.steps + 1 < 2 ^ 64) }
    {
        let mut at = trail.mapping;
        while let Some(mapping) = self.plans.as_slice().get(at) {
            if mapping.kept <= trail.steps {
                return mapping.own_step(trail.steps);
            }
            at -= 1;
        }
        None
    }

    /// The controller of a trail's mapping, where the trail has all its steps.
    pub(crate) fn mapped_at(&self, trail: Trail) -> Option<ControllerId>
        ensures { result ≡ mapped_at self.now trail }
    {
        let Some(mapping) = self.plans.as_slice().get(trail.mapping) else {
            return None;
        };
        if mapping.has_steps(trail.steps) {
            Some(mapping.own.controller)
        } else {
            None
        }
    }

    /// Up to which mapping those from this one on have its path.
    fn end_of(&self, first: usize) -> usize
        ensures { EndsAlike self.now first result }
    {
        match self.ends.as_slice().get(first) {
            Some(end) => *end,
            None => 0,
        }
    }

    /// The first trails of what is left of a run from a mapping on that go on alike.
    pub(crate) fn group_at(&self, run: Run, first: usize) -> Run
        requires { first < run.end }
        ensures { IsGroup self.now run first result }
    {
        let trail = Trail {
            mapping: first,
            steps: run.steps,
        };
        let end = match self.next_step(trail) {
            Some(_) => self.end_of(first),
            None => 0,
        };
        Run {
            first,
            end: within(first + 1, run.end, end),
            steps: run.steps,
        }
    }
}

impl Continued {
    ghost use Rattle.std.specs.Prelude.{◌≡◌, ◌≤◌, ◌-◌, ◌==◌, ◌+◌, length, slice_get};

    /// The step of the whole path at a place behind those that are kept, if there is one.
    fn own_step(&self, place: usize) -> Option<StepPlan>
        requires { self.now.kept ≤ place }
        ensures { result ≡ slice_get self.now.own.steps (place - self.now.kept) }
    {
        self.own.steps.as_slice().get(place - self.kept).copied()
    }

    /// Whether the whole path has so many steps.
    fn has_steps(&self, count: usize) -> bool
        ensures { result ≡ (count == self.now.kept + length self.now.own.steps) }
    {
        count >= self.kept && count - self.kept == self.own.steps.len()
    }
}

/// The number, or the nearer of these bounds.
fn within(least: usize, most: usize, number: usize) -> usize
    requires { least ≤ most }
    ensures low { least ≤ result }
    ensures high { result ≤ most }
    ensures kept { least < result → result ≤ number }
{
    if number <= least {
        least
    } else if most < number {
        most
    } else {
        number
    }
}
