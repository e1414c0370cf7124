//! The stretches of the bindings of a class.
ghost use Rattle.std.specs.Prelude.{◌≡◌, ℕ, ◌^◌, ◌<◌, [], IfOk};
ghost use Rattle.wiring_places.specs.place_rules.Stretches.{pair_count, stretch, stretches, all_taken, stretches_from, taken_from, none_taken};
ghost use Rattle.wiring_places.specs.binding_stretches.Taken.{taken_in};

use crate::binding_stretches::supply::supply;
use crate::binding_stretches::taken::{Taken, side_number};
use crate::place_rules::{Stretch, Supply};
use std::alloc::{AllocError, Global};
use wiring_plan::{BindingPlan, ClassPlan, StructurePlan};

/// What the bindings of a class take, in order of declaration, and what they take of each side
/// together.
#[derive(Drop)]
pub struct ClassStretches {
    pub stretches: Vec<Stretch>,
    pub taken: Taken,
}

/// How many places are paired where `left_taken` and `right_taken` were taken before.
fn pair_count(left: Supply, left_taken: u64, right: Supply, right_taken: u64) -> u64
    ensures { result ≡ pair_count left left_taken right right_taken }
{
    match (left, right) {
        (Supply::Limited(m), Supply::Limited(n)) => {
            m.saturating_sub(left_taken)
                .min(n.saturating_sub(right_taken))
        }
        (Supply::Limited(m), Supply::Growing) => m.saturating_sub(left_taken),
        (Supply::Growing, Supply::Limited(n)) => n.saturating_sub(right_taken),
        (Supply::Growing, Supply::Growing) => 0,
    }
}

/// What a binding takes where this is taken.
fn stretch(plan: &StructurePlan, class: &ClassPlan, taken: &Taken, binding: BindingPlan) -> Stretch
    ensures { result ≡ stretch plan.now class.now (taken_in taken.now) binding }
{
    let left_number = side_number(binding.left);
    let right_number = side_number(binding.right);
    let left = taken.at(left_number);
    let right = taken.at(right_number);
    let left_supply = supply(plan, class, binding.left);
    let right_supply = supply(plan, class, binding.right);
    let most = pair_count(left_supply, left, right_supply, right);
    let count = if left_number == right_number { 0 } else { most };
    Stretch { left, right, count }
}

/// What no bindings take: nothing. It takes no memory.
pub fn no_stretches(alloc: Global) -> ClassStretches
    ensures stretches { result.stretches.items ≡ [] }
    ensures taken { taken_in result.taken ≡ none_taken }
{
    ClassStretches {
        stretches: Vec::new(alloc),
        taken: Taken::new(alloc),
    }
}

/// What these bindings of a class take.
fn stretches_of(
    alloc: Global,
    plan: &StructurePlan,
    class: &ClassPlan,
    bindings: &[BindingPlan],
) -> Result<ClassStretches, AllocError>
    requires { (side : ℕ) → taken_from plan.now class.now none_taken bindings.now side < 2 ^ 64 }
    ensures stretches { IfOk result (λ r.
        r.stretches.items ≡ stretches_from plan.now class.now none_taken bindings.now) }
    ensures taken { IfOk result (λ r.
        taken_in r.taken ≡ taken_from plan.now class.now none_taken bindings.now) }
{
    let mut taken = Taken::new(alloc);
    let mut stretches = Vec::new(alloc);
    for binding in bindings {
        let next = stretch(plan, class, &taken, *binding);
        taken.take_both(*binding, next.count)?;
        stretches.push(next)?;
    }
    Ok(ClassStretches { stretches, taken })
}

/// What the bindings of a class take. It takes time in proportion to them.
pub fn class_stretches(
    alloc: Global,
    plan: &StructurePlan,
    class: &ClassPlan,
) -> Result<ClassStretches, AllocError>
    requires { (side : ℕ) → all_taken plan.now class.now side < 2 ^ 64 }
    ensures stretches { IfOk result (λ r. r.stretches.items ≡ stretches plan.now class.now) }
    ensures taken { IfOk result (λ r. taken_in r.taken ≡ all_taken plan.now class.now) }
{
    stretches_of(alloc, plan, class, class.bindings.as_slice())
}
