//! Where the places of each port stand.
ghost use Rattle.std.specs.Prelude.{◌≡◌, ◌^◌, ◌<◌, ◌≤◌, length, sum, IfOk};
ghost use Rattle.wiring_places.specs.place_rules.Parts.{HasFewPorts, class_plan};
ghost use Rattle.wiring_places.specs.place_rules.Counts.{spans_from, first_ports_from};

use room_wiring::{PlaceSpan, Slot};
use std::alloc::{AllocError, Global};
use wiring_plan::StructurePlan;

/// Where these many places each stand in a row.
#[tactic(auto, using(crate::proofs::place_spans::SpanSteps::spans_more, crate::proofs::place_spans::SpanSteps::spans_end))]
pub fn spans_of(alloc: Global, counts: &[u32]) -> Result<Vec<PlaceSpan>, AllocError>
    requires { sum counts.now < 2 ^ 32 }
    ensures { IfOk result (λ v. v.items ≡ spans_from 0 counts.now) }
{
    let mut row = Vec::new(alloc);
    let mut first = 0u32;
    for count in counts {
        row.push(PlaceSpan {
            first,
            count: *count,
        })?;
        first += *count;
    }
    Ok(row)
}

/// How many ports the class of a slot has.
fn port_number(plan: &StructurePlan, slot: &Slot) -> u32
    requires { HasFewPorts plan.now }
    ensures { result ≡ length (class_plan plan.now slot.now.class).ports }
{
    match plan.classes.as_slice().get(usize::from(slot.class)) {
        Some(class) => class.ports.len() as u32,
        None => 0,
    }
}

/// Where the ports of each slot begin in the list of all ports.
#[tactic(auto, using(crate::proofs::place_spans::SpanSteps::first_ports_more, crate::proofs::place_spans::SpanSteps::first_ports_end))]
pub fn first_ports(
    alloc: Global,
    plan: &StructurePlan,
    slots: &[Slot],
) -> Result<Vec<u32>, AllocError>
    requires few { length slots.now ≤ 2 ^ 16 }
    requires ports { HasFewPorts plan.now }
    ensures { IfOk result (λ v. v.items ≡ first_ports_from plan.now 0 slots.now) }
{
    let mut rows = Vec::new(alloc);
    let mut row = 0u32;
    for slot in slots {
        rows.push(row)?;
        row += port_number(plan, slot);
    }
    Ok(rows)
}
