//! The row of all places.
ghost use Rattle.std.specs.Prelude.{◌≡◌, ◌+◌, ◌^◌, ◌≤◌, ◌++◌, length, slice_index, IfOk, OnOk};
ghost use Rattle.wiring_places.specs.place_rules.Parts.{HasFewPorts, class_plan};
ghost use Rattle.wiring_places.specs.place_rules.Partners.{role_of, places_of_port, places_of_ports, all_places};

use crate::place_rules::{Place, Role};
use crate::place_spans::slot_counts::class_ports;
use room_kinds::PortKind;
use room_wiring::Slot;
use std::alloc::{AllocError, Global};
use wiring_plan::{PortPlan, StructurePlan};

/// What the places of a port do with messages.
fn role_of(imported: bool, kind: PortKind) -> Role
    ensures { result ≡ role_of imported kind }
{
    if imported {
        return Role::Socket;
    }
    match kind {
        PortKind::Relay => Role::Relay,
        PortKind::Frame => Role::End,
        PortKind::End => Role::End,
        PortKind::Internal => Role::End,
        PortKind::Sap => Role::End,
        PortKind::Spp => Role::End,
    }
}

fn count_at(counts: &[u32], row: u32, port: u16) -> u32
    ensures { result ≡ slice_index counts.now (row + port) }
{
    counts
        .get(row as usize + usize::from(port))
        .copied()
        .unwrap_or(0)
}

/// Adds `count` places of a port.
fn add_places(
    places: &mut Vec<Place>,
    slot: u16,
    port: u16,
    role: Role,
    count: u32,
) -> Result<(), AllocError>
    ensures { OnOk result (places.new.items
        ≡ places.old.items ++ places_of_port slot port role 0 count) }
{
    for place in 0..count {
        places.push(Place {
            slot,
            port,
            place,
            role,
        })?;
    }
    Ok(())
}

/// Adds the places of the ports of a slot, whose counts stand in `counts` from `row` on.
#[tactic(auto, using(crate::proofs::place_spans::RowSteps::port_more))]
fn add_port_places(
    places: &mut Vec<Place>,
    imported: bool,
    slot: u16,
    counts: &[u32],
    row: u32,
    ports: &[PortPlan],
) -> Result<(), AllocError>
    requires { length ports.now ≤ 65535 }
    ensures { OnOk result (places.new.items
        ≡ places.old.items ++ places_of_ports imported slot counts.now row 0 ports.now) }
{
    for (p, port) in ports.iter().enumerate() {
        let number = p as u16;
        let role = role_of(imported, port.kind);
        add_places(places, slot, number, role, count_at(counts, row, number))?;
    }
    Ok(())
}

/// The places of all ports of all slots, which have these counts, in a row. It takes time in
/// proportion to the ports and the places.
#[tactic(auto, using(crate::proofs::place_spans::RowSteps::slot_more))]
pub fn all_places(
    alloc: Global,
    plan: &StructurePlan,
    slots: &[Slot],
    counts: &[u32],
) -> Result<Vec<Place>, AllocError>
    requires few { length slots.now ≤ 2 ^ 16 }
    requires ports { HasFewPorts plan.now }
    ensures { IfOk result (λ v. v.items ≡ all_places plan.now slots.now counts.now) }
{
    let mut places = Vec::new(alloc);
    let mut row = 0u32;
    for (s, slot) in slots.iter().enumerate() {
        let ports = class_ports(plan, slot.class);
        let imported = slot.kind.is_imported();
        add_port_places(&mut places, imported, s as u16, counts, row, ports)?;
        row += ports.len() as u32;
    }
    Ok(places)
}
