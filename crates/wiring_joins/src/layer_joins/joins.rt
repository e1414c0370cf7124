//! The joins of all service access points.
ghost use Rattle.std.specs.Prelude.{◌≡◌, ℕ, ◌^◌, ◌≤◌, ◌++◌, Some, length, IfOk, OnOk};
ghost use Rattle.wiring_places.specs.place_rules.Parts.{HasFewPorts, inside_of};
ghost use Rattle.wiring_places.specs.place_rules.Layers.{is_sap, join_of, port_join, port_joins, layer_joins};
ghost use Rattle.wiring_places.specs.slot_children.Table.{IsTableOf};
ghost use Rattle.wiring_joins.specs.layer_joins.Indexes.{AreIndexes};

use crate::layer_joins::indexes::{Indexes, indexes_of};
use crate::layer_joins::service::service;
use room_kinds::PortKind;
use room_wiring::Slot;
use std::alloc::{AllocError, Global};
use wiring_places::{Children, LayerJoin};
use wiring_plan::{PortPlan, StructurePlan};

fn is_sap(kind: PortKind) -> bool
    ensures { result ≡ is_sap kind }
{
    match kind {
        PortKind::Sap => true,
        PortKind::Frame => false,
        PortKind::Relay => false,
        PortKind::End => false,
        PortKind::Internal => false,
        PortKind::Spp => false,
    }
}

/// The service for a port, if it is a service access point.
fn service_of_port(
    plan: &StructurePlan,
    slots: &[Slot],
    children: &Children,
    indexes: &Indexes,
    slot: u16,
    port: PortPlan,
) -> Option<(u16, u16)>
    requires children { IsTableOf children.now slots.now }
    requires indexes { AreIndexes plan.now indexes.now }
    ensures { (p : ℕ) → join_of slot p result ≡ port_join plan.now slots.now slot p port }
{
    if is_sap(port.kind) {
        service(plan, slots, children, indexes, slot, port.protocol)
    } else {
        None
    }
}

fn add_join(
    joins: &mut Vec<LayerJoin>,
    slot: u16,
    sap: u16,
    to: Option<(u16, u16)>,
) -> Result<(), AllocError>
    ensures { OnOk result (joins.new.items ≡ joins.old.items ++ join_of slot sap to) }
{
    match to {
        Some(to) => {
            joins.push(LayerJoin {
                sap_slot: slot,
                sap,
                spp_slot: to.0,
                spp: to.1,
            })?;
            Ok(())
        }
        None => Ok(()),
    }
}

/// Adds what the ports of a slot are joined to.
#[tactic(auto, using(crate::proofs::layer_joins::JoinSteps::port_joins_more, crate::proofs::layer_joins::JoinSteps::port_joins_end))]
fn add_port_joins(
    joins: &mut Vec<LayerJoin>,
    plan: &StructurePlan,
    slots: &[Slot],
    children: &Children,
    indexes: &Indexes,
    slot: u16,
    ports: &[PortPlan],
) -> Result<(), AllocError>
    requires children { IsTableOf children.now slots.now }
    requires indexes { AreIndexes plan.now indexes.now }
    requires few { length ports.now ≤ 65535 }
    ensures { OnOk result (joins.new.items
        ≡ joins.old.items ++ port_joins plan.now slots.now slot 0 ports.now) }
{
    for (p, port) in ports.iter().enumerate() {
        let to = service_of_port(plan, slots, children, indexes, slot, *port);
        add_join(joins, slot, p as u16, to)?;
    }
    Ok(())
}

/// The ports inside a slot; an imported slot has no inside.
fn inside_ports<'a>(plan: &'a StructurePlan, slot: &Slot) -> &'a [PortPlan]
    requires { HasFewPorts plan.now }
    ensures ports { result.now ≡ (inside_of plan.now (Some slot.now)).ports }
    ensures few { length result.now ≤ 65535 }
{
    if slot.kind.is_imported() {
        return &[];
    }
    match plan.classes.as_slice().get(usize::from(slot.class)) {
        Some(class) => class.ports.as_slice(),
        None => &[],
    }
}

fn slot_joins(
    alloc: Global,
    plan: &StructurePlan,
    slots: &[Slot],
    children: &Children,
    indexes: &Indexes,
) -> Result<Vec<LayerJoin>, AllocError>
    requires few { length slots.now ≤ 2 ^ 16 }
    requires ports { HasFewPorts plan.now }
    requires children { IsTableOf children.now slots.now }
    requires indexes { AreIndexes plan.now indexes.now }
    ensures { IfOk result (λ joins. joins.items ≡ layer_joins plan.now slots.now) }
{
    let mut joins = Vec::new(alloc);
    for (s, slot) in slots.iter().enumerate() {
        let ports = inside_ports(plan, slot);
        add_port_joins(&mut joins, plan, slots, children, indexes, s as u16, ports)?;
    }
    Ok(joins)
}

/// The joins of service access points and service provision points, in order of slot and port.
/// `children` is the table of the slots. It takes time in proportion to the slots, their ports and the
/// layer connections, and for each service access point to the depth of its slot at most.
pub fn layer_joins(
    alloc: Global,
    plan: &StructurePlan,
    slots: &[Slot],
    children: &Children,
) -> Result<Vec<LayerJoin>, AllocError>
    requires few { length slots.now ≤ 2 ^ 16 }
    requires ports { HasFewPorts plan.now }
    requires children { IsTableOf children.now slots.now }
    ensures { IfOk result (λ joins. joins.items ≡ layer_joins plan.now slots.now) }
{
    let indexes = indexes_of(alloc, plan)?;
    slot_joins(alloc, plan, slots, children, &indexes)
}
