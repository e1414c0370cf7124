//! The places of all slots.
ghost use Rattle.std.specs.Prelude.{◌≡◌, ◌^◌, ◌<◌, ◌≤◌, true, length, sum, IfOk, MatchOption};
ghost use Rattle.wiring_places.specs.place_rules.Counts.{counts};
ghost use Rattle.wiring_places.specs.place_rules.Pairs.{lacks_place};
ghost use Rattle.wiring_places.specs.place_rules.Parts.{HasFewPorts};
ghost use Rattle.wiring_places.specs.place_spans.Containers.{AreContainers};
ghost use Rattle.wiring_joins.specs.joined_places.Wired.{ArePlacesOf, HasFewPlaces};

use crate::joined_places::joining::{Paired, all_pairs, partners_by};
use crate::layer_joins::layer_joins;
use room_kinds::Sequence;
use room_wiring::{Partner, PlaceSpan, Slot};
use std::alloc::{AllocError, Global};
use wiring_places::{
    ClassStretches, LayerJoin, Place, all_places, children_table, container_stretches, first_ports,
    port_counts, served_table, spans_of,
};
use wiring_plan::StructurePlan;

/// The places of the ports of all slots.
#[derive(Drop)]
pub struct WiredPlaces {
    /// For each slot the row of its port 0 in `spans`; its other ports follow.
    pub first_ports: Sequence<u32>,
    /// Where the places of each port of each slot stand in `places`.
    pub spans: Sequence<PlaceSpan>,
    pub places: Vec<Place>,
    /// What each place is joined to.
    pub partners: Sequence<Partner>,
}

/// How many places each port of each slot has, where these are the joins of layer connections.
fn counts_of(
    alloc: Global,
    plan: &StructurePlan,
    slots: &[Slot],
    containers: &[ClassStretches],
    joins: &[LayerJoin],
) -> Result<Vec<u32>, AllocError>
    requires few { length slots.now ≤ 2 ^ 16 }
    requires ports { HasFewPorts plan.now }
    requires containers { AreContainers plan.now slots.now containers.now }
    requires places { sum (counts plan.now slots.now joins.now) < 2 ^ 32 }
    ensures { IfOk result (λ v. v.items ≡ counts plan.now slots.now joins.now) }
{
    let served = served_table(alloc, joins)?;
    let counts = port_counts(alloc, plan, slots, containers, &served)?;
    Ok(counts)
}

/// The places of the ports of all slots, where the bindings of the containers take so much.
fn places_with(
    alloc: Global,
    plan: &StructurePlan,
    slots: &[Slot],
    containers: &[ClassStretches],
) -> Result<WiredPlaces, AllocError>
    requires few { length slots.now ≤ 2 ^ 16 }
    requires ports { HasFewPorts plan.now }
    requires containers { AreContainers plan.now slots.now containers.now }
    requires places { HasFewPlaces plan.now slots.now }
    ensures { IfOk result (λ p. ArePlacesOf plan.now slots.now p) }
{
    let children = children_table(alloc, slots)?;
    let joins = layer_joins(alloc, plan, slots, &children)?;
    let counts = counts_of(alloc, plan, slots, containers, joins.as_slice())?;
    let spans = spans_of(alloc, counts.as_slice())?;
    let first_ports = first_ports(alloc, plan, slots)?;
    let places = all_places(alloc, plan, slots, counts.as_slice())?;
    let known = Paired {
        plan,
        slots,
        children: &children,
        containers,
        joins: joins.as_slice(),
    };
    let pairs = all_pairs(alloc, known, first_ports.as_slice(), spans.as_slice())?;
    let partners = partners_by(alloc, places.as_slice(), pairs.as_slice())?;
    Ok(WiredPlaces {
        first_ports: Sequence::from(first_ports),
        spans: Sequence::from(spans),
        places,
        partners: Sequence::from(partners),
    })
}

/// The places of the ports of all slots of a structure, and what each is joined to; none where some
/// binding pairs nothing. It takes time in proportion to the slots, their ports and places, and the
/// layer connections, and for each service access point to the depth of its slot at most.
pub fn wired_places(
    alloc: Global,
    plan: &StructurePlan,
    slots: &[Slot],
) -> Result<Option<WiredPlaces>, AllocError>
    requires few { length slots.now ≤ 2 ^ 16 }
    requires ports { HasFewPorts plan.now }
    requires places { HasFewPlaces plan.now slots.now }
    ensures { IfOk result (λ o.
        MatchOption o (lacks_place plan.now slots.now ≡ true)
        (λ p. ArePlacesOf plan.now slots.now p)) }
{
    let Some(containers) = container_stretches(alloc, plan, slots)? else {
        return Ok(None);
    };
    let places = places_with(alloc, plan, slots, containers.as_slice())?;
    Ok(Some(places))
}
