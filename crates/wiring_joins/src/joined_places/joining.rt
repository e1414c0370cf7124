//! Pairs of faces, and what is joined by them.
ghost use Rattle.std.specs.Prelude.{◌≡◌, ◌+◌, ◌^◌, ◌<◌, ◌≤◌, length, IfOk};
ghost use Rattle.number_graphs.specs.face_chains.Chains.{AreBelow};
ghost use Rattle.wiring_places.specs.place_rules.Partners.{partners};
ghost use Rattle.wiring_places.specs.slot_children.Table.{IsTableOf};
ghost use Rattle.wiring_places.specs.place_spans.Containers.{AreContainers, TakesFew};
ghost use Rattle.wiring_joins.specs.joined_places.Wired.{pairs_at, partners_by};

use crate::place_joins::{across_faces, partners_of};
use number_graphs::{FacePair, far_ends};
use room_wiring::{Partner, PlaceSpan, Slot};
use std::alloc::{AllocError, Global};
use wiring_places::{Children, ClassStretches, LayerJoin, Place, container_pairs, layer_pairs};
use wiring_plan::StructurePlan;

/// What is known of slots when the faces of their places are paired.
#[derive(Clone, Copy)]
pub(crate) struct Paired<'a> {
    pub plan: &'a StructurePlan,
    pub slots: &'a [Slot],
    pub children: &'a Children,
    pub containers: &'a [ClassStretches],
    pub joins: &'a [LayerJoin],
}

/// The pairs of faces of the places that stand so in their row: those of bindings, and then those of
/// layer connections.
pub(crate) fn all_pairs(
    alloc: Global,
    known: Paired,
    first_ports: &[u32],
    spans: &[PlaceSpan],
) -> Result<Vec<FacePair>, AllocError>
    requires few { length known.slots.now ≤ 2 ^ 16 }
    requires children { IsTableOf known.children.now known.slots.now }
    requires containers { AreContainers known.plan.now known.slots.now known.containers.now }
    requires taken { TakesFew known.plan.now known.slots.now }
    requires faces { AreBelow (2 ^ 32) (pairs_at known.plan.now known.slots.now first_ports.now
        spans.now known.joins.now) }
    ensures { IfOk result (λ v.
        v.items ≡ pairs_at known.entry.plan.now known.entry.slots.now first_ports.now spans.now
        known.entry.joins.now) }
{
    let mut pairs = container_pairs(
        alloc,
        known.plan,
        known.slots,
        known.children,
        known.containers,
        first_ports,
        spans,
    )?;
    let mut layers = layer_pairs(alloc, first_ports, spans, known.joins)?;
    pairs.append(&mut layers)?;
    Ok(pairs)
}

/// What each place is joined to, where these faces are paired.
#[tactic(auto, unfolding(crate::specs::joined_places::Wired::partners_by))]
pub(crate) fn partners_by(
    alloc: Global,
    places: &[Place],
    pairs: &[FacePair],
) -> Result<Vec<Partner>, AllocError>
    requires { length places.now < 2 ^ 31 }
    ensures { IfOk result (λ v. v.items ≡ partners_by places.now pairs.now) }
{
    let across = across_faces(alloc, places)?;
    let far = far_ends(alloc, across.as_slice(), pairs)?;
    let partners = partners_of(alloc, places, far.as_slice())?;
    Ok(partners)
}
