//! The pairs of service access points and service provision points.
ghost use Rattle.std.specs.Prelude.{◌≡◌, ℕ, ◌+◌, ◌*◌, ◌^◌, ◌<◌, [], ◌∷◌, ◌++◌, IfOk};
ghost use Rattle.number_graphs.specs.face_chains.Chains.{AreBelow};
ghost use Rattle.wiring_places.specs.binding_stretches.Taken.{taken_in};
ghost use Rattle.wiring_places.specs.place_rules.Counts.{span_of, service_key};
ghost use Rattle.wiring_places.specs.place_rules.Pairs.{layer_pairs};

use crate::binding_stretches::Taken;
use crate::place_pairs::sides::span_of;
use crate::place_rules::LayerJoin;
use crate::place_spans::service_key;
use number_graphs::FacePair;
use room_wiring::PlaceSpan;
use std::alloc::{AllocError, Global};

/// The outer face of the place at `k` of a port of a slot.
fn outer_face(first_ports: &[u32], spans: &[PlaceSpan], slot: u16, port: u16, k: u64) -> u32
    requires { 2 * ((span_of first_ports.now spans.now slot port).first + k) < 2 ^ 32 }
    ensures { result ≡ 2 * ((span_of first_ports.now spans.now slot port).first + k) }
{
    let first = u64::from(span_of(first_ports, spans, u32::from(slot), port).first);
    (2 * (first + k)) as u32
}

/// The pairs of service access points and service provision points. Those of one service provision
/// point take its places in order. It takes time in proportion to the joins.
pub fn layer_pairs(
    alloc: Global,
    first_ports: &[u32],
    spans: &[PlaceSpan],
    joins: &[LayerJoin],
) -> Result<Vec<FacePair>, AllocError>
    requires { AreBelow (2 ^ 32) (layer_pairs first_ports.now spans.now [] joins.now) }
    ensures { IfOk result (λ v. v.items ≡ layer_pairs first_ports.now spans.now [] joins.now) }
{
    let mut before = Taken::new(alloc);
    let mut pairs = Vec::new(alloc);
    for join in joins {
        let key = service_key(join.spp_slot, join.spp);
        let place = before.at(key);
        let left = outer_face(first_ports, spans, join.sap_slot, join.sap, 0);
        let right = outer_face(first_ports, spans, join.spp_slot, join.spp, place);
        pairs.push(FacePair { left, right })?;
        before.take(key, 1)?;
    }
    Ok(pairs)
}
