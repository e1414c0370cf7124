//! The partner of each place.
ghost use Rattle.std.specs.Prelude.{◌≡◌, ◌/◌, ◌^◌, ◌<◌, List, length, slice_get, slice_index, Some, IfOk};
ghost use Rattle.std.specs.Option.{option_copied};
ghost use Rattle.number_graphs.specs.declared.face_chains.FacePair.{FacePair as AnyPair};
ghost use Rattle.number_graphs.specs.face_chains.Chains.{ShowsChains};
ghost use Rattle.wiring_joins.specs.place_joins.Joined.{PairsInnerFacesOfRelays, ShowsJoins};
ghost use Rattle.wiring_places.specs.place_rules.Partners.{partner_of_role, partner_at_end, partners, across_places};

use room_kinds::SlotId;
use room_wiring::Partner;
use std::alloc::{AllocError, Global};
use wiring_places::{Place, Role};

fn far_end(far: &[u32], face: u32) -> u32
    ensures { result ≡ slice_index far.now face }
{
    far.get(face as usize).copied().unwrap_or(0)
}

fn place_of_face(places: &[Place], face: u32) -> Option<&Place>
    ensures { option_copied result ≡ slice_get places.now (face / 2) }
{
    places.get((face / 2) as usize)
}

/// A place as the end of a chain.
fn partner_of_role(place: Place) -> Partner
    ensures { result ≡ partner_of_role place.role place }
{
    let slot = SlotId(place.slot);
    match place.role {
        Role::Relay => Partner::Nobody,
        Role::End => Partner::End {
            slot,
            port: place.port,
            place: place.place,
        },
        Role::Socket => Partner::Socket {
            slot,
            port: place.port,
            place: place.place,
        },
    }
}

/// What a place with this outer face is joined to.
fn partner_at_end(places: &[Place], far: &[u32], face: u32, place: Place) -> Partner
    ensures { result ≡ partner_at_end places.now far.now face place }
{
    if place.role.is_relay() {
        return Partner::Nobody;
    }
    let end = far_end(far, face);
    if end == face {
        return Partner::Nobody;
    }
    match place_of_face(places, end) {
        Some(other) => partner_of_role(*other),
        None => Partner::Nobody,
    }
}

/// The partners of all places.
fn partner_row(alloc: Global, places: &[Place], far: &[u32]) -> Result<Vec<Partner>, AllocError>
    requires { length places.now < 2 ^ 31 }
    ensures { IfOk result (λ v. v.items ≡ partners places.now far.now) }
{
    let mut all = Vec::new(alloc);
    let mut face = 0u32;
    for place in places {
        all.push(partner_at_end(places, far, face, *place))?;
        face += 2;
    }
    Ok(all)
}

/// What each place is joined to, where `far` says what lies at the far end of the chain from each
/// face. If those are the far ends of chains of pairs, in which only places that pass messages on have
/// their inner faces paired, then each place is told the one that it is joined to by them. It takes
/// time in proportion to the places.
pub fn partners_of(alloc: Global, places: &[Place], far: &[u32]) -> Result<Vec<Partner>, AllocError>
    requires { length places.now < 2 ^ 31 }
    ensures row { IfOk result (λ v. v.items ≡ partners places.now far.now) }
    ensures joins { IfOk result (λ v.
        (pairs : List AnyPair)
        → ShowsChains (across_places places.now) pairs far.now
        → PairsInnerFacesOfRelays places.now pairs
        → ShowsJoins places.now pairs v.items) }
{
    let all = partner_row(alloc, places, far)?;
    Ok(all)
}
