//! What lies across each face.
ghost use Rattle.std.specs.Prelude.{◌≡◌, ◌^◌, ◌<◌, length, IfOk, if◌then◌else◌};
ghost use Rattle.number_graphs.specs.face_chains.Chains.{IsInvolution};
ghost use Rattle.wiring_places.specs.place_rules.Partners.{is_relay_role, across_places};

use std::alloc::{AllocError, Global};
use wiring_places::{Place, Role};

/// What lies across a face of a place with this role.
fn across_face(role: Role, face: u32, other: u32) -> u32
    ensures { result ≡ (if is_relay_role role then other else face) }
{
    if role.is_relay() { other } else { face }
}

/// The faces across all faces.
fn across_row(alloc: Global, places: &[Place]) -> Result<Vec<u32>, AllocError>
    requires { length places.now < 2 ^ 31 }
    ensures { IfOk result (λ v. v.items ≡ across_places places.now) }
{
    let mut across = Vec::new(alloc);
    let mut face = 0u32;
    for place in places {
        let inner = face + 1;
        let outside = across_face(place.role, face, inner);
        let inside = across_face(place.role, inner, face);
        across.push(outside)?;
        across.push(inside)?;
        face += 2;
    }
    Ok(across)
}

/// For each face of each place the face across it: the place's other face where the place passes
/// messages on, and itself elsewhere. It takes time in proportion to the places.
pub fn across_faces(alloc: Global, places: &[Place]) -> Result<Vec<u32>, AllocError>
    requires { length places.now < 2 ^ 31 }
    ensures row { IfOk result (λ v. v.items ≡ across_places places.now) }
    ensures involution { IfOk result (λ v. IsInvolution v.items) }
{
    let across = across_row(alloc, places)?;
    Ok(across)
}
