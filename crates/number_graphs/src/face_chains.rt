//! The ends of chains of paired faces.
//!
//! A place of a port has faces, which bindings pair. A message that comes to one face of a relay port's
//! place leaves by its other face, so that a chain of pairs leads from one actor's behaviour to
//! another's. Faces are numbers here; what they stand for is the caller's matter.
ghost use Rattle.std.specs.Prelude.{◌≡◌, ℕ, ◌<◌, length, slice_index, slice_set, IfOk};
ghost use Rattle.number_graphs.specs.face_chains.Chains.{far_ends, far_ends_joined, IsInvolution, IsMatching, AreBelow, ShowsChains};

use std::alloc::{AllocError, Global};

/// Two faces that are paired.
#[derive(Clone, Copy, Drop, Debug, PartialEq, Eq)]
pub struct FacePair {
    pub left: u32,
    pub right: u32,
}

/// The far end of a face; 0 where there is no such face.
fn far_end(far: &[u32], face: u32) -> u32
    ensures { result ≡ slice_index far.now face }
{
    far.get(face as usize).copied().unwrap_or(0)
}

fn set_far_end(far: &mut [u32], face: u32, end: u32)
    ensures { far.new ≡ slice_set far.old face end }
{
    if (face as usize) < far.len() {
        far[face as usize] = end;
    }
}

/// Pairs two faces: the faces at their far ends become the far ends of one another.
#[tactic(auto, unfolding(crate::specs::face_chains::Chains::far_ends_joined))]
fn join(far: &mut [u32], pair: FacePair)
    ensures { far.new ≡ far_ends_joined far.old pair }
{
    let left = far_end(far, pair.left);
    let right = far_end(far, pair.right);
    set_far_end(far, left, right);
    set_far_end(far, right, left);
}

/// Pairs the faces of each pair, the last first. The order makes no difference to the chains.
#[tactic(auto, using(crate::proofs::face_chains::Steps::far_ends_none, crate::proofs::face_chains::Steps::far_ends_before))]
fn join_all(far: &mut [u32], pairs: &[FacePair])
    ensures { far.new ≡ far_ends far.old pairs.now }
{
    let mut left = pairs.len();
    while left > 0 {
        left -= 1;
        join(far, pairs[left]);
    }
}

/// The far ends once all these pairs stand, from those before any.
fn joined(alloc: Global, across: &[u32], pairs: &[FacePair]) -> Result<Vec<u32>, AllocError>
    ensures { IfOk result (λ far. far.items ≡ far_ends across.now pairs.now) }
{
    let mut far = Vec::from_slice(alloc, across)?;
    join_all(far.as_mut_slice(), pairs);
    Ok(far)
}

/// For each face the face at the far end of the chain that begins across it, once all these pairs
/// stand. `across` says what lies across each face. No chain is followed: it takes time in proportion
/// to the faces and the pairs. Where no face stands in two pairs, the far ends say where the chains lead.
pub fn far_ends(alloc: Global, across: &[u32], pairs: &[FacePair]) -> Result<Vec<u32>, AllocError>
    ensures ends { IfOk result (λ far. far.items ≡ far_ends across.now pairs.now) }
    ensures chains { IfOk result (λ far. IsInvolution across.now → IsMatching pairs.now → AreBelow (length across.now) pairs.now → ShowsChains across.now pairs.now far.items) }
{
    let far = joined(alloc, across, pairs)?;
    Ok(far)
}
