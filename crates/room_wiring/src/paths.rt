//! Paths that begin with one another.
ghost use Rattle.std.specs.Prelude.{◌≡◌, ◌++◌, ◌∷◌, ◌<◌, ℕ, List, [], Some, length, slice_get, IfOk, OnOk};
ghost use Rattle.std.specs.Option.{option_copied};
ghost use Rattle.room_wiring.specs.Paths.{path_at, paths_of, hash_behind, hash_of, ArePieces, IsLast, Ends};

use crate::path::Path;
use room_kinds::SharedSequence;
use std::alloc::{AllocError, Global};
use std::marker::Model;

/// The most bytes that a piece repeats of the path before it and adds to it. So short paths are whole.
const MOST_REPEATED: usize = 255;

/// The end of a path.
#[derive(Drop, Debug)]
pub(crate) struct Piece {
    /// The number of the earlier path that stands before it; none where the path begins here.
    pub(crate) before: Option<usize>,
    pub(crate) text: Vec<u8>,
    /// The hash of the whole path.
    pub(crate) hash: u64,
}

/// The hash of bytes that stand behind others with this hash.
fn hash_behind(front: u64, bytes: &[u8]) -> u64
    ensures { result ≡ hash_behind front bytes.now }
{
    let mut hash = front;
    for byte in bytes {
        hash = hash
            .wrapping_mul(1_099_511_628_211)
            .wrapping_add(u64::from(*byte));
    }
    hash
}

/// The hash of a path.
pub(crate) fn hash_of(path: &[u8]) -> u64
    ensures { result ≡ hash_of path.now }
{
    hash_behind(0, path)
}

/// One text behind another.
fn joined(alloc: Global, front: &[u8], end: &[u8]) -> Result<Vec<u8>, AllocError>
    ensures { IfOk result (λ v. v.items ≡ front.now ++ end.now) }
{
    let mut text = Vec::from_slice(alloc, front)?;
    text.extend_from_slice(end)?;
    Ok(text)
}

/// The piece with which a path ends that has these bytes behind the path with this number and last piece.
fn piece_on(
    alloc: Global,
    before: Option<usize>,
    last: &Piece,
    end: &[u8],
) -> Result<Piece, AllocError>
    ensures { IfOk result (λ p. (paths : List (List ℕ)) → IsLast paths before (Some last.now)
        → Ends paths (path_at paths before) end.now p) }
{
    let hash = hash_behind(last.hash, end);
    let front = last.text.as_slice();
    if front.len() <= MOST_REPEATED && end.len() <= MOST_REPEATED - front.len() {
        let before = last.before;
        let text = joined(alloc, front, end)?;
        return Ok(Piece { before, text, hash });
    }
    let text = Vec::from_slice(alloc, end)?;
    Ok(Piece { before, text, hash })
}

/// Paths by number, which contracts see as their list. A path may begin with an earlier one: then that
/// one's text is kept once, but for a short end of it.
#[derive(Drop, Debug)]
pub struct Paths {
    pieces: Vec<Piece>,
}

impl Model for Paths {
    ghost use Rattle.std.specs.Prelude.{List, ℕ, []};
    ghost use Rattle.room_wiring.specs.Paths.{paths_of, ArePieces};

    ghost Value = { List (List ℕ) };

    ghost view = { λ p. paths_of p.pieces.items };

    ghost invariant = { λ p. ArePieces [] p.pieces.items };
}

impl Paths {
    /// No paths. It takes no memory.
    #[tactic(auto, unfolding(crate::specs::Paths::paths_with, crate::specs::Paths::ArePieces))]
    pub fn new(alloc: Global) -> Paths
        ensures { result ≡ [] }
    {
        Paths {
            pieces: Vec::new(alloc),
        }
    }

    /// Adds the path that has these bytes behind the path with a number; these alone, where no path has
    /// the number, or where none is given. It takes time and memory in proportion to these bytes, and to
    /// at most 255 bytes of the path before.
    pub fn add(
        &mut self,
        alloc: Global,
        before: Option<usize>,
        end: &[u8],
    ) -> Result<(), AllocError>
        ensures { OnOk result (self.new ≡ self.old ++ (path_at self.old before ++ end.now) ∷ []) }
    {
        let piece = piece_behind(alloc, self.pieces.as_slice(), before, end)?;
        self.pieces.push(piece)?;
        Ok(())
    }

    /// The paths, for any number of owners.
    pub fn share(self, alloc: Global) -> Result<SharedPaths, AllocError>
        ensures { IfOk result (λ s. s ≡ self) }
    {
        let pieces = SharedSequence::of(alloc, self.pieces)?;
        Ok(SharedPaths { pieces })
    }
}

fn piece_with(pieces: &[Piece], number: usize) -> Option<&Piece>
    ensures { option_copied result ≡ slice_get pieces.now number }
{
    pieces.get(number)
}

/// The piece that ends the path of a number, if there is such a path.
fn last_piece(pieces: &[Piece], number: Option<usize>) -> Option<&Piece>
    requires { ArePieces [] pieces.now }
    ensures { IsLast (paths_of pieces.now) number (option_copied result) }
{
    match number {
        Some(number) => piece_with(pieces, number),
        None => None,
    }
}

/// The piece with which a path ends that has these bytes behind another path.
fn piece_behind(
    alloc: Global,
    pieces: &[Piece],
    before: Option<usize>,
    end: &[u8],
) -> Result<Piece, AllocError>
    requires { ArePieces [] pieces.now }
    ensures { IfOk result (λ p. Ends (paths_of pieces.now) (path_at (paths_of pieces.now) before) end.now p) }
{
    match last_piece(pieces, before) {
        Some(last) => piece_on(alloc, before, last, end),
        None => Ok(Piece {
            before: None,
            text: Vec::from_slice(alloc, end)?,
            hash: hash_behind(0, end),
        }),
    }
}

/// Paths by number, which contracts see as their list, and whose texts are shared.
#[derive(Drop, Debug)]
pub struct SharedPaths {
    pieces: SharedSequence<Piece>,
}

impl Model for SharedPaths {
    ghost use Rattle.std.specs.Prelude.{List, ℕ, []};
    ghost use Rattle.room_wiring.specs.Paths.{paths_of, ArePieces};

    ghost Value = { List (List ℕ) };

    ghost view = { λ p. paths_of p.pieces };

    ghost invariant = { λ p. ArePieces [] p.pieces };
}

impl SharedPaths {
    /// The path with a number. It takes no memory.
    pub fn path(&self, number: usize) -> Result<Path, AllocError>
        requires { number < length self.now }
        ensures { IfOk result (λ p. slice_get self.now number ≡ Some p) }
    {
        Ok(Path::of(self.pieces.share()?, number))
    }
}
