//! The paths of slots, which share their texts.
ghost use Rattle.std.specs.Prelude.{◌≡◌, ◌<◌, ◌++◌, [], Some, IfOk, IfSome, OnOk, length, nat_eq};
ghost use Rattle.std.specs.List.{slice_index_or};
ghost use lib.Pointwise.{pointwise};
ghost use Rattle.room_wiring.specs.Paths.{path_of, paths_of, ArePieces, hash_of};
ghost use Rattle.room_outside.specs.line_text.Output.{Puts};

use crate::paths::{Paths, Piece};
use room_kinds::SharedSequence;
use room_outside::{Failed, LineBuffer, Sink};
use std::alloc::{AllocError, Global};
use std::marker::Model;

/// A path, which contracts see as the list of its bytes. A long one stands in pieces, of which other
/// paths have the first ones too: the path of a slot begins with that of the slot around it, and that
/// one's text is kept once.
#[derive(Drop, Debug)]
pub struct Path {
    pieces: SharedSequence<Piece>,
    /// The number of its last piece.
    number: usize,
}

impl Model for Path {
    ghost use Rattle.std.specs.Prelude.{List, ℕ, ◌<◌, [], length};
    ghost use Rattle.std.specs.List.{slice_index_or};
    ghost use Rattle.room_wiring.specs.Paths.{paths_of, ArePieces};

    ghost Value = { List ℕ };

    ghost view = { λ p. slice_index_or (paths_of p.pieces) p.number [] };

    ghost invariant = { λ p. ArePieces [] p.pieces × (p.number < length p.pieces) };
}

impl Path {
    /// The path that ends with the piece of this number.
    pub(crate) fn of(pieces: SharedSequence<Piece>, number: usize) -> Path
        requires pieces { ArePieces [] pieces }
        requires there { number < length pieces }
        ensures { result ≡ slice_index_or (paths_of pieces) number [] }
    {
        Path { pieces, number }
    }

    /// The hash of the path.
    pub(crate) fn hash(&self) -> u64
        ensures { result ≡ hash_of self.now }
    {
        piece_at(self.pieces.as_slice(), self.number).hash
    }

    /// A path with a text of its own.
    pub fn from_bytes(alloc: Global, bytes: &[u8]) -> Result<Path, AllocError>
        ensures { IfOk result (λ p. p ≡ bytes.now) }
    {
        let mut paths = Paths::new(alloc);
        paths.add(alloc, None, bytes)?;
        paths.share(alloc)?.path(0)
    }

    /// Whether the path has these bytes.
    pub fn is(&self, bytes: &[u8]) -> bool
        ensures { result ≡ pointwise nat_eq self.now bytes.now }
    {
        has_path(self.pieces.as_slice(), self.number, bytes)
    }

    /// Adds the path to a line.
    #[inline(always)]
    pub fn put<K: Sink>(&self, out: &mut LineBuffer, sink: &mut K) -> Result<(), Failed>
        ensures { Puts result
            (record { written = K.written sink.old; held = out.old })
            (record { written = K.written sink.new; held = out.new })
            self.now }
    {
        put_path(self.pieces.as_slice(), self.number, out, sink)
    }

    /// Adds the path to a text.
    pub fn push_to(&self, text: &mut Vec<u8>) -> Result<(), AllocError>
        ensures { OnOk result (text.new.items ≡ text.old.items ++ self.now) }
    {
        push_path(self.pieces.as_slice(), self.number, text)
    }

    /// The path in one piece.
    pub fn to_vec(&self, alloc: Global) -> Result<Vec<u8>, AllocError>
        ensures { IfOk result (λ v. v.items ≡ self.now) }
    {
        let mut text = Vec::new(alloc);
        self.push_to(&mut text)?;
        Ok(text)
    }
}

/// The piece of this number, which ends the path of this number.
fn piece_at(pieces: &[Piece], number: usize) -> &Piece
    requires pieces { ArePieces [] pieces.now }
    requires there { number < length pieces.now }
    ensures path { slice_index_or (paths_of pieces.now) number [] ≡ path_of (paths_of pieces.now) result.now }
    ensures behind { IfSome result.now.before (λ n. n < number) }
    ensures hash { result.now.hash ≡ hash_of (slice_index_or (paths_of pieces.now) number []) }
{
    &pieces[number]
}

/// Whether the path that ends with the piece of this number has these bytes.
fn has_path(pieces: &[Piece], number: usize, bytes: &[u8]) -> bool
    requires pieces { ArePieces [] pieces.now }
    requires there { number < length pieces.now }
    ensures { result ≡ pointwise nat_eq (slice_index_or (paths_of pieces.now) number []) bytes.now }
{
    let piece = piece_at(pieces, number);
    let Some(cut) = bytes.len().checked_sub(piece.text.len()) else {
        return false;
    };
    let (front, end) = bytes.split_at(cut);
    if end != piece.text.as_slice() {
        return false;
    }
    match piece.before {
        Some(before) => has_path(pieces, before, front),
        None => front.is_empty(),
    }
}

/// Adds the path that ends with the piece of this number to a line.
fn put_path<K: Sink>(
    pieces: &[Piece],
    number: usize,
    out: &mut LineBuffer,
    sink: &mut K,
) -> Result<(), Failed>
    requires pieces { ArePieces [] pieces.now }
    requires there { number < length pieces.now }
    ensures { Puts result
        (record { written = K.written sink.old; held = out.old })
        (record { written = K.written sink.new; held = out.new })
        (slice_index_or (paths_of pieces.now) number []) }
{
    let piece = piece_at(pieces, number);
    let text = piece.text.as_slice();
    match piece.before {
        Some(before) => {
            put_path(pieces, before, out, sink)?;
            out.put(sink, text)
        }
        None => out.put(sink, text),
    }
}

/// Adds the path that ends with the piece of this number to a text.
fn push_path(pieces: &[Piece], number: usize, text: &mut Vec<u8>) -> Result<(), AllocError>
    requires pieces { ArePieces [] pieces.now }
    requires there { number < length pieces.now }
    ensures { OnOk result (text.new.items ≡ text.old.items ++ slice_index_or (paths_of pieces.now) number []) }
{
    let piece = piece_at(pieces, number);
    match piece.before {
        Some(before) => {
            push_path(pieces, before, text)?;
            text.extend_from_slice(piece.text.as_slice())
        }
        None => text.extend_from_slice(piece.text.as_slice()),
    }
}
