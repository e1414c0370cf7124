//! A text as tokens.
ghost use Rattle.std.specs.Prelude.{◌≡◌, ◌<◌, ◌≤◌, ◌++◌, length, ℕ, List, [], Ok, Err, map, IfOk, OnOk};
ghost use Rattle.room_lexer.specs.Front.{front};
ghost use Rattle.room_lexer.specs.Cutting.{Gives, tokens, tokens_of, fault_at};
ghost use Rattle.room_lexer.specs.Cut.{Piece, CutTo, placed, FailsAt, slice, token_texts, Rises};

use crate::fault::LexFault;
use crate::piece::{Cause, Kind, front};
use crate::token::Token;
use std::alloc::{AllocError, Global};

/// For how many tokens more than a half of them there is room when a list grows.
const FEW_TOKENS: usize = 16;

/// Makes room for another token. Lists grow by a half, so that tokens take less room than twice
/// that of those that are there.
fn make_room(tokens: &mut Vec<Token>) -> Result<(), AllocError>
    ensures { tokens.new.items ≡ tokens.old.items }
{
    if tokens.len() < tokens.capacity() {
        return Ok(());
    }
    tokens.reserve_exact(tokens.len() / 2 + FEW_TOKENS)
}

/// Adds the token of a piece, if it is one.
fn add(tokens: &mut Vec<Token>, kind: Kind, start: usize, end: usize) -> Result<(), AllocError>
    ensures { OnOk result (tokens.new.items ≡ tokens.old.items ++ tokens_of kind start end) }
{
    if let Kind::Token(kind) = kind {
        make_room(tokens)?;
        tokens.push(Token { kind, start, end })?;
    }
    Ok(())
}

fn fault(cause: Cause, at: usize) -> LexFault
    ensures { result ≡ fault_at cause at }
{
    match cause {
        Cause::BadByte => LexFault::BadByte(at),
        Cause::OpenString => LexFault::OpenString(at),
        Cause::OpenComment => LexFault::OpenComment(at),
        Cause::NumberTooLarge => LexFault::NumberTooLarge(at),
    }
}

/// What stands at the front, which is not empty and no longer than the bytes.
#[inline(always)]
pub fn next_piece(bytes: &[u8]) -> Result<(Kind, usize), Cause>
    ensures value { result ≡ front bytes.now }
    ensures within { IfOk result (λ x. (0 < x.1) × (x.1 ≤ length bytes.now)) }
{
    front(bytes)
}

fn all(alloc: Global, bytes: &[u8]) -> Result<Vec<Token>, LexFault>
    ensures { Gives result (tokens bytes.now) }
{
    let mut tokens = Vec::new(alloc);
    let mut at = 0;
    let mut rest = bytes;
    while !rest.is_empty() {
        let (kind, len) = match next_piece(rest) {
            Ok(found) => found,
            Err(cause) => return Err(fault(cause, at)),
        };
        add(&mut tokens, kind, at, at + len)?;
        let (_, after) = rest.split_at(len);
        rest = after;
        at += len;
    }
    Ok(tokens)
}

/// The tokens of a text, from left to right. Blanks, comments and documentations are passed over.
/// It takes time linear in the bytes.
pub fn lex(alloc: Global, bytes: &[u8]) -> Result<Vec<Token>, LexFault>
    // They are those of the cut.
    ensures found { IfOk result (λ v. (ps : List Piece) × CutTo bytes.now ps [] × (v.items ≡ placed 0 ps)) }
    // What has a cut has its tokens, unless memory runs out.
    ensures only { (ps : List Piece) → CutTo bytes.now ps [] → Gives result (Ok (placed 0 ps)) }
    // A fault stands where the cut can't go on.
    ensures bad_byte { (at : ℕ) → result ≡ Err (LexFault.BadByte at) → FailsAt Cause.BadByte at bytes.now }
    ensures open_string { (at : ℕ) → result ≡ Err (LexFault.OpenString at) → FailsAt Cause.OpenString at bytes.now }
    ensures open_comment { (at : ℕ) → result ≡ Err (LexFault.OpenComment at) → FailsAt Cause.OpenComment at bytes.now }
    ensures too_large { (at : ℕ) → result ≡ Err (LexFault.NumberTooLarge at) → FailsAt Cause.NumberTooLarge at bytes.now }
    // The same as one function of the bytes.
    ensures tokens { Gives result (tokens bytes.now) }
{
    all(alloc, bytes)
}

/// Each token's text is its slice, and each token begins at the end of the one before or behind it.
pub fn spans()
    ensures texts { (bytes : List ℕ) (ps : List Piece) → CutTo bytes ps [] → map (slice bytes) (placed 0 ps) ≡ token_texts ps }
    ensures rise { (ps : List Piece) → (bytes : List ℕ) → CutTo bytes ps [] → Rises 0 (placed 0 ps) }
{}
