//! What strings and blocks contain.
ghost use Rattle.std.specs.Prelude.{◌≡◌, ◌++◌, IfOk, OnOk, MatchResult, map, option_to_list, false};
ghost use Rattle.room_ast.specs.Values.{plain_of, spelled};
ghost use Rattle.room_tokens.specs.Contents.{inside, written, takes, unescaped, string_contents, block_contents};

use crate::fault::ReadFault;
use room_ast::{PlainValue, Text};
use room_lexer::{LexFault, Mark, Token, TokenKind, Word, lex};
use std::alloc::{AllocError, Global};

/// What stands between so many bytes at the front and at the end.
fn inside(text: &[u8], k: usize) -> &[u8]
    ensures { result.now ≡ inside k text.now }
{
    let (_, from) = text.split_at(k.min(text.len()));
    let (inside, _) = from.split_at(from.len().saturating_sub(k));
    inside
}

/// What a byte stands for: nothing where it takes the next one.
fn written(taken: bool, b: u8) -> Option<u8>
    ensures { result ≡ written taken b }
{
    if taken {
        return Some(if b == b'n' { b'\n' } else { b });
    }
    if b == b'\\' { None } else { Some(b) }
}

fn takes(taken: bool, b: u8) -> bool
    ensures { result ≡ takes taken b }
{
    !taken && b == b'\\'
}

/// Adds a byte, if there is one.
fn add(contents: &mut Vec<u8>, byte: Option<u8>) -> Result<(), AllocError>
    ensures { OnOk result (contents.new.items ≡ contents.old.items ++ option_to_list byte) }
{
    if let Some(byte) = byte {
        contents.push(byte)?;
    }
    Ok(())
}

/// What the bytes of a string stand for.
fn unescaped(alloc: Global, bytes: &[u8]) -> Result<Vec<u8>, AllocError>
    ensures { IfOk result (λ v. v.items ≡ unescaped false bytes.now) }
{
    let mut contents = Vec::with_capacity(alloc, bytes.len())?;
    let mut taken = false;
    for b in bytes {
        add(&mut contents, written(taken, *b))?;
        taken = takes(taken, *b);
    }
    Ok(contents)
}

/// The contents of a STRING's text, which stands between quotes: a backslash and the byte that it
/// takes stand for that byte, and `\n` for a line feed.
#[tactic(auto, unfolding(crate::specs::Contents::string_contents))]
pub fn string_contents(alloc: Global, text: &[u8]) -> Result<Text, AllocError>
    ensures { IfOk result (λ t. t ≡ string_contents text.now) }
{
    let contents = unescaped(alloc, inside(text, 1))?;
    Ok(Text::from(contents))
}

/// The contents of a BLOCK's text, which stands between three single quotes and three.
#[tactic(auto, unfolding(crate::specs::Contents::block_contents))]
pub fn block_contents(alloc: Global, text: &[u8]) -> Result<Text, AllocError>
    ensures { IfOk result (λ t. t ≡ block_contents text.now) }
{
    let contents = Vec::from_slice(alloc, inside(text, 3))?;
    Ok(Text::from(contents))
}

/// The plain value that tokens are.
fn plain_of(tokens: &[Token]) -> Option<PlainValue>
    ensures { result ≡ plain_of (map (λ t. t.kind) tokens.now) }
{
    match tokens {
        [token] => match token.kind {
            TokenKind::Number(n) => Some(PlainValue::Number(n)),
            TokenKind::Ident(Some(Word::True)) => Some(PlainValue::True),
            TokenKind::Ident(Some(Word::False)) => Some(PlainValue::False),
            _ => None,
        },
        [sign, number] => match (sign.kind, number.kind) {
            (TokenKind::Mark(Mark::Minus), TokenKind::Number(n)) => Some(PlainValue::Negative(n)),
            _ => None,
        },
        _ => None,
    }
}

/// The plain value that a text spells, if it spells one. The error is `Memory`.
#[tactic(auto, unfolding(room_ast::specs::Values::spelled))]
pub fn spelled(alloc: Global, text: &[u8]) -> Result<Option<PlainValue>, ReadFault>
    ensures { MatchResult result (λ v. v ≡ spelled text.now) (λ e. e ≡ ReadFault.Memory) }
{
    match lex(alloc, text) {
        Ok(tokens) => Ok(plain_of(tokens.as_slice())),
        Err(LexFault::Memory) => Err(ReadFault::Memory),
        Err(_) => Ok(None),
    }
}
