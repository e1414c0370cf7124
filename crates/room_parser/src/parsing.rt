//! Parsing a text's tokens.
ghost use Rattle.std.specs.Prelude.{◌≡◌, ◌+◌, ◌==◌, min, count_by, take};
ghost use Rattle.room_ast.specs.Tokens.{model_tokens};
ghost use Rattle.room_ast.specs.Trees.{ModelTree};
ghost use Rattle.room_tokens.specs.Single.{values};
ghost use Rattle.room_parser.specs.Parsed.{IsParsed};

use crate::fault::ParseFault;
use crate::models::whole;
use room_ast::Model;
use room_lexer::Token;
use room_tokens::ReadFault;
use std::alloc::Global;

/// The line of a byte, from 1: one more than the line feeds before it.
fn line_of(bytes: &[u8], at: usize) -> u32
    ensures { result ≡ min (count_by (λ b. b == 10) (take at bytes.now) + 1) u32.MAX }
{
    let (before, _) = bytes.split_at(at.min(bytes.len()));
    let feeds = before.iter().filter(|b| **b == b'\n').count();
    if feeds < u32::MAX as usize {
        feeds as u32 + 1
    } else {
        u32::MAX
    }
}

/// The model that a text's tokens are. `tokens` are those that `lex` gave for `bytes`. Graphs are read
/// by calls that nest as deep as they do; nested mappings take no calls.
pub fn parse(alloc: Global, bytes: &[u8], tokens: &[Token]) -> Result<Model, ParseFault>
    ensures { IsParsed (values bytes.now tokens.now) result }
{
    match whole(alloc, bytes, tokens) {
        Ok(model) => Ok(model),
        Err(ReadFault::Syntax(at)) => Err(ParseFault::Syntax {
            line: line_of(bytes, at),
        }),
        Err(ReadFault::Memory) => Err(ParseFault::Memory),
    }
}

/// No two models have the same tokens.
pub fn one_tree()
    ensures { (s t : ModelTree) → model_tokens s ≡ model_tokens t → s ≡ t }
{}
