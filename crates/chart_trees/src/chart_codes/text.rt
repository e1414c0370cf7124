//! The text of a code.
ghost use Rattle.std.specs.Prelude.{◌≡◌, ◌++◌, ◌∷◌, map, IfOk, OnOk};
ghost use Rattle.std.specs.List.{join_with_byte};
ghost use Rattle.chart_trees.specs.chart_codes.Codes.{text_bytes, code_bytes};

use room_ast::{Code, CodeText};
use std::alloc::{AllocError, Global};

fn text_bytes(text: &CodeText) -> &[u8]
    ensures { result.now ≡ text_bytes text.entry.now }
{
    match text {
        CodeText::Str(text) | CodeText::Block(text) => text.as_bytes(),
    }
}

/// Adds a line feed and a text.
fn add_line(bytes: &mut Vec<u8>, text: &[u8]) -> Result<(), AllocError>
    ensures { OnOk result (bytes.new.items ≡ bytes.old.items ++ 10 ∷ text.now) }
{
    bytes.push(b'\n')?;
    bytes.extend_from_slice(text)
}

fn joined(alloc: Global, texts: &[CodeText]) -> Result<Vec<u8>, AllocError>
    ensures { IfOk result (λ v. v.items ≡ join_with_byte 10 (map text_bytes texts.now)) }
{
    let [first, others @ ..] = texts else {
        return Ok(Vec::new(alloc));
    };
    let mut bytes = Vec::from_slice(alloc, text_bytes(first))?;
    for text in others {
        add_line(&mut bytes, text_bytes(text))?;
    }
    Ok(bytes)
}

/// The bytes of a code: its texts, joined by line feeds.
pub fn code_bytes(alloc: Global, code: &Code) -> Result<Vec<u8>, AllocError>
    ensures { IfOk result (λ v. v.items ≡ code_bytes code.now) }
{
    match code {
        Code::Texts(texts) => joined(alloc, texts.as_slice()),
        Code::Single(text) => Vec::from_slice(alloc, text_bytes(text)),
    }
}
