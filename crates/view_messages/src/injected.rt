//! The lines of injections, and what each of them says.
use std::alloc::{AllocError, Global};
use text_reading::value;

/// A line of a text, and its number from 1.
#[derive(Clone, Copy, Drop)]
pub struct Line<'a> {
    pub number: usize,
    pub text: &'a [u8],
}

/// What a line says, as far as it is asked here: nothing, a message, or how far the time moves. `settle` says nothing: that
/// all was quiet is told by the journals.
#[derive(Clone, Copy, Drop, PartialEq, Eq)]
pub enum Says {
    Nothing,
    Message,
    Advance(u64),
}

fn is_blank(byte: u8) -> bool {
    byte == b' ' || byte == b'\t'
}

/// A word of a line, from 0.
fn word_of(line: &[u8], number: usize) -> &[u8] {
    line.split(|byte| is_blank(*byte))
        .filter(|word| !word.is_empty())
        .nth(number)
        .unwrap_or(&[])
}

/// What a line says. No target of a message is called as the words that divide parts.
fn says_of(line: &[u8]) -> Says {
    if line.is_empty() || line.starts_with(b"#") {
        return Says::Nothing;
    }
    let settle: &[u8] = b"settle";
    let advance: &[u8] = b"advance";
    let word = word_of(line, 0);
    if word == settle {
        Says::Nothing
    } else if word == advance {
        Says::Advance(value(word_of(line, 1)))
    } else {
        Says::Message
    }
}

/// A line, and what it says.
#[derive(Clone, Copy, Drop)]
pub struct Spoken<'a> {
    pub line: Line<'a>,
    pub says: Says,
}

/// The lines of a text, in order.
pub fn lines_of<'a>(alloc: Global, text: &'a [u8]) -> Result<Vec<Spoken<'a>>, AllocError> {
    let mut lines = Vec::new(alloc);
    for (place, whole) in text.split(|byte| *byte == b'\n').enumerate() {
        let text = whole.strip_suffix(b"\r").unwrap_or(whole);
        let line = Line {
            number: place.saturating_add(1),
            text,
        };
        lines.push(Spoken {
            line,
            says: says_of(text),
        })?;
    }
    Ok(lines)
}

/// Whether a line of a text moves the time.
pub fn moves_time(text: &[u8]) -> bool {
    let advance: &[u8] = b"advance";
    text.split(|byte| *byte == b'\n')
        .any(|line| word_of(line, 0) == advance)
}
