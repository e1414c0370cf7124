//! What is wrong at a place of a text.
use room_ast::ScopeSignal;
use std::alloc::{AllocError, Global};
use view_charts::{Item, joined};
use view_pages::type_name;

/// What is wrong at a place of a text.
#[derive(Drop)]
pub struct Cause {
    /// The first byte of the place, and the one behind its last.
    pub start: usize,
    pub end: usize,
    /// What is wrong there, in a line.
    pub what: Vec<u8>,
    /// The declarations that it is about.
    pub declared: Vec<Item>,
}

/// The most names that are listed.
const MOST_LISTED: usize = 12;

/// That something is wrong from a byte on up to another one: a line of these texts.
pub(crate) fn cause_with(
    alloc: Global,
    span: (usize, usize),
    what: &[&[u8]],
) -> Result<Cause, AllocError> {
    Ok(Cause {
        start: span.0,
        end: span.1,
        what: joined(alloc, what)?,
        declared: Vec::new(alloc),
    })
}

impl Cause {
    /// This cause, about a declaration more, if there is one.
    pub(crate) fn about(self, item: Option<Item>) -> Result<Cause, AllocError> {
        let Cause {
            start,
            end,
            what,
            mut declared,
        } = self;
        if let Some(item) = item {
            declared.push(item)?;
        }
        Ok(Cause {
            start,
            end,
            what,
            declared,
        })
    }
}

/// Names as a list, of which the first are written.
pub(crate) fn listed(alloc: Global, names: &[&[u8]]) -> Result<Vec<u8>, AllocError> {
    let mut list = Vec::new(alloc);
    if names.is_empty() {
        list.extend_from_slice(b"none")?;
    }
    for (number, name) in names.iter().enumerate() {
        if number > 0 {
            list.extend_from_slice(b", ")?;
        }
        if number == MOST_LISTED {
            list.extend_from_slice(b"..")?;
            break;
        }
        list.extend_from_slice(name)?;
    }
    Ok(list)
}

/// The same of names that are owned.
pub(crate) fn listed_all(alloc: Global, names: &[Vec<u8>]) -> Result<Vec<u8>, AllocError> {
    let mut list = Vec::new(alloc);
    for name in names {
        list.push(name.as_slice())?;
    }
    listed(alloc, list.as_slice())
}

/// A message as its protocol declares it, with the types of all its numbers.
pub(crate) fn signal_text(alloc: Global, signal: &ScopeSignal) -> Result<Vec<u8>, AllocError> {
    let mut text = Vec::from_slice(alloc, signal.name.as_bytes())?;
    text.push(b'(')?;
    for (number, kind) in signal.numbers.as_slice().iter().enumerate() {
        if number > 0 {
            text.extend_from_slice(b", ")?;
        }
        text.extend_from_slice(type_name(*kind))?;
    }
    text.push(b')')?;
    Ok(text)
}

/// Messages as a list.
pub(crate) fn listed_signals(
    alloc: Global,
    signals: &[ScopeSignal],
) -> Result<Vec<u8>, AllocError> {
    let mut texts = Vec::new(alloc);
    for signal in signals.iter().take(MOST_LISTED.saturating_add(1)) {
        texts.push(signal_text(alloc, signal)?)?;
    }
    listed_all(alloc, texts.as_slice())
}
