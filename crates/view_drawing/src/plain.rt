//! Texts in pictures: visible ASCII alone, so that every form of picture can have them.
use std::alloc::{AllocError, Global};

/// The most letters of a label.
const MOST_LETTERS: usize = 40;

/// The most letters of a label that says several things one after another.
const MOST_LONG: usize = 56;

/// A text as a picture shows it, and as a whole.
#[derive(Drop)]
pub struct Label {
    pub shown: Vec<u8>,
    pub whole: Vec<u8>,
}

/// Adds a letter, behind a blank where one is wanted and none stands there.
fn add_letter(to: &mut Vec<u8>, gap: bool, letter: u8) -> Result<(), AllocError> {
    let is_apart = match to.as_slice().last() {
        Some(last) => *last == b' ',
        None => true,
    };
    if gap && !is_apart {
        to.push(b' ')?;
    }
    to.push(letter)?;
    Ok(())
}

/// Adds a text: a blank for blanks and ends of lines, a question mark for a letter outside ASCII.
pub fn add_plain(to: &mut Vec<u8>, text: &[u8]) -> Result<(), AllocError> {
    let mut gap = false;
    for byte in text {
        match *byte {
            b'!'..=b'~' => {
                add_letter(to, gap, *byte)?;
                gap = false;
            }
            // goes on with a letter that another byte began
            0x80..=0xBF => {}
            0..=0x20 | 0x7F => gap = true,
            0xC0..=0xFF => {
                add_letter(to, gap, b'?')?;
                gap = false;
            }
        }
    }
    Ok(())
}

/// Adds a text, cut after so many letters.
fn add_cut(to: &mut Vec<u8>, text: &[u8], most: usize) -> Result<(), AllocError> {
    if text.len() <= most {
        return to.extend_from_slice(text);
    }
    to.extend_from_slice(text.get(..most.saturating_sub(2)).unwrap_or(&[]))?;
    to.extend_from_slice(b"..")
}

/// Adds a name, cut after so many letters that fit into a picture.
pub fn add_name(to: &mut Vec<u8>, name: &[u8]) -> Result<(), AllocError> {
    add_cut(to, name, MOST_LETTERS)
}

/// The last letters of a name, as many as fit into a picture.
pub fn tail_of(name: &[u8]) -> &[u8] {
    name.get(name.len().saturating_sub(MOST_LETTERS)..)
        .unwrap_or(name)
}

/// A name or a text, cut after so many letters that fit into a picture.
pub fn name_of(alloc: Global, name: &[u8]) -> Result<Vec<u8>, AllocError> {
    let mut shown = Vec::new(alloc);
    add_name(&mut shown, name)?;
    Ok(shown)
}

impl Label {
    pub fn of(alloc: Global, whole: Vec<u8>) -> Result<Label, AllocError> {
        let shown = name_of(alloc, whole.as_slice())?;
        Ok(Label { shown, whole })
    }

    /// A label that says several things one after another.
    pub fn long(alloc: Global, whole: Vec<u8>) -> Result<Label, AllocError> {
        let mut shown = Vec::new(alloc);
        add_cut(&mut shown, whole.as_slice(), MOST_LONG)?;
        Ok(Label { shown, whole })
    }

    /// A label whose whole text begins with a name that isn't shown.
    pub fn named(alloc: Global, name: &[u8], rest: &[u8]) -> Result<Label, AllocError> {
        let shown = name_of(alloc, rest)?;
        let mut whole = Vec::from_slice(alloc, name)?;
        if !name.is_empty() && !rest.is_empty() {
            whole.extend_from_slice(b": ")?;
        }
        whole.extend_from_slice(rest)?;
        Ok(Label { shown, whole })
    }
}
