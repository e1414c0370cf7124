//! The titles of pictures: the name of the model, and the command that draws the picture.
use crate::written::form_of;
use room_ast::{Dotted, Model};
use std::alloc::{AllocError, Global};
use view_drawing::{add_name, add_plain};

/// The name of a file without its folders, so that a picture is the same wherever its files are.
fn file_name(word: &[u8]) -> &[u8] {
    match word.iter().rposition(|byte| *byte == b'/') {
        Some(slash) => word.get(slash.saturating_add(1)..).unwrap_or(&[]),
        None => word,
    }
}

/// Adds a word of a command, as far as it fits.
fn add_word(alloc: Global, title: &mut Vec<u8>, word: &[u8]) -> Result<(), AllocError> {
    let mut plain = Vec::new(alloc);
    add_plain(&mut plain, word)?;
    title.push(b' ')?;
    add_name(title, plain.as_slice())
}

fn is_form(word: Option<&String>) -> bool {
    match word {
        Some(word) => form_of(word.as_str()).is_some(),
        None => false,
    }
}

/// Whether a word stands in a place.
fn has_word(words: &[String], place: usize, expected: &str) -> bool {
    match words.get(place) {
        Some(word) => word.as_str() == expected,
        None => false,
    }
}

/// How many words behind the command are names of files, where the picture is one of a run or not.
fn file_count(words: &[String], is_run: bool) -> usize {
    if is_run {
        2
    } else if has_word(words, 4, "--at") {
        3
    } else {
        1
    }
}

/// Adds the words of a command: files without their folders, and behind the journals of a run the form that is meant
/// where none is named.
fn add_command(alloc: Global, title: &mut Vec<u8>, words: &[String]) -> Result<(), AllocError> {
    let is_run = has_word(words, 0, "run");
    let files = file_count(words, is_run);
    for (number, word) in words.iter().enumerate() {
        let word = word.as_str().as_bytes();
        if 0 < number && number <= files {
            add_word(alloc, title, file_name(word))?;
        } else {
            add_word(alloc, title, word)?;
        }
        if is_run && number == files && !is_form(words.get(3)) {
            add_word(alloc, title, b"--svg")?;
        }
    }
    Ok(())
}

fn add_dotted(title: &mut Vec<u8>, name: &Dotted) -> Result<(), AllocError> {
    add_name(title, name.first.as_bytes())?;
    for part in name.others.as_slice() {
        title.push(b'.')?;
        add_name(title, part.as_bytes())?;
    }
    Ok(())
}

/// The title of the picture of a model for which these words ask.
pub fn title_of(alloc: Global, model: &Model, words: &[String]) -> Result<Vec<u8>, AllocError> {
    let mut title = Vec::new(alloc);
    add_dotted(&mut title, &model.name)?;
    title.extend_from_slice(b": room")?;
    add_command(alloc, &mut title, words)?;
    Ok(title)
}
