//! The forms of lines.
ghost use Rattle.std.specs.Prelude.{◌≡◌, option_map, IfOk};
ghost use Rattle.std.specs.Option.{option_copied};
ghost use Rattle.inject_reader.specs.inject_lines.Forms.{place_in, target_at, target_in, priority_in, priority_of, load_in, message_in, form_in, settle_in, time_in, advance_in, loaded};
ghost use Rattle.text_reading.specs.Cuts.{cut_at};
ghost use Rattle.inject_reader.specs.inject_lines.Views.{target_view, load_view, form_view};

use crate::inject_lines::fields::Fields;
use crate::inject_lines::texts::{is, is_ident, is_path};
use room_kinds::Priority;
use std::alloc::{AllocError, Global};
use text_reading::{are_digits, cut, number, plain_number};

/// Where a message goes, as it is written: the path of a slot, the name of a port and the digits
/// of a place, of which there are none where no place is written.
#[derive(Clone, Copy)]
pub struct Target<'a> {
    pub path: &'a [u8],
    pub port: &'a [u8],
    pub place: &'a [u8],
}

/// The numbers of a message, and its priority from 1 to 5.
#[derive(Drop)]
pub struct Load {
    pub numbers: Vec<i64>,
    pub prio: Priority,
}

/// A message, as it is written.
#[derive(Drop)]
pub struct Wanted<'a> {
    pub target: Target<'a>,
    pub signal: &'a [u8],
    pub load: Load,
}

/// What a line says.
#[derive(Drop)]
pub enum Form<'a> {
    Settle,
    Advance(u32),
    Message(Wanted<'a>),
}

/// The digits of a place in brackets; none where there are no brackets.
fn place(bracket: Option<&[u8]>) -> Option<&[u8]>
    ensures { option_copied result ≡ place_in (option_copied bracket.entry) }
{
    let Some(text) = bracket else {
        return Some(b"");
    };
    let (digits, behind) = cut(text, b']');
    match behind {
        Some([]) => {
            if are_digits(digits) {
                Some(digits)
            } else {
                None
            }
        }
        _ => None,
    }
}

/// `<port>[<place>]` behind a path.
fn target_at<'a>(path: &'a [u8], text: &'a [u8]) -> Option<Target<'a>>
    ensures { option_map target_view result ≡ target_at path.now (cut_at 91 text.now) }
{
    let (port, bracket) = cut(text, b'[');
    if !is_path(path) || !is_ident(port) {
        return None;
    }
    let place = place(bracket)?;
    Some(Target { path, port, place })
}

/// `<path>.<port>[<place>]`; the place may be missing.
#[tactic(auto, unfolding(crate::specs::inject_lines::Forms::target_in))]
fn read_target(text: &[u8]) -> Option<Target<'_>>
    ensures { option_map target_view result ≡ target_in text.now }
{
    let (path, behind) = cut(text, b'.');
    target_at(path, behind?)
}

#[tactic(auto, unfolding(crate::specs::inject_lines::Forms::priority_in))]
fn priority(word: &[u8]) -> Option<Priority>
    ensures { option_map (λ p. p.0) result ≡ priority_in word.now }
{
    if is(word, "panic") {
        Some(Priority(1))
    } else if is(word, "high") {
        Some(Priority(2))
    } else if is(word, "general") {
        Some(Priority(3))
    } else if is(word, "low") {
        Some(Priority(4))
    } else if is(word, "background") {
        Some(Priority(5))
    } else {
        None
    }
}

/// One word alone, a priority.
fn last_priority(mut words: Fields<'_>) -> Option<Priority>
    ensures { option_map (λ p. p.0) result ≡ priority_of words.entry }
{
    let word = words.take()?;
    if words.take().is_some() {
        return None;
    }
    priority(word)
}

/// These numbers at a priority.
fn loaded(numbers: Vec<i64>, prio: Option<Priority>) -> Option<Load>
    ensures { option_map load_view result
        ≡ option_map (loaded numbers.items) (option_map (λ p. p.0) prio) }
{
    match prio {
        Some(prio) => Some(Load { numbers, prio }),
        None => None,
    }
}

/// Numbers, and then perhaps `at` and a priority; the general one where none is written.
fn read_load(alloc: Global, mut words: Fields<'_>) -> Result<Option<Load>, AllocError>
    ensures { IfOk result (λ l. option_map load_view l ≡ load_in words.entry) }
{
    let mut numbers = Vec::new(alloc);
    while let Some(word) = words.take() {
        if is(word, "at") {
            return Ok(loaded(numbers, last_priority(words)));
        }
        let Some(number) = number(word) else {
            return Ok(None);
        };
        numbers.push(number)?;
    }
    Ok(Some(Load {
        numbers,
        prio: Priority(3),
    }))
}

fn settle<'a>(word: &'a [u8]) -> Option<Form<'a>>
    ensures { option_map form_view result ≡ settle_in word.now }
{
    if is(word, "settle") {
        Some(Form::Settle)
    } else {
        None
    }
}

/// A time to move on by, from 1 to 2,147,483,647.
fn time(text: &[u8]) -> Option<u32>
    ensures { result ≡ time_in text.now }
{
    let Some(time) = plain_number(2_147_483_647, text) else {
        return None;
    };
    Some(time as u32)
}

/// A time and nothing behind it.
fn advance<'a>(text: &'a [u8], mut words: Fields<'a>) -> Option<Form<'a>>
    ensures { option_map form_view result ≡ advance_in text.now words.entry }
{
    if words.take().is_some() {
        return None;
    }
    Some(Form::Advance(time(text)?))
}

fn message<'a>(
    alloc: Global,
    text: &'a [u8],
    signal: &'a [u8],
    words: Fields<'a>,
) -> Result<Option<Form<'a>>, AllocError>
    ensures { IfOk result (λ f.
        option_map form_view f ≡ message_in text.now signal.now words.entry) }
{
    if !is_ident(signal) {
        return Ok(None);
    }
    let Some(target) = read_target(text) else {
        return Ok(None);
    };
    let Some(load) = read_load(alloc, words)? else {
        return Ok(None);
    };
    Ok(Some(Form::Message(Wanted {
        target,
        signal,
        load,
    })))
}

/// What a line says, if it has the form `settle`, `advance <time>` or `<path>.<port>[<place>]
/// <signal> <numbers> at <prio>`, in which the place, the numbers and the last two words may be
/// missing. It takes time and memory in proportion to the line.
#[tactic(auto, unfolding(crate::specs::inject_lines::Forms::form_in))]
pub fn read_form(alloc: Global, line: &[u8]) -> Result<Option<Form<'_>>, AllocError>
    ensures { IfOk result (λ f. option_map form_view f ≡ form_in line.now) }
{
    let mut words = Fields::of(line);
    let Some(first) = words.take() else {
        return Ok(None);
    };
    let Some(second) = words.take() else {
        return Ok(settle(first));
    };
    // No target lacks a dot, so no message begins with this word.
    if is(first, "advance") {
        return Ok(advance(second, words));
    }
    message(alloc, first, second, words)
}
