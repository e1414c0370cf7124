//! Names, digits and paths.
ghost use Rattle.std.specs.Prelude.{◌≡◌, ◌||◌};
ghost use Rattle.std.specs.List.{list_all};
ghost use Rattle.name_tables.specs.name_numbers.Names.{same};
ghost use Rattle.room_wiring.specs.WellNamed.{begins_ident, is_digit, is_ident};
ghost use Rattle.inject_reader.specs.inject_lines.Texts.{is_segment, is_path};

use text_reading::{are_digits, cut};

/// Whether this is the word.
pub fn is(word: &[u8], text: &str) -> bool
    ensures { result ≡ same word.now text.now }
{
    word == text.as_bytes()
}

fn begins_ident(byte: u8) -> bool
    ensures { result ≡ begins_ident byte }
{
    (65 <= byte && byte <= 90) || (97 <= byte && byte <= 122) || byte == 95
}

fn is_digit(byte: u8) -> bool
    ensures { result ≡ is_digit byte }
{
    48 <= byte && byte <= 57
}

/// Whether there are only letters, digits and `_`.
fn goes_on_as_ident(text: &[u8]) -> bool
    ensures { result ≡ list_all (λ b. begins_ident b || is_digit b) text.now }
{
    text.iter().all(|b| begins_ident(*b) || is_digit(*b))
}

/// Whether the text is a letter or `_`, and then letters, digits and `_`.
pub fn is_ident(text: &[u8]) -> bool
    ensures { result ≡ is_ident text.now }
{
    match text {
        [first, rest @ ..] => begins_ident(*first) && goes_on_as_ident(rest),
        [] => false,
    }
}

#[tactic(auto, unfolding(crate::specs::inject_lines::Texts::is_segment))]
fn is_segment(text: &[u8]) -> bool
    ensures { result ≡ is_segment text.now }
{
    let (name, index) = cut(text, b':');
    match index {
        Some(digits) => is_ident(name) && are_digits(digits),
        None => is_ident(name),
    }
}

/// Whether the text is a path: segments joined by `/`.
#[tactic(auto, unfolding(crate::specs::inject_lines::Texts::is_path))]
pub fn is_path(text: &[u8]) -> bool
    ensures { result ≡ is_path text.now }
{
    text.split(|b| *b == b'/').all(is_segment)
}
