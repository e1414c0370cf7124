//! What is left of a text or a line to read.
ghost use Rattle.std.specs.Prelude.{◌≡◌, ◌==◌, length};
ghost use Rattle.name_tables.specs.name_numbers.Names.{same};
ghost use Rattle.journal_reader.specs.journal_lines.Numerals.{upto, past, begins, begins_digit, number_in, byte_in, word_in, signed_in};

use std::marker::Model;

/// The bytes that are left to read. A contract sees their list.
#[derive(Drop)]
pub struct Rest<'a> {
    bytes: &'a [u8],
}

impl<'a> Model for Rest<'a> {
    ghost use Rattle.std.specs.Prelude.{List, ℕ};

    ghost Value = { List ℕ };

    ghost view = { λ r. r.bytes.now };
}

impl<'a> Rest<'a> {
    pub fn new(bytes: &'a [u8]) -> Self
        ensures { result ≡ bytes.now }
    {
        Rest { bytes }
    }

    pub fn is_empty(&self) -> bool
        ensures { result ≡ (length self.now == 0) }
    {
        self.bytes.is_empty()
    }

    /// All that is left.
    pub fn bytes(&self) -> &'a [u8]
        ensures { result.now ≡ self.now }
    {
        self.bytes
    }

    /// Whether this byte comes next.
    pub fn begins(&self, byte: u8) -> bool
        ensures { result ≡ begins byte self.now }
    {
        match self.bytes {
            [first, ..] => *first == byte,
            [] => false,
        }
    }

    /// Takes what stands before the next `at`, and passes over that one.
    pub fn take_until(&mut self, at: u8) -> &'a [u8]
        ensures taken { result.now ≡ upto at self.old }
        ensures rest { self.new ≡ past at self.old }
    {
        let (taken, rest) = cut(self.bytes, at);
        self.bytes = rest;
        taken
    }

    /// Passes over what stands before the next `at`, and over that one.
    pub fn skip_past(&mut self, at: u8)
        ensures { self.new ≡ past at self.old }
    {
        self.bytes = cut(self.bytes, at).1;
    }
}

/// What stands before the first `at`, and what stands behind it: nothing where it doesn't come.
fn cut(bytes: &[u8], at: u8) -> (&[u8], &[u8])
    ensures before { result.0.now ≡ upto at bytes.now }
    ensures behind { result.1.now ≡ past at bytes.now }
{
    match text_reading::cut(bytes, at) {
        (taken, Some(behind)) => (taken, behind),
        (taken, None) => (taken, b""),
    }
}

/// Whether this is the word.
pub fn is(word: &[u8], text: &str) -> bool
    ensures { result ≡ same word.now text.now }
{
    word == text.as_bytes()
}

/// Whether a digit comes first.
pub fn begins_digit(line: &[u8]) -> bool
    ensures { result ≡ begins_digit line.now }
{
    match line {
        [first, ..] => 48 <= *first && *first <= 57,
        [] => false,
    }
}

/// The value of decimal digits; the greatest number of 64 bits for every greater one.
#[tactic(auto, unfolding(crate::specs::journal_lines::Numerals::number_in))]
pub fn number(digits: &[u8]) -> u64
    ensures { result ≡ number_in digits.now }
{
    text_reading::value(digits)
}

#[tactic(auto, unfolding(crate::specs::journal_lines::Numerals::byte_in))]
pub fn byte(digits: &[u8]) -> u8
    ensures { result ≡ byte_in digits.now }
{
    let value = number(digits);
    if value < 256 { value as u8 } else { 0 }
}

#[tactic(auto, unfolding(crate::specs::journal_lines::Numerals::word_in))]
pub fn word(digits: &[u8]) -> u32
    ensures { result ≡ word_in digits.now }
{
    let value = number(digits);
    if value < 4294967296 { value as u32 } else { 0 }
}

/// A number with or without a `-` before it; 0 for what is none.
#[tactic(auto, unfolding(crate::specs::journal_lines::Numerals::signed_in))]
pub fn signed(text: &[u8]) -> i64
    ensures { result ≡ signed_in text.now }
{
    text_reading::number(text).unwrap_or(0)
}
