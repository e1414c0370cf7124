//! The fields of a line.
ghost use Rattle.std.specs.Prelude.{◌≡◌, ◌≤◌, not, length, [], ◌∷◌, MatchOption};
ghost use Rattle.std.specs.List.{prefix_len};
ghost use Rattle.inject_reader.specs.inject_lines.Fields.{is_blank, fields};

use std::marker::Model;

/// The fields of a line that are left to read. A contract sees their list.
#[derive(Drop)]
pub struct Fields<'a> {
    rest: &'a [u8],
}

impl<'a> Model for Fields<'a> {
    ghost use Rattle.std.specs.Prelude.{List, ℕ};
    ghost use Rattle.inject_reader.specs.inject_lines.Fields.{fields};

    ghost Value = { List (List ℕ) };

    ghost view = { λ f. fields f.rest.now };
}

fn is_blank(byte: u8) -> bool
    ensures { result ≡ is_blank byte }
{
    byte == b' ' || byte == b'\t'
}

/// How many blanks come first.
fn blanks(bytes: &[u8]) -> usize
    ensures len { result ≡ prefix_len is_blank bytes.now }
    ensures within { result ≤ length bytes.now }
{
    bytes.iter().take_while(|b| is_blank(**b)).count()
}

/// How many bytes come before the first blank.
fn word_len(bytes: &[u8]) -> usize
    ensures len { result ≡ prefix_len (λ b. not (is_blank b)) bytes.now }
    ensures within { result ≤ length bytes.now }
{
    bytes.iter().take_while(|b| !is_blank(**b)).count()
}

/// The bytes from the first one on that is no blank.
fn behind_blanks(bytes: &[u8]) -> &[u8]
    ensures same { fields result.now ≡ fields bytes.now }
    ensures begins { prefix_len is_blank result.now ≡ 0 }
{
    bytes.split_at(blanks(bytes)).1
}

/// The first field, and what stands behind it.
fn first_field(bytes: &[u8]) -> Option<(&[u8], &[u8])>
    ensures { MatchOption result (fields bytes.now ≡ [])
        (λ p. fields bytes.now ≡ p.0.now ∷ fields p.1.now) }
{
    let text = behind_blanks(bytes);
    let (word, rest) = text.split_at(word_len(text));
    if word.is_empty() {
        None
    } else {
        Some((word, rest))
    }
}

impl<'a> Fields<'a> {
    pub fn of(line: &'a [u8]) -> Self
        ensures { result ≡ fields line.now }
    {
        Fields { rest: line }
    }

    /// Takes the next field, if there is one.
    pub fn take(&mut self) -> Option<&'a [u8]>
        ensures { MatchOption result (self.old ≡ []) (λ w. self.old ≡ w.now ∷ self.new) }
    {
        let (word, rest) = first_field(self.rest)?;
        self.rest = rest;
        Some(word)
    }
}
