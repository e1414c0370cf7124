//! Names and paths as texts.
ghost use Rattle.std.specs.Prelude.{◌≡◌, IfOk, nat_eq, IsAscii};
ghost use lib.Pointwise.{pointwise};

use std::alloc::{AllocError, Global};
use std::marker::Model;

/// A name, a path or the label of a state, which contracts see as the list of its bytes.
#[derive(Drop, Debug)]
pub struct Label {
    text: String,
}

impl Model for Label {
    ghost use Rattle.std.specs.Prelude.{List, ℕ};
    ghost use Rattle.std.specs.String.{string_bytes};

    ghost Value = { List ℕ };

    ghost view = { λ l. string_bytes l.text };
}

impl Label {
    pub fn from_text(alloc: Global, text: &str) -> Result<Label, AllocError>
        ensures { IfOk result (λ l. l ≡ text.now) }
    {
        let text = String::from_str(alloc, text)?;
        Ok(Label { text })
    }

    /// A label with these bytes, which are ASCII.
    pub fn from_ascii(alloc: Global, bytes: &[u8]) -> Result<Label, AllocError>
        requires { IsAscii bytes.now }
        ensures { IfOk result (λ l. l ≡ bytes.now) }
    {
        let bytes = Vec::from_slice(alloc, bytes)?;
        let text = String::from_utf8(bytes).unwrap();
        Ok(Label { text })
    }

    pub fn as_str(&self) -> &str
        ensures { result.now ≡ self.now }
    {
        self.text.as_str()
    }

    pub fn as_bytes(&self) -> &[u8]
        ensures { result.now ≡ self.now }
    {
        self.text.as_bytes()
    }

    /// A label equal to this one.
    pub fn copy(&self, alloc: Global) -> Result<Label, AllocError>
        ensures { IfOk result (λ l. l ≡ self.now) }
    {
        Label::from_text(alloc, self.as_str())
    }

    /// Whether the label has these bytes.
    pub fn is(&self, bytes: &[u8]) -> bool
        ensures { result ≡ pointwise nat_eq self.now bytes.now }
    {
        self.as_bytes() == bytes
    }
}
