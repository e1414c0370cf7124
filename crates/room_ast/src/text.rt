//! Texts.
ghost use Rattle.std.specs.Prelude.{◌≡◌};

use std::marker::Model;

/// The contents of a STRING or a BLOCK, which contracts see as the list of their bytes.
#[derive(Drop, Debug)]
pub struct Text {
    bytes: Vec<u8>,
}

impl Model for Text {
    ghost use Rattle.std.specs.Prelude.{List, ℕ};

    ghost Value = { List ℕ };

    ghost view = { λ t. t.bytes.items };
}

impl Text {
    pub fn as_bytes(&self) -> &[u8]
        ensures { result.now ≡ self.now }
    {
        self.bytes.as_slice()
    }
}

impl From<Vec<u8>> for Text {
    ghost from_gives = { λ v t. t ≡ v.items };

    /// The vector's bytes, with no copy.
    fn from(bytes: Vec<u8>) -> Self {
        Text { bytes }
    }
}
