//! Why no journals were read.
use std::alloc::AllocError;

/// Why no journals were read.
#[derive(Clone, Copy, PartialEq, Eq)]
pub enum ReadFaultOf {
    /// No journals that fit the wiring have this text. The offset is that of the first byte at
    /// which it differs from the text of the journals as which it can be read, the text's end among
    /// them; it is the length of the text where these journals don't fit, or aren't tied in form 2.
    Malformed { offset: usize },
    /// There was no memory.
    Memory,
}

impl From<AllocError> for ReadFaultOf {
    ghost use Rattle.std.specs.Prelude.{◌≡◌};
    ghost use Rattle.journal_reader.specs.declared.fault.ReadFaultOf.TheVariants.{Memory};

    ghost from_gives = { λ _ e. e ≡ Memory };

    fn from(_refused: AllocError) -> Self {
        ReadFaultOf::Memory
    }
}
