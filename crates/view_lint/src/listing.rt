//! Lists of things of which the first are told.
use itoa::Buffer;
use room_wiring::Path;
use std::alloc::{AllocError, Global};

/// The most things that are told.
const MOST_TOLD: usize = 6;

/// A list of things with commas between them, of which the first are told and the others counted.
#[derive(Drop)]
pub(crate) struct Listing {
    bytes: Vec<u8>,
    count: usize,
}

/// A number in decimal digits.
pub(crate) fn decimal(alloc: Global, number: u64) -> Result<Vec<u8>, AllocError> {
    let mut buffer = Buffer::new();
    Vec::from_slice(alloc, buffer.format(number).as_bytes())
}

/// A number that may be below 0, in decimal digits.
pub(crate) fn signed(alloc: Global, number: i64) -> Result<Vec<u8>, AllocError> {
    let mut buffer = Buffer::new();
    Vec::from_slice(alloc, buffer.format(number).as_bytes())
}

impl Listing {
    pub(crate) fn new(alloc: Global) -> Listing {
        Listing {
            bytes: Vec::new(alloc),
            count: 0,
        }
    }

    pub(crate) fn is_empty(&self) -> bool {
        self.count == 0
    }

    /// Counts one more thing, and says whether it is told.
    fn begin(&mut self) -> Result<bool, AllocError> {
        self.count = self.count.saturating_add(1);
        let is_told = self.count <= MOST_TOLD;
        if is_told && self.count > 1 {
            self.bytes.extend_from_slice(b", ")?;
        }
        Ok(is_told)
    }

    /// Adds a thing with this text.
    pub(crate) fn add(&mut self, text: &[u8]) -> Result<(), AllocError> {
        if self.begin()? {
            self.bytes.extend_from_slice(text)?;
        }
        Ok(())
    }

    /// Adds a part of a slot: the path, and then the text of these parts.
    pub(crate) fn add_at(
        &mut self,
        path: Option<&Path>,
        parts: &[&[u8]],
    ) -> Result<(), AllocError> {
        if !self.begin()? {
            return Ok(());
        }
        if let Some(path) = path {
            path.push_to(&mut self.bytes)?;
        }
        for part in parts {
            self.bytes.extend_from_slice(part)?;
        }
        Ok(())
    }

    /// The list, with how many more there are.
    pub(crate) fn told(self) -> Result<Vec<u8>, AllocError> {
        let mut bytes = self.bytes;
        if self.count > MOST_TOLD {
            let mut buffer = Buffer::new();
            bytes.extend_from_slice(b" and ")?;
            bytes.extend_from_slice(buffer.format(self.count - MOST_TOLD).as_bytes())?;
            bytes.extend_from_slice(b" more")?;
        }
        Ok(bytes)
    }
}
