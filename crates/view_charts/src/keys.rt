//! Keys, which are bytes put together.
use std::alloc::{AllocError, Global};

/// Bytes, one behind the other.
pub fn joined(alloc: Global, parts: &[&[u8]]) -> Result<Vec<u8>, AllocError> {
    let mut whole = Vec::new(alloc);
    for part in parts {
        whole.extend_from_slice(part)?;
    }
    Ok(whole)
}

/// A key with a mark behind it.
pub(crate) fn marked(alloc: Global, key: &[u8], mark: u8) -> Result<Vec<u8>, AllocError> {
    let mut whole = Vec::from_slice(alloc, key)?;
    whole.push(mark)?;
    Ok(whole)
}

/// The key of what has a name in a graph: that of the graph, a mark and the name.
pub fn named(alloc: Global, graph: &[u8], mark: u8, name: &[u8]) -> Result<Vec<u8>, AllocError> {
    let mut whole = marked(alloc, graph, mark)?;
    whole.extend_from_slice(name)?;
    Ok(whole)
}
