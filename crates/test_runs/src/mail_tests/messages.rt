//! Messages are told apart by their stamps.
use room_kinds::Msg;
use std::alloc::{AllocError, Global};

/// The stamps of messages, in their order.
pub(crate) fn stamps(alloc: Global, list: &[Msg]) -> Result<Vec<u64>, AllocError> {
    list.iter().map(|m| m.stamp.0).collect(alloc)
}
