//! The passes of one party at the close.
use crate::shared_box::BoxPass;
use std::collections::VecDeque;

/// The passes of one party that are not taken in yet.
#[derive(Drop)]
pub struct Row {
    pub(crate) passes: VecDeque<BoxPass>,
}
