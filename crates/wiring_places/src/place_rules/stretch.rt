//! What a binding takes of its two sides.

/// Of its left side a binding takes `count` places from the place `left` on, and pairs them in order
/// with as many of its right side, from the place `right` on. The places of a side are numbered from
/// 0, by index of the reference and then by place.
#[derive(Clone, Copy, Drop, PartialEq, Eq)]
pub struct Stretch {
    pub left: u64,
    pub right: u64,
    pub count: u64,
}

/// How many places a side of a binding has at the beginning.
#[derive(Clone, Copy, Drop, PartialEq, Eq)]
pub enum Supply {
    Limited(u64),
    /// None, with new ones at each binding.
    Growing,
}
