//! How many numbers types stand for, and the rule on that.

mod rules;
mod sizes;

pub use rules::{has_small_classes, sizes_of};
pub use sizes::{CAP, size_of_types, sizes_in_order};
