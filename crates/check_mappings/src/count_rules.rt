//! The rule on how many parts a model and its classes may have.

mod numbers;
mod parts;
mod rule;
mod states;

pub use rule::has_few_parts;
