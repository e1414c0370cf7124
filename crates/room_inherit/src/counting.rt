//! How many tokens a model has. Each function takes how many are left of those allowed, and gives how
//! many are left once its own are taken away; none are left where it has more.

mod charts;
mod classes;
mod codes;
mod parts;
mod systems;

pub(crate) use classes::{TOO_MANY, is_small, less_actor};
