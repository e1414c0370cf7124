//! The plant that a model's wiring and charts make: what a model runs as.

mod plants;

pub use plants::plant_of;
